// The check of a formula table: refusals 1 to 4, in order.
#![tactic(auto)]

mod names;
mod nodes;
mod parents;
mod rules;

ghost use Rattle.std.specs.Prelude.{◌≡◌, length};
ghost use Rattle.table.specs.Node.{count_of};
ghost use Rattle.acceptance.specs.Refusals.{miscount, refuse_at, check_of, refusal_code, refusal_place};

use crate::nodes::Nodes;

// Why a table is refused, with the smallest node that is at fault.
#[derive(Clone, Copy, Debug, PartialEq, Eq)]
pub enum Refusal {
    // 1: the word count is 0, no multiple of 4, or above 2,048.
    WrongCount,
    // 2: the node has an unknown kind or a field outside its rule.
    Misfit(u32),
    // 3: the node is not a child exactly once.
    Misplaced(u32),
    // 4: the node is a name without a binder.
    Unbound(u32),
}

impl Refusal {
    // Its number, 1 to 4.
    pub fn code(self) -> u32
        ensures { result ≡ refusal_code self }
    {
        match self {
            Refusal::WrongCount => 1,
            Refusal::Misfit(_) => 2,
            Refusal::Misplaced(_) => 3,
            Refusal::Unbound(_) => 4,
        }
    }

    // The node at fault; 0 where the word count is.
    pub fn place(self) -> u32
        ensures { result ≡ refusal_place self }
    {
        match self {
            Refusal::WrongCount => 0,
            Refusal::Misfit(k) | Refusal::Misplaced(k) | Refusal::Unbound(k) => k,
        }
    }
}

// The node count, or `WrongCount`.
fn count(words: &[u32]) -> Result<u32, Refusal>
    ensures { result ≡ refuse_at (λ place. Refusal.WrongCount) (miscount (length words.now)) (Ok (count_of words.now)) }
{
    let l = words.len();
    match l {
        // `as`: it fits, which is proved, and the library has no `From` here.
        1..=2048 if l % 4 == 0 => Ok((l / 4) as u32),
        _ => Err(Refusal::WrongCount),
    }
}

// The check of a table: the node count of a table that is in order, or the first refusal in order.
pub fn check(words: &[u32]) -> Result<u32, Refusal>
    ensures { result ≡ check_of words.now }
{
    let count = count(words)?;
    Nodes { words, count }.check()
}
