// The call `infer`: the most general type of a formula, by type cells in a lent slice.
#![tactic(auto)]

mod rules;

ghost use Rattle.std.specs.Prelude.{◌≡◌, Ok};
ghost use Rattle.lent.specs.Cleared.{zeros};
ghost use Rattle.table.specs.Node.{node_at};
ghost use Rattle.acceptance.specs.Refusals.{check_of};
ghost use Rattle.table.specs.ExpressionOf.{exp_at};
ghost use Rattle.inference.specs.TableCells.{TreeRoom, WorkRoom};
ghost use Rattle.inference.specs.Inference.{untyped_code, untyped_place, work_for, leaves, Infers};
ghost use Rattle.inference.specs.OfFormula.{TypesFound, FormulaInfers};
ghost use Rattle.inference.specs.declared.Untyped.TheVariants.{Refused, NoType};

use acceptance::Refusal;
use cells::Clash;

// Why a table's formula is given no type: the first refusal in order.
#[derive(Clone, Copy, Debug, PartialEq, Eq)]
pub enum Untyped {
    // 1 to 4: the check refuses the table.
    Refused(Refusal),
    // 5: the work slice is shorter than 24 × nodes + 16 words.
    WorkTooShort,
    // 6: no typing exists.
    NoType,
    // 7: the type has more words than the out slice.
    OutTooShort,
}

impl Untyped {
    // Its number, 1 to 7.
    pub fn code(self) -> u32
        ensures { result ≡ untyped_code self }
    {
        match self {
            Untyped::Refused(refusal) => refusal.code(),
            Untyped::WorkTooShort => 5,
            Untyped::NoType => 6,
            Untyped::OutTooShort => 7,
        }
    }

    // The node at fault; 0 where no node is.
    pub fn place(self) -> u32
        ensures { result ≡ untyped_place self }
    {
        match self {
            Untyped::Refused(refusal) => refusal.place(),
            Untyped::WorkTooShort | Untyped::NoType | Untyped::OutTooShort => 0,
        }
    }
}

impl From<Refusal> for Untyped {
    ghost from_gives = { λ refusal e. e ≡ Refused refusal };

    fn from(refusal: Refusal) -> Untyped {
        Untyped::Refused(refusal)
    }
}

// Equations that clash have no solution.
impl From<Clash> for Untyped {
    ghost from_gives = { λ _ e. e ≡ NoType };

    fn from(_clash: Clash) -> Untyped {
        Untyped::NoType
    }
}

// n beside the words, here and below: the check has counted them.

// Gives the cells of a tree of n nodes their most general types, if there are any. Cell 4 is the root's.
fn types(words: &[u32], n: u32, cells: &mut [u32]) -> Result<(), Untyped>
    requires { TreeRoom words.now n cells.old }
    ensures { TypesFound (exp_at (node_at words.now) n 0) cells.new result }
{
    cells::start(cells);
    rules::nodes(words, cells, n)?;
    if cells::grounded(cells) {
        Ok(())
    } else {
        Err(Untyped::NoType)
    }
}

// The word count of the type of a tree of n nodes, with cells for it.
fn principal(words: &[u32], n: u32, cells: &mut [u32], out: &mut [u32]) -> Result<usize, Untyped>
    requires { TreeRoom words.now n cells.old }
    ensures { FormulaInfers (exp_at (node_at words.now) n 0) out.old result out.new }
{
    types(words, n, cells)?;
    cells::write_type(cells, 4, out).ok_or(Untyped::OutTooShort)
}

// The same with as many words of work as there must be, which are then cleared. Five of them are used for each cell.
fn with_work(words: &[u32], n: u32, work: &mut [u32], out: &mut [u32]) -> Result<usize, Untyped>
    requires { WorkRoom words.now n work.old }
    ensures answered { FormulaInfers (exp_at (node_at words.now) n 0) out.old result out.new }
    ensures zeroed { work.new ≡ zeros (work_for n) }
{
    // `as`, here and below: the library has no `From` from `u32` to `usize`.
    let cells = 5 * (2 * (n as usize) + 4);
    let inferred = principal(words, n, &mut work[..cells], out);
    lent::clear(work);
    inferred
}

// The answer for a checked table of n nodes: `WorkTooShort`, or that of its tree.
fn accepted(words: &[u32], n: u32, work: &mut [u32], out: &mut [u32]) -> Result<usize, Untyped>
    requires { check_of words.now ≡ Ok n }
    ensures { Infers words.now work.old out.old (leaves result work.new out.new) }
{
    let size = 24 * (n as usize) + 16;
    if work.len() < size {
        return Err(Untyped::WorkTooShort);
    }
    with_work(words, n, &mut work[..size], out)
}

// The inference of a table: the word count of its most general type, which is then written at the beginning of `out`, or why there is none.
// Codes 1 to 5 change no lent word; otherwise the first 24 × nodes + 16 words of `work` are zero afterwards. `out` is written
// where there is a type that fits, and no word after the type.
pub fn infer(words: &[u32], work: &mut [u32], out: &mut [u32]) -> Result<usize, Untyped>
    ensures { Infers words.now work.old out.old (leaves result work.new out.new) }
{
    let n = acceptance::check(words)?;
    accepted(words, n, work, out)
}
