// Code 2: a node has an unknown kind or a field outside its rule.
ghost use Rattle.std.specs.Prelude.{◌+◌, ◌*◌, ◌≤◌, ◌<◌, ◌≡◌, not, length};
ghost use Rattle.acceptance.specs.Refusals.{fits, is_unused, is_name, is_child, first_from, refuse_at};
ghost use Rattle.acceptance.specs.FieldRules.{first_fits, second_fits, third_fits, field_fits, misfits};

use crate::Refusal;
use crate::nodes::Nodes;

fn is_unused(x: u32) -> bool
    ensures { result ≡ is_unused x }
{
    x == 0
}

fn is_name(x: u32) -> bool
    ensures { result ≡ is_name x }
{
    matches!(x, 0..=65535)
}

// What the fields of node k may hold, by its kind, where there are n nodes.
#[derive(Clone, Copy)]
struct Rule {
    n: u32,
    k: u32,
    kind: u32,
}

impl Rule {
    // The range of a child is known at run time only.
    fn is_child(self, c: u32) -> bool
        ensures { result ≡ is_child self.n self.k c }
    {
        self.k < c && c < self.n
    }

    // Does x keep the rule of field a? An unknown kind has none: it is refused at this field, which is the first.
    #[tactic(auto, using(crate::specs::FieldRules::first_is_name, crate::specs::FieldRules::first_of_unknown), unfolding(crate::specs::FieldRules::first_fits))]
    fn first_fits(self, x: u32) -> bool
        ensures { result ≡ first_fits self.n self.k self.kind x }
    {
        match self.kind {
            0 => is_unused(x),
            1 => matches!(x, 0..=1),
            2 => true,
            3 => matches!(x, 0..=9),
            4 => is_name(x),
            5..=6 => self.is_child(x),
            7..=9 => is_name(x),
            _ => false,
        }
    }

    // The rule of field b, of a known kind.
    fn second_fits(self, x: u32) -> bool
        ensures { result ≡ second_fits self.n self.k self.kind x }
    {
        match self.kind {
            0..=4 => is_unused(x),
            _ => self.is_child(x),
        }
    }

    // The rule of field c, of a known kind.
    fn third_fits(self, x: u32) -> bool
        ensures { result ≡ third_fits self.n self.k self.kind x }
    {
        match self.kind {
            6 | 8 => self.is_child(x),
            _ => is_unused(x),
        }
    }

    // The rule of field f: 0 is a, 1 is b, 2 is c, since the scan of the fields is a loop (docs/DECISIONS.md, "Forms").
    fn field_fits(self, f: usize, x: u32) -> bool
        ensures { result ≡ field_fits self.n self.k self.kind f x }
    {
        match f {
            0 => self.first_fits(x),
            1 => self.second_fits(x),
            _ => self.third_fits(x),
        }
    }
}

impl Nodes<'_> {
    // Is field f of node k outside its rule?
    fn misfits(&self, k: u32, f: usize) -> bool
        requires node { k < self.now.count }
        requires field { f < 3 }
        ensures { result ≡ misfits self.now.words.now self.now.count k f }
    {
        // `as`: the library has no `From` from `u32` to `usize`.
        let i = 4 * (k as usize);
        let rule = Rule {
            n: self.count,
            k,
            kind: self.words[i],
        };
        !rule.field_fits(f, self.words[i + 1 + f])
    }

    // Code 2: the smallest node with an unknown kind or a field outside its rule.
    pub(crate) fn fields(&self) -> Result<u32, Refusal>
        ensures { let n = self.now.count in result ≡ refuse_at Refusal.Misfit (first_from (λ k. not (fits self.now.words.now n k)) n 0) (Ok n) }
    {
        'nodes: {
            for k in 0..self.count {
                for f in 0..3 {
                    if self.misfits(k, f) {
                        break 'nodes Err(Refusal::Misfit(k));
                    }
                }
            }
            Ok(self.count)
        }
    }
}
