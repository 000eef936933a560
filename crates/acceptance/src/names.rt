// Code 4: a name has no binder.
ghost use Rattle.std.specs.Prelude.{◌≡◌};
ghost use Rattle.table.specs.Node.{node_at};
ghost use Rattle.acceptance.specs.Refusals.{unbound, first_from, refuse_at};

use crate::Refusal;
use crate::nodes::Nodes;

impl Nodes<'_> {
    // Code 4: the smallest name from which the walk comes to no binder.
    pub(crate) fn names(&self) -> Result<u32, Refusal>
        ensures { let n = self.now.count in result ≡ refuse_at Refusal.Unbound (first_from (unbound (node_at self.now.words.now)) n 0) (Ok n) }
    {
        // The walk is not left to `table::binder`: the form of the check is an inner scan that is left by a label with the first place
        // (docs/DECISIONS.md, "Forms").
        'nodes: {
            for k in 0..self.count {
                let w = self.node(k);
                if w.kind != 4 {
                    continue;
                }
                let mut current = k;
                // Tried as `for p in (0..k).rev()`, at word 4 * p: a check of 512 nodes takes 19 % more instructions, and 3 % are allowed.
                // `as`: the library has no `From` from `u32` to `usize`.
                let mut i = 4 * (k as usize);
                loop {
                    if i == 0 {
                        break 'nodes Err(Refusal::Unbound(k));
                    }
                    i -= 4;
                    let Some(next) = table::walk_at(self.words, i, w.a, current) else {
                        break;
                    };
                    current = next;
                }
            }
            Ok(self.count)
        }
    }
}
