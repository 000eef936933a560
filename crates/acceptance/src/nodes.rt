// The nodes of a table whose word count is right, and their check.
ghost use Rattle.std.specs.Prelude.{◌*◌, ◌≤◌, ◌<◌, ◌≡◌, length};
ghost use Rattle.table.specs.Node.{node_at};
ghost use Rattle.table.specs.Asked.{words_at};
ghost use Rattle.acceptance.specs.Refusals.{check_nodes};
ghost use Rattle.acceptance.specs.Stages.{check_tree};

use crate::Refusal;
use table::NodeWords;

// The count is a `u32`, as loops and refusals use it; read off the length it would be a conversion in each method.
#[derive(Clone, Copy)]
pub(crate) struct Nodes<'a> {
    pub(crate) words: &'a [u32],
    pub(crate) count: u32,
    ghost some: { 0 < count },
    ghost few: { count ≤ 512 },
    ghost inside: { 4 * count ≤ length words.now },
}

impl Nodes<'_> {
    pub(crate) fn node(&self, k: u32) -> NodeWords
        requires { k < self.now.count }
        ensures { result ≡ words_at self.now.words.now k }
    {
        table::node_at(self.words, k)
    }

    // The node count of nodes that keep the rules of their kinds, or `Misplaced` or `Unbound`.
    fn check_tree(&self) -> Result<u32, Refusal>
        ensures { result ≡ check_tree self.now.words.now self.now.count }
    {
        self.rooted()?;
        self.names()
    }

    // The node count, or any refusal of a node.
    pub(crate) fn check(&self) -> Result<u32, Refusal>
        ensures { result ≡ check_nodes self.now.words.now (node_at self.now.words.now) self.now.count }
    {
        self.fields()?;
        self.check_tree()
    }
}
