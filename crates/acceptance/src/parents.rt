// Code 3: a node other than 0 is not a child exactly once.
ghost use Rattle.std.specs.Prelude.{◌+◌, ◌*◌, ◌≤◌, ◌<◌, ◌≡◌, true, eqb, length};
ghost use Rattle.table.specs.Node.{node_at};
ghost use Rattle.language.specs.Once.{once};
ghost use Rattle.acceptance.specs.Refusals.{times_in, times_below, first_from, refuse_at};
ghost use Rattle.table.specs.Reading.{node_in};
ghost use Rattle.acceptance.specs.Counting.{misplaced_below, children_in, children_below};

use crate::Refusal;
use crate::nodes::Nodes;
use table::NodeWords;

// 1 where field x holds the child k.
fn once(x: u32, k: u32) -> u32
    ensures is { result ≡ once (eqb x k) }
    ensures small { result ≤ 1 }
{
    u32::from(x == k)
}

// In how many fields of a node k stands as a child.
#[tactic(auto, using(crate::specs::CountingLaws::held_by_kind))]
fn times_in(w: NodeWords, k: u32) -> u32
    ensures is { result ≡ times_in (node_in w) k }
    ensures small { result ≤ 3 }
{
    match w.kind {
        5 => once(w.a, k) + once(w.b, k),
        6 => once(w.a, k) + once(w.b, k) + once(w.c, k),
        7 | 9 => once(w.b, k),
        8 => once(w.b, k) + once(w.c, k),
        _ => 0,
    }
}

// How many children fields a node has.
#[tactic(auto, using(crate::specs::CountingLaws::children_by_kind))]
fn children_in(w: NodeWords) -> u32
    ensures is { result ≡ children_in (node_in w) }
    ensures small { result ≤ 3 }
{
    match w.kind {
        5 | 8 => 2,
        6 => 3,
        7 | 9 => 1,
        _ => 0,
    }
}

impl Nodes<'_> {
    #[tactic(auto, unfolding(table::specs::Node::node_at))]
    fn times_at(&self, p: u32, k: u32) -> u32
        requires { p < self.now.count }
        ensures is { result ≡ times_in (node_at self.now.words.now p) k }
        ensures small { result ≤ 3 }
    {
        times_in(self.node(p), k)
    }

    // Code 3: the smallest node other than 0 that is not a child exactly once.
    fn parents(&self) -> Result<u32, Refusal>
        ensures { let n = self.now.count in result ≡ refuse_at Refusal.Misplaced (first_from (misplaced_below (node_at self.now.words.now)) n 0) (Ok n) }
    {
        'nodes: {
            for k in 1..self.count {
                let mut times = 0;
                for p in 0..k {
                    times += self.times_at(p, k);
                    if 1 < times {
                        break 'nodes Err(Refusal::Misplaced(k));
                    }
                }
                if times == 0 {
                    break 'nodes Err(Refusal::Misplaced(k));
                }
            }
            Ok(self.count)
        }
    }

    #[tactic(auto, unfolding(table::specs::Node::node_at))]
    fn children_at(&self, p: u32) -> u32
        requires { p < self.now.count }
        ensures is { result ≡ children_in (node_at self.now.words.now p) }
        ensures small { result ≤ 3 }
    {
        children_in(self.node(p))
    }

    #[tactic(auto, using(crate::specs::Placed::no_children_yet, crate::specs::Placed::children_next))]
    fn children(&self) -> u32
        ensures is { result ≡ children_below (node_at self.now.words.now) self.now.count }
        ensures small { result ≤ 3 * self.now.count }
    {
        let mut count = 0;
        for p in 0..self.count {
            count += self.children_at(p);
        }
        count
    }

    // Is node k a child of a node below it? The nearest are asked first.
    fn has_parent(&self, k: u32) -> bool
        requires { k ≤ self.now.count }
        ensures { result ≡ true → 1 ≤ times_below (node_at self.now.words.now) k k }
    {
        for p in (0..k).rev() {
            if 0 < self.times_at(p, k) {
                return true;
            }
        }
        false
    }

    // Where each node but 0 is a child, and there are no more children than these, each is a child exactly once. That is found without a scan of
    // all nodes for each.
    fn placed(&self) -> bool
        ensures { result ≡ true → first_from (misplaced_below (node_at self.now.words.now)) self.now.count 0 ≡ None }
    {
        if self.children() + 1 != self.count {
            return false;
        }
        for k in 1..self.count {
            if !self.has_parent(k) {
                return false;
            }
        }
        true
    }

    // Code 3, by scans only where a node is misplaced.
    pub(crate) fn rooted(&self) -> Result<u32, Refusal>
        ensures { let n = self.now.count in result ≡ refuse_at Refusal.Misplaced (first_from (misplaced_below (node_at self.now.words.now)) n 0) (Ok n) }
    {
        if self.placed() {
            return Ok(self.count);
        }
        self.parents()
    }
}
