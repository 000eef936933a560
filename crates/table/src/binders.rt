// The walk that finds a name's binder.
ghost use Rattle.std.specs.Prelude.{◌+◌, ◌*◌, ◌/◌, ◌≤◌, ◌<◌, ◌≡◌, false, eqb, length};
ghost use Rattle.table.specs.Node.{word_at, node_at};
ghost use Rattle.table.specs.Scope.{scope, first_named};
ghost use Rattle.table.specs.Asked.{binder_in};
ghost use Rattle.table.specs.Reading.{node_from, met_as, above_if, binding_if, let_met, met, walked};
ghost use Rattle.table.specs.NodeLaws.{Passed};

use crate::nodes::node_at;

// A node that the walk in search of a binder meets.
#[derive(Clone, Copy)]
enum Met {
    // It is no parent of the current node.
    Elsewhere,
    // It is the parent, and does not bind the name there.
    Above,
    // It is the parent, and binds the name there.
    Binding,
}

// A step of the walk in search of the binder of x: the node at word i, where the walk is in search of the parent of `current`. A walk meets many
// nodes: a field is read only where it decides.
#[derive(Clone, Copy)]
struct Step<'a> {
    words: &'a [u32],
    i: usize,
    x: u32,
    current: u32,
    ghost inside: { i + 4 ≤ length words.now },
}

// Four readers and no number of a field: a rule reads its field by name.
impl Step<'_> {
    fn kind(&self) -> u32
        ensures { let s = self.now in result ≡ word_at s.words.now s.i }
    {
        self.words[self.i]
    }

    fn a(&self) -> u32
        ensures { let s = self.now in result ≡ word_at s.words.now (s.i + 1) }
    {
        self.words[self.i + 1]
    }

    fn b(&self) -> u32
        ensures { let s = self.now in result ≡ word_at s.words.now (s.i + 2) }
    {
        self.words[self.i + 2]
    }

    fn c(&self) -> u32
        ensures { let s = self.now in result ≡ word_at s.words.now (s.i + 3) }
    {
        self.words[self.i + 3]
    }

    // The node is the parent, and a binder there.
    fn named(&self) -> Met
        ensures { let s = self.now in result ≡ met_as (eqb (word_at s.words.now (s.i + 1)) s.x) }
    {
        if self.a() == self.x {
            Met::Binding
        } else {
            Met::Above
        }
    }

    fn in_application(&self) -> Met
        ensures { let s = self.now in let word = word_at s.words.now in result ≡ above_if (eqb (word (s.i + 1)) s.current) (eqb (word (s.i + 2)) s.current) false }
    {
        if self.b() == self.current || self.a() == self.current {
            Met::Above
        } else {
            Met::Elsewhere
        }
    }

    fn in_if(&self) -> Met
        ensures { let s = self.now in let word = word_at s.words.now in result ≡ above_if (eqb (word (s.i + 1)) s.current) (eqb (word (s.i + 2)) s.current) (eqb (word (s.i + 3)) s.current) }
    {
        if self.c() == self.current {
            return Met::Above;
        }
        self.in_application()
    }

    fn in_lambda_or_rec(&self) -> Met
        ensures { let s = self.now in let word = word_at s.words.now in result ≡ binding_if (eqb (word (s.i + 2)) s.current) (eqb (word (s.i + 1)) s.x) }
    {
        if self.b() == self.current {
            return self.named();
        }
        Met::Elsewhere
    }

    // A let binds in its body only.
    fn in_let(&self) -> Met
        ensures { let s = self.now in let word = word_at s.words.now in result ≡ let_met (eqb (word (s.i + 2)) s.current) (eqb (word (s.i + 3)) s.current) (eqb (word (s.i + 1)) s.x) }
    {
        let bound = self.b();
        if bound == self.current {
            return Met::Above;
        }
        let body = self.c();
        if body == self.current {
            return self.named();
        }
        Met::Elsewhere
    }

    #[tactic(auto, using(crate::specs::NodeLaws::met_by_kind))]
    fn meet(&self) -> Met
        ensures { let s = self.now in result ≡ met (node_from s.words.now s.i) s.x s.current }
    {
        match self.kind() {
            5 => self.in_application(),
            6 => self.in_if(),
            7 | 9 => self.in_lambda_or_rec(),
            8 => self.in_let(),
            _ => Met::Elsewhere,
        }
    }

    // Has the node children, and does the current node stand in a field of it? Where not, it is no parent, and most nodes on a walk are passed by
    // this test alone.
    #[tactic(auto, using(crate::specs::NodeLaws::passed_by_test))]
    fn mentions(&self) -> bool
        ensures { let s = self.now in result ≡ false → Passed s.words.now s.i s.current }
    {
        5 <= self.kind()
            && (self.b() == self.current || self.c() == self.current || self.a() == self.current)
    }
}

// One step of the walk in search of the binder of x: the node at word i. Where that is the binder, the walk ends (`None`); else it goes on in
// search of the parent of the node that it answers.
pub fn walk_at(words: &[u32], i: usize, x: u32, current: u32) -> Option<u32>
    requires { (i + 4 ≤ length words.now) × (i / 4 < 4294967296) }
    ensures { result ≡ walked (node_from words.now i) x current (i / 4) }
{
    let step = Step {
        words,
        i,
        x,
        current,
    };
    if !step.mentions() {
        return Some(current);
    }
    match step.meet() {
        Met::Binding => None,
        // `as`, here and below: it fits, which is proved, and the library has no `From` here.
        Met::Above => Some((i / 4) as u32),
        Met::Elsewhere => Some(current),
    }
}

// The binder of the name x at node k.
fn lookup(words: &[u32], x: u32, k: u32) -> Option<u32>
    requires { 4 * k ≤ length words.now }
    ensures { result ≡ first_named (node_at words.now) x (scope (node_at words.now) k) }
{
    let mut current = k;
    // Tried as `for p in (0..k).rev()`, at word 4 * p: inference of 512 typical nodes takes 3.7 % more instructions, and 3 % are allowed.
    let mut i = 4 * (k as usize);
    while 0 < i {
        i -= 4;
        let Some(next) = walk_at(words, i, x, current) else {
            return Some((i / 4) as u32);
        };
        current = next;
    }
    None
}

// The binder of the name at node k.
pub fn binder(words: &[u32], k: u32) -> Option<u32>
    ensures { result ≡ binder_in words.now k }
{
    if words.len() / 4 <= k as usize {
        return None;
    }
    let w = node_at(words, k);
    if w.kind == 4 {
        lookup(words, w.a, k)
    } else {
        None
    }
}
