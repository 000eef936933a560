// The words of a node. They are cut where they are read, and not by `as_chunks`: `read` answers for a part of a node too.
ghost use Rattle.std.specs.Prelude.{◌+◌, ◌*◌, ◌≤◌, ◌≡◌, length};
ghost use Rattle.table.specs.Node.{word_at};
ghost use Rattle.table.specs.Asked.{words_at};

use crate::NodeWords;

// The words of a node that is there.
pub fn node_at(words: &[u32], k: u32) -> NodeWords
    requires { 4 * k + 4 ≤ length words.now }
    ensures { result ≡ words_at words.now k }
{
    // `as`, here and below: the library has no `From` from `u32` to `usize`.
    let i = 4 * (k as usize);
    NodeWords {
        kind: words[i],
        a: words[i + 1],
        b: words[i + 2],
        c: words[i + 3],
    }
}

fn word_or_zero(words: &[u32], i: usize) -> u32
    ensures { result ≡ word_at words.now i }
{
    words.get(i).copied().unwrap_or(0)
}

// The words of node k of any table; a word past the end is 0.
pub fn read(words: &[u32], k: u32) -> NodeWords
    ensures { result ≡ words_at words.now k }
{
    let i = 4 * (k as usize);
    if i + 4 <= words.len() {
        return node_at(words, k);
    }
    NodeWords {
        kind: word_or_zero(words, i),
        a: word_or_zero(words, i + 1),
        b: word_or_zero(words, i + 2),
        c: word_or_zero(words, i + 3),
    }
}
