// Numbers in decimal: an input is scanned into words, and numbers are written into a text.
#![tactic(auto)]

mod scan;
mod text;

pub use scan::Scan;
pub use text::Text;

// Where a scan stands. A failed scan is a state as the others, which the calls take too: no caller has to ask before it goes on.
#[derive(Clone, Copy, Debug, PartialEq, Eq)]
pub enum Scanner {
    // A token was no number, or a word was one too many.
    Failed,
    // So many words are read, and no token is under way.
    Between(usize),
    // So many words are read, and the token under way has that value so far.
    Inside { count: usize, value: u32 },
}
