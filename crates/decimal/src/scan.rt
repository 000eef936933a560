// The scan of an input, byte by byte.
ghost use Rattle.std.specs.Prelude.{◌≡◌, ◌&&◌, cond, ltb};
ghost use mathlib.Core.List.{foldl};
ghost use Rattle.decimal.specs.Input.{is_space, is_digit, with_digit, word_limit};
ghost use Rattle.decimal.specs.Scan.{with_word, in_token, other_read, scan_byte, finish};
ghost use Rattle.decimal.specs.State.{state};

use crate::Scanner;

// The words that are read stand at the beginning of a lent slice; one more than it has is a failure. A slice and a count, and no Vec: there
// is no heap.
#[derive(Drop)]
pub struct Scan<'a> {
    pub words: &'a mut [u32],
    pub at: Scanner,
}

// Not the library's `is_ascii_whitespace`: that takes the form feed too.
fn is_space(b: u8) -> bool
    ensures { result ≡ is_space b }
{
    matches!(b, b'\t' | b'\n' | b'\r' | b' ')
}

// A number with one more digit behind it, if the byte is a digit and the number is a word.
fn with_digit(value: u32, b: u8) -> Option<u32>
    ensures { result ≡ cond (is_digit b && ltb (with_digit value b) word_limit) (Some (with_digit value b)) None }
{
    match b {
        b'0'..=b'9' => u32::try_from(u64::from(value) * 10 + u64::from(b - b'0')).ok(),
        _ => None,
    }
}

// One more byte of a token whose value so far is that.
fn in_token(count: usize, value: u32, b: u8) -> Scanner
    ensures { result ≡ in_token count value b }
{
    match with_digit(value, b) {
        Some(value) => Scanner::Inside { count, value },
        None => Scanner::Failed,
    }
}

// Any byte but white space.
fn other(s: Scanner, b: u8) -> Scanner
    ensures { result ≡ other_read s b }
{
    match s {
        Scanner::Failed => Scanner::Failed,
        Scanner::Between(count) => in_token(count, 0, b),
        Scanner::Inside { count, value } => in_token(count, value, b),
    }
}

impl Scan<'_> {
    // One more word.
    fn word(&mut self, count: usize, value: u32)
        ensures same { self.new.words.ghost_name ≡ self.old.words.ghost_name }
        ensures leads { state self.new ≡ with_word count value self.old.words.now }
    {
        if self.words.len() <= count {
            self.at = Scanner::Failed;
            return;
        }
        self.words[count] = value;
        self.at = Scanner::Between(count + 1);
    }

    // The end of the input, which ends the token under way as white space does. The words of the whole input are then as many as the scanner
    // counts, or there are none.
    pub fn end(&mut self)
        ensures same { self.new.words.ghost_name ≡ self.old.words.ghost_name }
        ensures leads { state self.new ≡ finish (state self.old) }
    {
        if let Scanner::Inside { count, value } = self.at {
            self.word(count, value);
        }
    }

    // One more byte of the input.
    #[tactic(auto, unfolding(crate::specs::Scan::scan_byte))]
    fn step(&mut self, b: u8)
        ensures same { self.new.words.ghost_name ≡ self.old.words.ghost_name }
        ensures leads { state self.new ≡ scan_byte (state self.old) b }
    {
        if is_space(b) {
            self.end();
        } else {
            self.at = other(self.at, b);
        }
    }

    // More bytes of the input.
    pub fn feed(&mut self, piece: &[u8])
        ensures same { self.new.words.ghost_name ≡ self.old.words.ghost_name }
        ensures leads { state self.new ≡ foldl scan_byte (state self.old) piece.now }
    {
        // A local, whose parts stay in registers: on `self` the program takes up to 10 % more instructions.
        let mut scan = Scan {
            words: self.words,
            at: self.at,
        };
        for b in piece {
            scan.step(*b);
        }
        self.at = scan.at;
    }
}
