// Makes the trials on its standard input until that ends, and writes a line for each. A trial is numbers of 4 bytes, little-endian:
// which call (0 check, 1 run, 2 infer), three numbers for it, the word count of the table, and its words. Any other call, more than
// 2,100 words, a lent slice above 33,000 words, or an end within a trial, end the program.
#![tactic(auto)]

mod calls;
mod stores;

ghost use Rattle.std.specs.Prelude.{◌≤◌, length};

use calls::Call;
use std::io::Read;

// Reads a trial's table into the slice that it fills.
fn read_table<R: Read>(from: &mut R, words: &mut [u32]) -> Option<()>
    requires { length words.old ≤ 2100 }
{
    let mut bytes = [0u8; 8400];
    let table = &mut bytes[..4 * words.len()];
    from.read_exact(table).ok()?;
    lent::read_words(table, words);
    Some(())
}

// Reads and makes one trial, or tells that none can be made.
fn one_trial<R: Read, P: Print>(from: &mut R, to: &P) -> Option<()> {
    let mut head = [0u8; 20];
    from.read_exact(&mut head).ok()?;
    let mut numbers = [0u32; 5];
    lent::read_words(&head, &mut numbers);
    let [which, first, second, third, count] = numbers;
    if 2100 < count {
        return None;
    }
    let mut words = [0u32; 2100];
    // `as`: the library has no `From` from `u32` to `usize`.
    let table = &mut words[..count as usize];
    read_table(from, table)?;
    Call::of(which, first, second, third)?.make(to, table)
}

// A proved loop has to end, and nothing says that the input does: it makes more turns than any input has trials.
fn main(rt: HostRuntime) {
    let mut input = rt.stdin();
    for _ in 0..u64::MAX {
        if one_trial(&mut input, &rt).is_none() {
            break;
        }
    }
}
