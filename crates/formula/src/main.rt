// Reads the words of a formula's table from standard input, until its end or until what was read has no words however it goes on, and
// prints the answers of inference and run.
#![tactic(auto)]

mod lines;
mod read;
mod respond;

ghost use Rattle.formula.specs.Responding.{AnswersInput};

use decimal::{Scan, Scanner, Text};

// Prints a text, which answers an input whose last read answered that. Where it cannot be written, the one line `output` on standard error
// says so: the program has nothing else to tell it by. That a write writes what it is lent is left to the system.
fn print<R: Print + Eprint>(rt: &R, got: Option<usize>, text: &Text)
    requires { AnswersInput got text.now.lent.now text.now.at }
{
    if rt.write_all(&text.lent[..text.at]).is_err() {
        let _ = rt.eprintln("output");
    }
}

fn main(rt: HostRuntime) {
    let mut piece = [0u8; 4096];
    let mut words = [0u32; 2048];
    let mut lent = [0u8; 1024];
    let mut scan = Scan {
        words: &mut words,
        at: Scanner::Between(0),
    };
    let got = read::read_input(&mut rt.stdin(), &mut piece, &mut scan);
    let text = respond::respond(&mut scan, &mut lent);
    print(&rt, got, &text);
}
