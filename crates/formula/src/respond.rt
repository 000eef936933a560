// The text that answers an input.
ghost use Rattle.std.specs.Prelude.{◌≡◌, length};
ghost use Rattle.decimal.specs.Scan.{words_at};
ghost use Rattle.decimal.specs.State.{state};
ghost use Rattle.formula.specs.Responding.{Responds};
ghost use Rattle.formula.specs.ProgramLaws.{Blank, TypeLineIn, RunLineIn, TwoLinesIn, LinesFor};

use crate::lines;
use decimal::{Scan, Scanner, Text};

// The line of a table's inference.
fn type_line(words: &[u32], text: &mut Text)
    ensures { TypeLineIn words.now text.old text.new }
{
    let mut work = [0; 12304];
    let mut out = [0; 64];
    let inferred = inference::infer(words, &mut work, &mut out);
    lines::type_line(inferred, &out, text);
}

// The line of a table's run.
fn run_line(words: &[u32], text: &mut Text)
    ensures { RunLineIn words.now text.old text.new }
{
    let mut bindings = [0; 4096];
    let mut frames = [0; 4096];
    let ran = machine::run(words, 100000, &mut bindings, &mut frames);
    lines::run_line(ran, text);
}

// Both lines, which always fit.
fn two_lines(words: &[u32], text: &mut Text)
    requires { Blank text.old }
    ensures { TwoLinesIn words.now text.new }
{
    type_line(words, text);
    run_line(words, text);
}

// The lines for an input at whose end the scan stands there: those of its table, or the one line `input` if it has no words.
fn lines_for(scan: &Scan, text: &mut Text)
    requires { Blank text.old }
    ensures { LinesFor (words_at (state scan.now)) text.new }
{
    match scan.at {
        Scanner::Failed => text.bytes(b"input\n"),
        Scanner::Between(count) | Scanner::Inside { count, .. } => two_lines(
            &scan.words[..count.min(scan.words.len())],
            text,
        ),
    }
}

// The text for an input whose scan stands there.
pub(crate) fn respond<'a>(scan: &mut Scan, lent: &'a mut [u8]) -> Text<'a>
    requires { length lent.old ≡ 1024 }
    ensures { Responds (state scan.old) result.lent.now result.at }
{
    scan.end();
    let mut text = Text { lent, at: 0 };
    lines_for(scan, &mut text);
    text
}
