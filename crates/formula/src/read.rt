// The input, piece by piece, until its end, or until its scan has failed: no further byte would change that.
//
// Whatever a read answers and leaves in the piece, the contracts say what becomes of it. That a read gives the next bytes of the input, and
// 0 only at its end, is left to the system. No contract says that a read was made: that what is handed on as a read's answer and piece is
// one, rests on the first line of `read_piece`, and on that `read_input` makes no answer of its own.
ghost use Rattle.std.specs.Prelude.{◌≤◌, ◌≡◌, [], length, IfSome};
ghost use Rattle.std.specs.Result.{result_ok};
ghost use Rattle.decimal.specs.State.{state};
ghost use Rattle.formula.specs.Reading.{input_scanned};
ghost use Rattle.formula.specs.Turns.{after_read, reads_on, PieceRead, InputRead};

use decimal::{Scan, Scanner};
use std::io;
use std::io::Read;

// Whether there is a further read, after one that gave so many bytes, or failed: some bytes came, and the scan has not failed.
fn reads_on(got: Option<usize>, scan: &Scan) -> bool
    ensures { result ≡ reads_on got scan.now.at }
{
    !matches!(got, None | Some(0)) && !matches!(scan.at, Scanner::Failed)
}

// What a read says: how many bytes came, or none if it failed.
fn answer(read: io::Result<usize>) -> Option<usize>
    ensures { result ≡ result_ok read }
{
    read.ok()
}

// The scan takes in what came. A read that failed leaves the input without an end, and such an input has no words.
fn take_in(got: Option<usize>, piece: &[u8], scan: &mut Scan)
    requires { IfSome got (λ n. n ≤ length piece.now) }
    ensures { state scan.new ≡ after_read (state scan.old) got piece.now }
{
    match got {
        Some(n) => scan.feed(&piece[..n]),
        None => scan.at = Scanner::Failed,
    }
}

// Reads once. A read into a piece without bytes would answer 0 before the input's end.
fn read_piece<R: Read>(input: &mut R, piece: &mut [u8], scan: &mut Scan) -> Option<usize>
    requires { 1 ≤ length piece.old }
    ensures { PieceRead (state scan.old) piece.new result (state scan.new) }
{
    let got = answer(input.read(piece));
    take_in(got, piece, scan);
    got
}

// All reads, and how many bytes the last of them gave. A proved loop has to end, and nothing says that the input does: this one has more
// turns than a run can take.
pub(crate) fn read_input<R: Read>(input: &mut R, piece: &mut [u8], scan: &mut Scan) -> Option<usize>
    requires { (1 ≤ length piece.old) × (state scan.old ≡ input_scanned []) }
    ensures { InputRead result (state scan.new) }
{
    let mut got = read_piece(input, piece, scan);
    for _ in 0..u64::MAX {
        if !reads_on(got, scan) {
            break;
        }
        got = read_piece(input, piece, scan);
    }
    got
}
