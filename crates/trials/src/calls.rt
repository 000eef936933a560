// The three calls, each with its line.
use crate::stores::{fill, sum};

// A call with what it is lent beside the table: fuel, and lengths of slices.
#[derive(Clone, Copy)]
pub(crate) enum Call {
    Check,
    Run {
        fuel: u32,
        bindings: usize,
        frames: usize,
    },
    Infer {
        work: usize,
        out: usize,
    },
}

// Code and place, where the place of acceptance is the node count.
fn check<P: Print>(to: &P, words: &[u32]) {
    let (code, place) = match acceptance::check(words) {
        Ok(n) => (0, n),
        Err(refusal) => (refusal.code(), refusal.place()),
    };
    let _ = println!(to; "{code} {place}");
}

// Makes a call that is lent two slices of these lengths and writes the beginning of its line, and writes the sums of both afterwards.
fn with_slices<P: Print, F: FnOnce(&mut [u32], &mut [u32])>(
    to: &P,
    first: usize,
    second: usize,
    call: F,
) -> Option<()>
    requires { F.IsAlwaysCallable call }
{
    if 33000 < first || 33000 < second {
        return None;
    }
    let mut first_room = [0u32; 33000];
    let mut second_room = [0u32; 33000];
    let first = &mut first_room[..first];
    let second = &mut second_room[..second];
    fill(first, 1);
    fill(second, 2);
    call(first, second);
    let (first, second) = (sum(first), sum(second));
    let _ = println!(to; " {first} {second}");
    Some(())
}

// Code, payload, steps, bindings, and the sums of both stores afterwards.
fn run<P: Print>(to: &P, words: &[u32], fuel: u32, bindings: usize, frames: usize) -> Option<()> {
    with_slices(to, bindings, frames, |bindings, frames| {
        let ran = machine::run(words, fuel, bindings, frames);
        let (code, payload) = (ran.answer.code(), ran.answer.payload());
        let (steps, made) = (ran.steps, ran.bindings);
        let _ = print!(to; "{code} {payload} {steps} {made}");
    })
}

// Code and place, and the sums of work and out afterwards.
fn infer<P: Print>(to: &P, words: &[u32], work: usize, out: usize) -> Option<()> {
    with_slices(to, work, out, |work, out| {
        let (code, place) = match inference::infer(words, work, out) {
            // `as`, here and below: the library has no `From` between `usize` and the others.
            Ok(count) => (0, count as u64),
            Err(untyped) => (untyped.code(), u64::from(untyped.place())),
        };
        let _ = print!(to; "{code} {place}");
    })
}

impl Call {
    // Which call, and three numbers for it.
    pub(crate) fn of(which: u32, first: u32, second: u32, third: u32) -> Option<Call> {
        match which {
            0 => Some(Call::Check),
            1 => Some(Call::Run {
                fuel: first,
                bindings: second as usize,
                frames: third as usize,
            }),
            2 => Some(Call::Infer {
                work: first as usize,
                out: second as usize,
            }),
            _ => None,
        }
    }

    // Makes the call and writes its line, or tells that a slice that it is to be lent would be too long.
    pub(crate) fn make<P: Print>(self, to: &P, words: &[u32]) -> Option<()> {
        match self {
            Call::Check => {
                check(to, words);
                Some(())
            }
            Call::Run {
                fuel,
                bindings,
                frames,
            } => run(to, words, fuel, bindings, frames),
            Call::Infer { work, out } => infer(to, words, work, out),
        }
    }
}
