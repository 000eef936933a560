// The two entries for a host: tables and types as bytes, words little-endian, and one number of 64 bits for each answer. `host_c` gives them
// their names in C.
#![tactic(auto)]

ghost use Rattle.std.specs.Prelude.{◌/◌, min, ◌≡◌, length};
ghost use Rattle.host.specs.Entries.{packed, InfersTo, InfersOn, InferEntry, RunsTo, RunEntry};
ghost use Rattle.host.specs.Rooms.{wrong_length, OutRoom};
ghost use Rattle.host.specs.TableWords.{TableRead};
ghost use Rattle.host.specs.TypeBytes.{TypeRoom, Told};

use inference::Untyped;

// A code in the low 8 bits, a place or payload in the high 32.
fn pack(code: u32, payload: u32) -> u64
    ensures { result ≡ packed code payload }
{
    u64::from(code) + 4294967296 * u64::from(payload)
}

// Is a table of so many bytes code 1? The check refuses more than 2,048 words, so they need not be read.
fn wrong_length(bytes: usize) -> bool
    ensures { result ≡ wrong_length bytes }
{
    bytes % 16 != 0 || 8192 < bytes
}

// The words of a table come to the beginning of `words`, and their count is answered: none if the length is wrong, which is code 1 as well.
fn read_table(table: &[u8], words: &mut [u32]) -> usize
    requires { length words.old ≡ 2048 }
    ensures { TableRead table.now words.new result }
{
    if wrong_length(table.len()) {
        return 0;
    }
    lent::read_words(table, words);
    table.len() / 4
}

// ---- The inference entry

// The number of an inference, and the bytes of its type.
fn tell(inferred: Result<usize, Untyped>, types: &[u32], out: &mut [u8]) -> u64
    requires { TypeRoom inferred types.now out.old }
    ensures { Told inferred types.now out.old out.new result }
{
    match inferred {
        Ok(count) => {
            lent::write_bytes(&types[..count], out);
            // `as`: it fits, which is proved, and the library has no `From` here.
            pack(0, count as u32)
        }
        Err(untyped) => pack(untyped.code(), untyped.place()),
    }
}

// The inference of a table's words in the slices that are lent.
fn infer_on(words: &[u32], work: &mut [u32], types: &mut [u32], out: &mut [u8]) -> u64
    requires { OutRoom types.old out.old }
    ensures { InfersTo words.now work.old types.old out.old out.new result }
{
    let inferred = inference::infer(words, work, types);
    tell(inferred, types, out)
}

// The same in slices of its own: work for 512 nodes, and as many words of a type as `out` has, 1,024 at most.
fn infer_words(words: &[u32], out: &mut [u8]) -> u64
    ensures { InfersOn words.now out.old out.new result }
{
    let mut work = [0u32; 12304];
    let mut types = [0u32; 1024];
    let room = (out.len() / 4).min(1024);
    infer_on(words, &mut work, &mut types[..room], out)
}

// The inference of a table: its code with its place, and on code 0 the type's words at the beginning of `out`. No other byte changes.
pub fn iltgovruz_infer(table: &[u8], out: &mut [u8]) -> u64
    ensures { InferEntry table.now out.old out.new result }
{
    let mut words = [0u32; 2048];
    let n = read_table(table, &mut words);
    infer_words(&words[..n], out)
}

// ---- The run entry

// The run of a table's words on stores of its own, of 512 cells each.
fn run_words(words: &[u32], fuel: u32) -> u64
    ensures { RunsTo words.now fuel result }
{
    let mut bindings = [0u32; 4096];
    let mut frames = [0u32; 4096];
    let ran = machine::run(words, fuel, &mut bindings, &mut frames);
    let answer = ran.answer;
    pack(answer.code(), answer.payload())
}

// The run of a table: its code with its payload.
pub fn iltgovruz_run(table: &[u8], fuel: u32) -> u64
    ensures { RunEntry table.now fuel result }
{
    let mut words = [0u32; 2048];
    let n = read_table(table, &mut words);
    run_words(&words[..n], fuel)
}
