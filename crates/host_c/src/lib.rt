// The two entries for a host in C, under their names there: each is that of `host`.
#![tactic(auto)]

ghost use Rattle.host.specs.Entries.{InferEntry, RunEntry};

// The inference of a table: its code with its place, and on code 0 the type's words at the beginning of `out`. No other byte changes.
#[unsafe(no_mangle)]
pub extern "C" fn iltgovruz_infer(table: &[u8], out: &mut [u8]) -> u64
    ensures { InferEntry table.now out.old out.new result }
{
    host::iltgovruz_infer(table, out)
}

// The run of a table: its code with its payload.
#[unsafe(no_mangle)]
pub extern "C" fn iltgovruz_run(table: &[u8], fuel: u32) -> u64
    ensures { RunEntry table.now fuel result }
{
    host::iltgovruz_run(table, fuel)
}
