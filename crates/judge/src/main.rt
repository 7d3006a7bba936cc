#![tactic(auto)]

// Reads judgements from standard input, a line each, and prints the answer to each line.

use judging::answers;
use std::io::Read;

// `shelfday` has the same few steps around another function: one function over both would need a crate and a bound on the runtime for them.
fn main(rt: HostRuntime) -> anyhow::Result<()> {
    let heap = rt.alloc();
    let mut input = Vec::new(heap);
    rt.stdin().read_to_end(&mut input)?;
    print!(rt; "{}", answers(heap, &input)?)?;
    Ok(())
}
