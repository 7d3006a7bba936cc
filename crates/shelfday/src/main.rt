#![tactic(auto)]

// Reads shelves and calls from standard input, a line each, and prints the answers.

use shelf_days::day;
use std::io::Read;

// `judge` has the same few steps around another function: one function over both would need a crate and a bound on the runtime for them.
fn main(rt: HostRuntime) -> anyhow::Result<()> {
    let heap = rt.alloc();
    let mut input = Vec::new(heap);
    rt.stdin().read_to_end(&mut input)?;
    print!(rt; "{}", day(heap, &input)?)?;
    Ok(())
}
