// Reads a note on standard input and prints what it says, or why it is refused.
#![tactic(auto)]

mod reports;
#[cfg(test)]
mod tests;

use note::DECISIVE_LEN;
use reports::report;
use std::io::Read;

/// The input as far as it decides the answer.
// Each program moves its own bytes: a crate for so few lines would be one more to read.
fn input(rt: &HostRuntime) -> anyhow::Result<Vec<u8>> {
    let mut bytes = Vec::new(rt.alloc());
    rt.stdin()
        .take(DECISIVE_LEN as u64)
        .read_to_end(&mut bytes)?;
    Ok(bytes)
}

fn run(rt: &HostRuntime) -> anyhow::Result<()> {
    let bytes = input(rt)?;
    rt.print(report(rt.alloc(), bytes.as_slice())?)?;
    Ok(())
}

fn main(rt: HostRuntime) -> anyhow::Result<()> {
    run(&rt)
}
