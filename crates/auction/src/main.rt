// Plays an order feed on standard input, and prints the answer to each line.
#![tactic(auto)]

mod reports;
#[cfg(test)]
mod tests;

use reports::{MAX_FEED, report};
use std::io::Read;

/// The feed; of one that is too long, one byte too many.
// Each program moves its own bytes: a crate for so few lines would be one more to read.
fn input(rt: &HostRuntime) -> anyhow::Result<Vec<u8>> {
    let mut bytes = Vec::new(rt.alloc());
    rt.stdin()
        .take(MAX_FEED as u64 + 1)
        .read_to_end(&mut bytes)?;
    Ok(bytes)
}

fn run(rt: &HostRuntime) -> anyhow::Result<()> {
    let feed = input(rt)?;
    rt.print(report(rt.alloc(), &feed)?)?;
    Ok(())
}

fn main(rt: HostRuntime) -> anyhow::Result<()> {
    run(&rt)
}
