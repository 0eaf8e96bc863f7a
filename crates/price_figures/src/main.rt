// Prints figures of the survey, the closing price and the registration, each with its verdict.
#![tactic(auto)]

mod closings;
mod contributions;
mod figures;
mod refused;
mod registrations;

use anyhow::anyhow;
use session::Session;

/// Everything at a tick of 10 and a scarcity price of 30,000.
fn run(rt: &HostRuntime) -> anyhow::Result<()> {
    let session = Session::open(10, 30_000).map_err(|why| anyhow!("refused {}", u8::from(why)))?;
    contributions::show_all(rt, session)?;
    closings::show_all(rt, session)?;
    registrations::show_all(rt, session)
}

fn main(rt: HostRuntime) -> anyhow::Result<()> {
    run(&rt)
}
