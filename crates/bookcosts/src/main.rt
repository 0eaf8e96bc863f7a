// Does one operation of a book a thousand times, so that its instructions can be counted from outside.
#![tactic(auto)]

mod works;

use anyhow::Context;
use ladder::Ladder;
use std::alloc::{AllocError, Global};
use std::env;
use table::Table;
use trials::Make;
use works::work_by_name;

/// The most places of a book.
const PLACES: usize = 256;

/// What an operation on a fresh book of a make comes to.
fn sum_on<B: Make>(heap: Global, operation: &str, orders: u32) -> Result<u32, AllocError> {
    Ok(work_by_name(&mut B::fresh(heap, PLACES)?, operation, orders))
}

/// The words of the command line: the make, the operation and the live orders.
fn run(rt: &HostRuntime) -> anyhow::Result<()> {
    let mut words = env::args(rt)?.skip(1);
    let make = words.next().context("no make")?;
    let operation = words.next().context("no operation")?;
    let orders = words.next().context("no count")?.parse::<u32>()?;
    let sum = if make.as_str() == "table" {
        sum_on::<Table>(rt.alloc(), operation.as_str(), orders)?
    } else {
        sum_on::<Ladder>(rt.alloc(), operation.as_str(), orders)?
    };
    println!(rt; "{sum}")?;
    Ok(())
}

fn main(rt: HostRuntime) -> anyhow::Result<()> {
    run(&rt)
}
