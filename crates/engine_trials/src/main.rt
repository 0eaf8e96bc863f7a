// Tries the engine: generated lists of calls on both makes against the calculator, and days worked out by hand.
#![tactic(auto)]

mod days;
mod lists;
mod shown;
mod tallies;

use days::{run_crowd, run_listing, run_numbers, run_registers};
use lists::try_lists;
use tallies::{Kind, Outcome, all_answers, traded};
use trials::show_count;

/// Where the generated numbers start.
const SEED: u64 = 18_112_026;
/// How many lists of calls are generated.
const LISTS: u32 = 2_000;

/// Prints how many calls came to each kind of answer.
fn show_answers(rt: &HostRuntime, answers: &[Result<Kind, u8>]) -> anyhow::Result<()> {
    for (words, kind) in [
        ("entered", Kind::Entered),
        ("cut", Kind::Cut),
        ("withdrawn", Kind::Withdrawn),
        ("indicated", Kind::Indicated),
        ("uncrossed", Kind::Uncrossed),
    ] {
        show_count(rt, words, answers, |answer| *answer == Ok(kind))?;
    }
    Ok(())
}

/// Prints how many calls came to each refusal that came.
fn show_refusals(rt: &HostRuntime, answers: &[Result<Kind, u8>]) -> anyhow::Result<()> {
    // One pass for all numbers: to ask of each number whether it came takes longer than all the lists.
    let mut counts = [0usize; 256];
    for number in answers.iter().filter_map(|answer| answer.err()) {
        let count = &mut counts[usize::from(number)];
        *count = count.saturating_add(1);
    }
    for (number, count) in counts.iter().enumerate() {
        if *count > 0 {
            println!(rt; "refused {number} {count}")?;
        }
    }
    Ok(())
}

fn show_outcomes(rt: &HostRuntime, outcomes: &[Outcome]) -> anyhow::Result<()> {
    let answers = all_answers(rt.alloc(), outcomes)?;
    println!(rt; "lists {}", outcomes.len())?;
    show_answers(rt, &answers)?;
    println!(rt; "trades {}", traded(outcomes))?;
    show_refusals(rt, &answers)?;
    show_count(rt, "table differs", outcomes, |outcome| outcome.table_apart)?;
    show_count(
        rt,
        "ladder differs",
        outcomes,
        |outcome| outcome.ladder_apart,
    )?;
    Ok(())
}

fn run(rt: &HostRuntime) -> anyhow::Result<()> {
    show_outcomes(rt, &try_lists(rt.alloc(), SEED, LISTS)?)?;
    println!(rt; "the listing")?;
    run_listing(rt)?;
    println!(rt; "registers and repeated uncrossings")?;
    run_registers(rt)?;
    println!(rt; "a full book")?;
    run_crowd(rt)?;
    println!(rt; "all numbers given out")?;
    run_numbers(rt)
}

fn main(rt: HostRuntime) -> anyhow::Result<()> {
    run(&rt)
}
