// Tries the price search: generated books against a calculator that tries every price, the worked figures, and books at the
// ends of the ranges.
#![tactic(auto)]

mod books;
mod figures;

use books::{CROWDED, Draw, Outcome, THIN, try_books};
use calculator::Ending;
use figures::{run_crowds, run_ends, run_figures};
use trials::show_count;

/// Where the generated numbers start.
const SEED: u64 = 20_261_118;
/// How many books are generated of each draw.
const BOOKS: u32 = 20_000;

fn run_books(rt: &HostRuntime, words: &str, draw: Draw) -> anyhow::Result<()> {
    let outcomes = try_books(rt.alloc(), SEED, BOOKS, draw)?;
    println!(rt; "generated books, {words} {}", outcomes.len())?;
    for (words, ending) in [
        ("nothing trades", None),
        ("all imbalances positive", Some(Ending::Positive)),
        ("all imbalances negative", Some(Ending::Negative)),
        ("both signs", Some(Ending::Mixed)),
        ("all imbalances zero", Some(Ending::Level)),
    ] {
        show_count(rt, words, &outcomes, |outcome| outcome.ending == ending)?;
    }
    show_count(
        rt,
        "price at the highest admissible",
        &outcomes,
        |outcome| { outcome.capped },
    )?;
    show_count(
        rt,
        "a make and the calculator differ",
        &outcomes,
        |outcome| { outcome.apart },
    )?;
    Ok(())
}

fn run(rt: &HostRuntime) -> anyhow::Result<()> {
    run_books(rt, "thin", THIN)?;
    run_books(rt, "crowded", CROWDED)?;
    println!(rt; "worked figures")?;
    run_figures(rt)?;
    println!(rt; "ends of the ranges")?;
    run_ends(rt)?;
    println!(rt; "full books")?;
    run_crowds(rt)
}

fn main(rt: HostRuntime) -> anyhow::Result<()> {
    run(&rt)
}
