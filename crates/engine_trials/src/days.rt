// Days that were worked out by hand, on both makes.
use crate::lists::UNWRITTEN;
use crate::shown::{show, show_answer, show_order, show_trade};
use anyhow::{Context, anyhow};
use book::Side::{Buy, Sell};
use book::{OrderBook, Side};
use engine::{Journal, run};
use ladder::Ladder;
use note::{Trade, write_note};
use session::Session;
use table::Table;
use trading::{Answer, Call, Refusal};
use trials::Make;

/// A tick of 10 and a scarcity price of 30,000.
fn session() -> Session {
    Session::open(10, 30_000).unwrap()
}

fn entry(side: Side, quantity: u32, price: u32) -> Call {
    Call::Entry {
        side,
        quantity,
        price,
    }
}

/// Runs the calls on a book, and prints the answers.
fn play<B: OrderBook>(
    rt: &HostRuntime,
    book: &mut B,
    calls: &[Call],
    register: &mut [Trade],
) -> anyhow::Result<Journal> {
    let journal = run(rt.alloc(), book, session(), calls, register)?;
    show(rt, &journal)?;
    Ok(journal)
}

/// Prints the clearing note of what an uncrossing answered and left in the register.
fn show_note(
    rt: &HostRuntime,
    answer: Result<Answer, Refusal>,
    register: &[Trade],
) -> anyhow::Result<()> {
    let Ok(Answer::Uncrossed { told, count, .. }) = answer else {
        return Err(anyhow!("no uncrossing"));
    };
    let mut bytes = [0u8; 9];
    let len = write_note(told.price, count, register, &mut bytes).map_err(|why| anyhow!(
        "no note: {why}"
    ))?;
    println!(rt; "note of {len} bytes: {bytes:?}")?;
    Ok(())
}

/// Two buys and a sell at one price, and the clearing note of their trades.
fn listing_on<B: Make>(rt: &HostRuntime) -> anyhow::Result<()> {
    let calls = [
        entry(Buy, 6, 10_000),
        entry(Buy, 6, 10_000),
        entry(Sell, 8, 10_000),
        Call::Uncrossing,
        Call::Withdrawal { number: 9 },
    ];
    let mut book = B::fresh(rt.alloc(), 256)?;
    let mut register = [UNWRITTEN; 3];
    let journal = play(rt, &mut book, &calls, &mut register)?;
    show_order(rt, &book, 2)?;
    let uncrossed = journal.answers.get(3).context("no answer")?;
    show_note(rt, *uncrossed, &register)?;
    print!(rt; "last place ")?;
    show_trade(rt, register[2])
}

pub(crate) fn run_listing(rt: &HostRuntime) -> anyhow::Result<()> {
    listing_on::<Table>(rt)?;
    listing_on::<Ladder>(rt)
}

/// A register of one place for two trades, which stays as it was, as the orders do.
fn short_register_on<B: Make>(rt: &HostRuntime) -> anyhow::Result<()> {
    let calls = [
        entry(Buy, 6, 10_000),
        entry(Buy, 6, 10_000),
        entry(Sell, 8, 10_000),
        Call::Uncrossing,
        Call::Indication,
    ];
    let mut book = B::fresh(rt.alloc(), 256)?;
    let mut register = [UNWRITTEN; 1];
    play(rt, &mut book, &calls, &mut register)?;
    for number in 1..=3u32 {
        show_order(rt, &book, number)?;
    }
    print!(rt; "only place ")?;
    show_trade(rt, register[0])
}

/// An uncrossing twice, with orders above the ceiling, of which the sell remains.
fn twice_on<B: Make>(rt: &HostRuntime) -> anyhow::Result<()> {
    let calls = [
        entry(Buy, 5, 10_000),
        entry(Buy, 2, 40_000),
        entry(Sell, 4, 9_990),
        entry(Sell, 1, 39_990),
        Call::Uncrossing,
        Call::Uncrossing,
        Call::Cut {
            number: 2,
            quantity: 1,
        },
    ];
    let mut book = B::fresh(rt.alloc(), 256)?;
    play(rt, &mut book, &calls, &mut [UNWRITTEN; 4])?;
    show_order(rt, &book, 2)?;
    show_order(rt, &book, 4)
}

pub(crate) fn run_registers(rt: &HostRuntime) -> anyhow::Result<()> {
    short_register_on::<Table>(rt)?;
    short_register_on::<Ladder>(rt)?;
    twice_on::<Table>(rt)?;
    twice_on::<Ladder>(rt)
}

/// Buys have the numbers 1 to 128 and sells 129 to 256. Each is of 2 contracts, but the first and the last are of 1.
fn crowd_entry(number: u32) -> Call {
    let side = if number <= 128 { Buy } else { Sell };
    let quantity = if number == 1 || number == 256 { 1 } else { 2 };
    entry(side, quantity, 10_000)
}

/// A full book, which takes no order more, of which every trade is of one contract: 255 of them.
fn crowd_on<B: Make>(rt: &HostRuntime) -> anyhow::Result<()> {
    let mut calls: Vec<Call> = (1..=256u32).map(crowd_entry).collect(rt.alloc())?;
    calls.push(entry(Buy, 1, 10_000))?;
    calls.push(Call::Uncrossing)?;
    let mut book = B::fresh(rt.alloc(), 256)?;
    let mut register = [UNWRITTEN; 255];
    let journal = run(rt.alloc(), &mut book, session(), &calls, &mut register)?;
    let one_more = journal.answers.get(256).context("no answer")?;
    show_answer(rt, *one_more, &journal.trades)?;
    println!(rt; "trades {}", journal.trades.len())?;
    match book.rank(Buy, 1) {
        Some(_) => println!(rt; "a buy is left")?,
        None => println!(rt; "no buy is left")?,
    }
    print!(rt; "last trade ")?;
    show_trade(rt, register[254])
}

pub(crate) fn run_crowd(rt: &HostRuntime) -> anyhow::Result<()> {
    crowd_on::<Table>(rt)?;
    crowd_on::<Ladder>(rt)
}

/// A book of one place that gives out all its numbers: at the last it is full before they are spent.
fn numbers_on<B: Make>(rt: &HostRuntime) -> anyhow::Result<()> {
    let one = entry(Buy, 1, 10_000);
    let mut book = B::fresh(rt.alloc(), 1)?;
    for number in 1..60_000u32 {
        let pass = [one, Call::Withdrawal { number }];
        run(rt.alloc(), &mut book, session(), &pass, &mut [])?;
    }
    let calls = [one, one, Call::Withdrawal { number: 60_000 }, one];
    play(rt, &mut book, &calls, &mut [])?;
    Ok(())
}

pub(crate) fn run_numbers(rt: &HostRuntime) -> anyhow::Result<()> {
    numbers_on::<Table>(rt)?;
    numbers_on::<Ladder>(rt)
}
