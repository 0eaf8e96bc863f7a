// The worked figures and books at the ends of the ranges, on both makes.
ghost use Rattle.price_trials.specs.Figures.{AuctionFigures};

use book::Side::{Buy, Sell};
use calculator::{PlainOrder, fill, order};
use ladder::Ladder;
use price::indication;
use session::Session;
use std::alloc::{AllocError, Global};
use table::Table;
use trials::Make;

/// One buy and one sell, each by its quantity and its limit.
fn pair(bought: u32, buy: u32, sold: u32, sell: u32) -> [PlainOrder; 2] {
    [order(Buy, bought, buy), order(Sell, sold, sell)]
}

/// What a make that holds the orders answers in a session, as text.
fn answer<B: Make>(
    heap: Global,
    orders: &[PlainOrder],
    tick: u32,
    scarcity: u32,
) -> Result<String, AllocError> {
    let mut book = B::fresh(heap, 256)?;
    fill(&mut book, orders);
    match Session::open(tick, scarcity).and_then(|session| indication(&book, session)) {
        Ok(told) => format!(in heap; "{} {} {}", told.price, told.volume, told.imbalance),
        Err(why) => format!(in heap; "refused {}", u8::from(why)),
    }
}

/// Prints what a table and a ladder of these orders answer.
fn show(rt: &HostRuntime, orders: &[PlainOrder], tick: u32, scarcity: u32) -> anyhow::Result<()> {
    let table = answer::<Table>(rt.alloc(), orders, tick, scarcity)?;
    let ladder = answer::<Ladder>(rt.alloc(), orders, tick, scarcity)?;
    println!(rt; "{table} | {ladder}")?;
    Ok(())
}

fn show_figures(rt: &HostRuntime) -> anyhow::Result<()> {
    show(rt, &[], 10, 30_000)?;
    show(rt, &pair(10, 1_200, 10, 1_199), 10, 30_000)?;
    show(rt, &pair(10, 1_050, 10, 1_000), 10, 30_000)?;
    show(rt, &pair(15, 1_050, 10, 1_000), 10, 30_000)?;
    show(rt, &pair(10, 1_050, 15, 1_000), 10, 30_000)?;
    let both = [
        order(Buy, 10, 1_001),
        order(Buy, 5, 1_000),
        order(Sell, 10, 1_000),
        order(Sell, 5, 1_001),
    ];
    show(rt, &both, 10, 30_000)?;
    let plateau = [
        order(Buy, 10, 1_010),
        order(Buy, 20, 1_005),
        order(Sell, 10, 1_000),
    ];
    show(rt, &plateau, 10, 30_000)?;
    show(rt, &pair(15, 1_050, 10, 1_000), 10, 10_234)?;
    show(rt, &pair(15, 1_050, 10, 1_000), 10, 9_999)
}

/// The worked figures, which hold of the definitions that `indication` is proved against.
pub(crate) fn run_figures(rt: &HostRuntime) -> anyhow::Result<()>
    ensures { AuctionFigures }
{
    show_figures(rt)
}

/// Limits, ticks and scarcity prices at the ends of their ranges.
pub(crate) fn run_ends(rt: &HostRuntime) -> anyhow::Result<()> {
    show(rt, &pair(5, 1, 5, 1), 1, 1)?;
    show(rt, &pair(3, 10_000_000, 2, 10_000_000), 1, 10_000_000)?;
    show(rt, &pair(1, 10_000_000, 1, 1), 1, 10_000_000)?;
    show(rt, &pair(1, 10_000_000, 1, 1), 1_000, 10_000_000)?;
    show(rt, &pair(1, 10_000_000, 1, 1), 1_000, 999)?;
    show(rt, &pair(1, 10_000_000, 1, 1), 1_000, 1)?;
    show(rt, &pair(1, 20, 1, 11), 10, 100)?;
    show(rt, &pair(1, 20, 1, 11), 10, 110)?;
    show(rt, &[order(Buy, 1, 20)], 0, 100)?;
    show(rt, &[order(Buy, 1, 20)], 1_001, 100)?;
    show(rt, &[order(Buy, 1, 20)], 10, 0)?;
    show(rt, &[order(Buy, 1, 20)], 10, 10_000_001)
}

/// Full books: 256 buys, and 255 buys with one sell.
pub(crate) fn run_crowds(rt: &HostRuntime) -> anyhow::Result<()> {
    let mut crowd = vec![in rt.alloc(); order(Buy, 6_858, 100); 255]?;
    crowd.push(order(Buy, 6_858, 99))?;
    show(rt, &crowd, 10, 30_000)?;
    let _ = crowd.pop();
    crowd.push(order(Sell, 6_858, 100))?;
    show(rt, &crowd, 10, 30_000)
}
