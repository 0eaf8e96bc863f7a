// What the engine answers and what it leaves, as text.
use book::OrderBook;
use engine::Journal;
use feed::Layer;
use note::Trade;
use price::Indication;
use trading::{Answer, Refusal};

/// Prints the rest of a line: a trade.
pub(crate) fn show_trade(rt: &HostRuntime, trade: Trade) -> anyhow::Result<()> {
    println!(rt; "{} {} {}", trade.buy, trade.sell, trade.quantity)?;
    Ok(())
}

/// Prints what trades, after a word.
fn show_told(rt: &HostRuntime, word: &str, told: Indication) -> anyhow::Result<()> {
    println!(rt; "{word} {} {} {}", told.price, told.volume, told.imbalance)?;
    Ok(())
}

/// Prints the number and the layer of a refusal.
fn show_refused(rt: &HostRuntime, why: Refusal) -> anyhow::Result<()> {
    let layer = Layer::from(why.layer());
    println!(rt; "refused {} {layer}", u8::from(why))?;
    Ok(())
}

/// Prints an answer, and the trades of an uncrossing.
pub(crate) fn show_answer(
    rt: &HostRuntime,
    answer: Result<Answer, Refusal>,
    log: &[Trade],
) -> anyhow::Result<()> {
    match answer {
        Ok(Answer::Entered(number)) => println!(rt; "entered {number}")?,
        Ok(Answer::Cut) => println!(rt; "cut")?,
        Ok(Answer::Withdrawn) => println!(rt; "withdrawn")?,
        Ok(Answer::Indicated(told)) => show_told(rt, "indicated", told)?,
        Ok(Answer::Uncrossed { told, first, count }) => {
            show_told(rt, "uncrossed", told)?;
            for trade in log.iter().skip(first).take(count) {
                show_trade(rt, *trade)?;
            }
        }
        Err(why) => show_refused(rt, why)?,
    }
    Ok(())
}

/// Prints every answer.
pub(crate) fn show(rt: &HostRuntime, journal: &Journal) -> anyhow::Result<()> {
    for answer in journal.answers.iter() {
        show_answer(rt, *answer, &journal.trades)?;
    }
    Ok(())
}

/// Prints what the order of a number holds.
pub(crate) fn show_order<B: OrderBook>(
    rt: &HostRuntime,
    book: &B,
    number: u32,
) -> anyhow::Result<()> {
    match book.find(number) {
        Some(live) => println!(rt; "order {number} holds {}", live.body.quantity)?,
        None => println!(rt; "order {number} has left")?,
    }
    Ok(())
}
