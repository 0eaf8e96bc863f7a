// Generated books: both makes against the calculator.
use calculator::{Ending, PlainOrder, Source, calculate, fill, order};
use ladder::Ladder;
use price::{Indication, indication};
use session::{Session, SessionRefusal};
use std::alloc::{AllocError, Global};
use table::Table;
use trials::Make;

/// How books are drawn.
#[derive(Clone, Copy)]
pub(crate) struct Draw {
    /// The prices, in ticks.
    prices: u32,
    /// The most orders.
    orders: u32,
    /// The most contracts of an order.
    contracts: u32,
}

/// Few orders at many prices, of which many do not trade.
pub(crate) const THIN: Draw = Draw {
    prices: 12,
    orders: 9,
    contracts: 4,
};
/// Many orders of one contract at few prices, where ties are frequent.
pub(crate) const CROWDED: Draw = Draw {
    prices: 4,
    orders: 16,
    contracts: 1,
};

/// What came of a generated book.
#[derive(Clone, Copy)]
pub(crate) struct Outcome {
    /// `None` if nothing trades.
    pub(crate) ending: Option<Ending>,
    /// Whether the price is the highest admissible one.
    pub(crate) capped: bool,
    /// Whether the answer of a make is not the calculator's.
    pub(crate) apart: bool,
}

fn random_order(source: &mut Source, draw: Draw) -> PlainOrder {
    let quantity = source.below(draw.contracts).saturating_add(1);
    let limit = source.below(draw.prices).saturating_add(1);
    order(source.side(), quantity, limit)
}

fn random_orders(
    heap: Global,
    source: &mut Source,
    draw: Draw,
) -> Result<Vec<PlainOrder>, AllocError> {
    let count = source.below(draw.orders.saturating_add(1));
    (0..count).map(|_| random_order(source, draw)).collect(heap)
}

/// Whether a make that holds the orders answers something else than the calculator.
fn is_apart<B: Make>(
    heap: Global,
    orders: &[PlainOrder],
    tick: u32,
    scarcity: u32,
    told: Option<Indication>,
) -> Result<bool, AllocError> {
    let mut book = B::fresh(heap, orders.len())?;
    fill(&mut book, orders);
    let answer = Session::open(tick, scarcity).and_then(|session| indication(&book, session));
    Ok(answer != told.ok_or(SessionRefusal::NoVolume))
}

/// One generated book, on both makes.
fn try_book(heap: Global, source: &mut Source, draw: Draw) -> Result<Outcome, AllocError> {
    let orders = random_orders(heap, source, draw)?;
    let tick = source.below(3) + 1;
    let scarcity = source
        .below(draw.prices.saturating_mul(4))
        .saturating_add(1);
    let (ending, told) = calculate(&orders, tick, scarcity).unzip();
    let table_apart = is_apart::<Table>(heap, &orders, tick, scarcity, told)?;
    let ladder_apart = is_apart::<Ladder>(heap, &orders, tick, scarcity, told)?;
    Ok(Outcome {
        ending,
        capped: told.is_some_and(|told| told.price == scarcity / tick * tick),
        apart: table_apart || ladder_apart,
    })
}

/// So many books that are drawn so.
pub(crate) fn try_books(
    heap: Global,
    seed: u64,
    books: u32,
    draw: Draw,
) -> Result<Vec<Outcome>, AllocError> {
    let mut source = Source::new(seed);
    (0..books)
        .map(|_| try_book(heap, &mut source, draw))
        .try_collect(heap)
}
