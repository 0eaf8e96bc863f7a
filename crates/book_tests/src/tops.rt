// The best order of each side, and what trades between them.
use crate::orders::{body, seen};
use book::Side::{Buy, Sell};
use book::{Live, OrderBook, TopOfBook, top_of_book};
use std::alloc::Global;
use std::process::Abort;
use std::test::Fail;
use trials::Make;

/// The best orders are these, and so many contracts trade.
fn top_is<B: OrderBook>(
    rt: &impl Abort,
    book: &B,
    buy: Option<Live>,
    sell: Option<Live>,
    traded: u32,
) {
    assert_eq!(rt; top_of_book(book), TopOfBook { buy, sell, traded });
}

/// A side that is empty has no best order, and nothing trades.
fn empty_sides<B: OrderBook>(rt: &impl Abort, book: &mut B) -> Result<(), Fail> {
    top_is(rt, book, None, None, 0);
    assert_eq!(rt; book.enter(body(Buy, 100, 5)?), Ok(1));
    top_is(rt, book, seen(1, Buy, 100, 5)?, None, 0);
    assert_eq!(rt; book.cut(1, 5), Ok(()));
    assert_eq!(rt; book.enter(body(Sell, 100, 5)?), Ok(2));
    top_is(rt, book, None, seen(2, Sell, 100, 5)?, 0);
    Ok(())
}

/// The best orders trade where the limits cross or touch: as much as the smaller holds.
fn crossing<B: OrderBook>(rt: &impl Abort, book: &mut B) -> Result<(), Fail> {
    assert_eq!(rt; book.enter(body(Buy, 100, 5)?), Ok(1));
    assert_eq!(rt; book.enter(body(Sell, 101, 8)?), Ok(2));
    top_is(rt, book, seen(1, Buy, 100, 5)?, seen(2, Sell, 101, 8)?, 0);
    assert_eq!(rt; book.enter(body(Sell, 100, 3)?), Ok(3));
    top_is(rt, book, seen(1, Buy, 100, 5)?, seen(3, Sell, 100, 3)?, 3);
    assert_eq!(rt; book.enter(body(Buy, 105, 2)?), Ok(4));
    top_is(rt, book, seen(4, Buy, 105, 2)?, seen(3, Sell, 100, 3)?, 2);
    assert_eq!(rt; book.cut(3, 3), Ok(()));
    top_is(rt, book, seen(4, Buy, 105, 2)?, seen(2, Sell, 101, 8)?, 2);
    assert_eq!(rt; book.cut(4, 2), Ok(()));
    top_is(rt, book, seen(1, Buy, 100, 5)?, seen(2, Sell, 101, 8)?, 0);
    Ok(())
}

/// Of equal limits the lower number is the best, and equal quantities trade whole.
fn equal_limits<B: OrderBook>(rt: &impl Abort, book: &mut B) -> Result<(), Fail> {
    assert_eq!(rt; book.enter(body(Sell, 100, 4)?), Ok(1));
    assert_eq!(rt; book.enter(body(Sell, 100, 9)?), Ok(2));
    assert_eq!(rt; book.enter(body(Buy, 100, 4)?), Ok(3));
    assert_eq!(rt; book.enter(body(Buy, 100, 9)?), Ok(4));
    top_is(rt, book, seen(3, Buy, 100, 4)?, seen(1, Sell, 100, 4)?, 4);
    Ok(())
}

/// All of these on fresh books.
pub(crate) fn all<B: Make>(rt: &impl Abort, heap: Global) -> Result<(), Fail> {
    empty_sides(rt, &mut B::fresh(heap, 4)?)?;
    crossing(rt, &mut B::fresh(heap, 4)?)?;
    equal_limits(rt, &mut B::fresh(heap, 4)?)
}
