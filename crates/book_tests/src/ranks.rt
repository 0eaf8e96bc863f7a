// Ranks: the better limit first, then the lower number, and none at 0 or past the last.
use crate::orders::{body, seen};
use book::Side::{Buy, Sell};
use book::{Live, OrderBook, Side};
use std::alloc::Global;
use std::process::Abort;
use std::test::Fail;
use trials::Make;

/// An empty book has no order at any place.
fn empty_book<B: OrderBook>(rt: &impl Abort, book: &B) {
    for k in [0usize, 1, 2, 256, usize::MAX] {
        assert_eq!(rt; book.rank(Buy, k), None);
        assert_eq!(rt; book.rank(Sell, k), None);
    }
}

/// Five orders of a side enter, and then these stand at these places, with none of the other side.
fn five_of<B: OrderBook>(
    rt: &impl Abort,
    book: &mut B,
    side: Side,
    other: Side,
    places: [(usize, Option<Live>); 8],
) -> Result<(), Fail> {
    assert_eq!(rt; book.enter(body(side, 100, 9)?), Ok(1));
    assert_eq!(rt; book.enter(body(side, 105, 8)?), Ok(2));
    assert_eq!(rt; book.enter(body(side, 100, 7)?), Ok(3));
    assert_eq!(rt; book.enter(body(side, 95, 6)?), Ok(4));
    assert_eq!(rt; book.enter(body(side, 105, 5)?), Ok(5));
    for (k, order) in places {
        assert_eq!(rt; book.rank(side, k), order);
        assert_eq!(rt; book.rank(other, k), None);
    }
    Ok(())
}

/// Buys rank by the higher limit, then by the lower number.
fn buys<B: OrderBook>(rt: &impl Abort, book: &mut B) -> Result<(), Fail> {
    let places = [
        (0usize, None),
        (1, seen(2, Buy, 105, 8)?),
        (2, seen(5, Buy, 105, 5)?),
        (3, seen(1, Buy, 100, 9)?),
        (4, seen(3, Buy, 100, 7)?),
        (5, seen(4, Buy, 95, 6)?),
        (6, None),
        (usize::MAX, None),
    ];
    five_of(rt, book, Buy, Sell, places)
}

/// Sells rank by the lower limit, then by the lower number.
fn sells<B: OrderBook>(rt: &impl Abort, book: &mut B) -> Result<(), Fail> {
    let places = [
        (0usize, None),
        (1, seen(4, Sell, 95, 6)?),
        (2, seen(1, Sell, 100, 9)?),
        (3, seen(3, Sell, 100, 7)?),
        (4, seen(2, Sell, 105, 8)?),
        (5, seen(5, Sell, 105, 5)?),
        (6, None),
        (usize::MAX, None),
    ];
    five_of(rt, book, Sell, Buy, places)
}

/// The places of a side are counted past the orders of the other.
fn both_sides<B: OrderBook>(rt: &impl Abort, book: &mut B) -> Result<(), Fail> {
    assert_eq!(rt; book.enter(body(Sell, 103, 1)?), Ok(1));
    assert_eq!(rt; book.enter(body(Buy, 101, 2)?), Ok(2));
    assert_eq!(rt; book.enter(body(Sell, 102, 3)?), Ok(3));
    assert_eq!(rt; book.enter(body(Buy, 104, 4)?), Ok(4));
    assert_eq!(rt; book.rank(Buy, 1), seen(4, Buy, 104, 4)?);
    assert_eq!(rt; book.rank(Buy, 2), seen(2, Buy, 101, 2)?);
    assert_eq!(rt; book.rank(Buy, 3), None);
    assert_eq!(rt; book.rank(Sell, 1), seen(3, Sell, 102, 3)?);
    assert_eq!(rt; book.rank(Sell, 2), seen(1, Sell, 103, 1)?);
    assert_eq!(rt; book.rank(Sell, 3), None);
    Ok(())
}

/// Those after an order that leaves move up, and a partial cut moves none.
fn after_cuts<B: OrderBook>(rt: &impl Abort, book: &mut B) -> Result<(), Fail> {
    assert_eq!(rt; book.enter(body(Buy, 100, 9)?), Ok(1));
    assert_eq!(rt; book.enter(body(Buy, 105, 8)?), Ok(2));
    assert_eq!(rt; book.enter(body(Buy, 100, 7)?), Ok(3));
    assert_eq!(rt; book.cut(1, 8), Ok(()));
    assert_eq!(rt; book.rank(Buy, 2), seen(1, Buy, 100, 1)?);
    assert_eq!(rt; book.cut(1, 1), Ok(()));
    assert_eq!(rt; book.rank(Buy, 1), seen(2, Buy, 105, 8)?);
    assert_eq!(rt; book.rank(Buy, 2), seen(3, Buy, 100, 7)?);
    assert_eq!(rt; book.rank(Buy, 3), None);
    assert_eq!(rt; book.enter(body(Buy, 100, 6)?), Ok(4));
    assert_eq!(rt; book.rank(Buy, 3), seen(4, Buy, 100, 6)?);
    assert_eq!(rt; book.cut(2, 8), Ok(()));
    assert_eq!(rt; book.cut(4, 6), Ok(()));
    assert_eq!(rt; book.rank(Buy, 1), seen(3, Buy, 100, 7)?);
    assert_eq!(rt; book.rank(Buy, 2), None);
    Ok(())
}

/// All of these on fresh books.
pub(crate) fn all<B: Make>(rt: &impl Abort, heap: Global) -> Result<(), Fail> {
    empty_book(rt, &B::fresh(heap, 5)?);
    buys(rt, &mut B::fresh(heap, 5)?)?;
    sells(rt, &mut B::fresh(heap, 5)?)?;
    both_sides(rt, &mut B::fresh(heap, 5)?)?;
    after_cuts(rt, &mut B::fresh(heap, 5)?)
}
