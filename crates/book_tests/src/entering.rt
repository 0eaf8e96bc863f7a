// Entering: numbers in turn, full books, and numbers that are never given again.
use crate::orders::{body, seen};
use book::Side::{Buy, Sell};
use book::{BookRefusal, OrderBook, Side};
use std::alloc::Global;
use std::process::Abort;
use std::test::Fail;
use trials::Make;

/// The two orders of `full_book` are all that the book holds.
fn holds_both<B: OrderBook>(rt: &impl Abort, book: &B) -> Result<(), Fail> {
    assert_eq!(rt; book.last(), 2);
    assert_eq!(rt; book.find(1), seen(1, Buy, 100, 5)?);
    assert_eq!(rt; book.find(2), seen(2, Sell, 200, 6)?);
    assert_eq!(rt; book.find(3), None);
    assert_eq!(rt; book.rank(Buy, 1), seen(1, Buy, 100, 5)?);
    assert_eq!(rt; book.rank(Buy, 2), None);
    assert_eq!(rt; book.rank(Sell, 1), seen(2, Sell, 200, 6)?);
    assert_eq!(rt; book.rank(Sell, 2), None);
    Ok(())
}

/// A book of two places: the third entry is refused, and changes nothing.
pub(crate) fn full_book<B: Make>(rt: &impl Abort, heap: Global) -> Result<(), Fail> {
    let mut book = B::fresh(heap, 2)?;
    assert_eq!(rt; book.enter(body(Buy, 100, 5)?), Ok(1));
    assert_eq!(rt; book.enter(body(Sell, 200, 6)?), Ok(2));
    holds_both(rt, &book)?;
    assert_eq!(rt; book.enter(body(Buy, 150, 7)?), Err(BookRefusal::Full));
    assert_eq!(rt; book.enter(body(Sell, 150, 7)?), Err(BookRefusal::Full));
    assert_eq!(rt; book.places(), 2);
    holds_both(rt, &book)
}

/// A book of two places: a cut to 0 frees a place, and its next order has the next number.
fn freed_place<B: OrderBook>(rt: &impl Abort, book: &mut B) -> Result<(), Fail> {
    assert_eq!(rt; book.enter(body(Buy, 100, 5)?), Ok(1));
    assert_eq!(rt; book.enter(body(Buy, 100, 6)?), Ok(2));
    assert_eq!(rt; book.cut(2, 6), Ok(()));
    assert_eq!(rt; book.last(), 2);
    assert_eq!(rt; book.enter(body(Sell, 300, 7)?), Ok(3));
    assert_eq!(rt; book.find(2), None);
    assert_eq!(rt; book.find(3), seen(3, Sell, 300, 7)?);
    assert_eq!(rt; book.enter(body(Buy, 1, 1)?), Err(BookRefusal::Full));
    assert_eq!(rt; book.cut(1, 5), Ok(()));
    assert_eq!(rt; book.enter(body(Buy, 1, 1)?), Ok(4));
    assert_eq!(rt; book.last(), 4);
    Ok(())
}

/// A partial cut frees no place of a book of one.
fn held_place<B: OrderBook>(rt: &impl Abort, book: &mut B) -> Result<(), Fail> {
    assert_eq!(rt; book.enter(body(Sell, 100, 5)?), Ok(1));
    assert_eq!(rt; book.cut(1, 4), Ok(()));
    assert_eq!(rt; book.enter(body(Sell, 100, 5)?), Err(BookRefusal::Full));
    assert_eq!(rt; book.find(1), seen(1, Sell, 100, 1)?);
    assert_eq!(rt; book.cut(1, 1), Ok(()));
    assert_eq!(rt; book.enter(body(Sell, 100, 5)?), Ok(2));
    Ok(())
}

/// Both of these on fresh books.
pub(crate) fn places_again<B: Make>(rt: &impl Abort, heap: Global) -> Result<(), Fail> {
    freed_place(rt, &mut B::fresh(heap, 2)?)?;
    held_place(rt, &mut B::fresh(heap, 1)?)
}

/// A book of no places refuses the first entry.
pub(crate) fn no_places<B: OrderBook>(rt: &impl Abort, book: &mut B) -> Result<(), Fail> {
    assert_eq!(rt; book.places(), 0);
    assert_eq!(rt; book.enter(body(Buy, 1, 1)?), Err(BookRefusal::Full));
    assert_eq!(rt; book.enter(body(Sell, 1, 1)?), Err(BookRefusal::Full));
    assert_eq!(rt; book.last(), 0);
    assert_eq!(rt; book.find(1), None);
    assert_eq!(rt; book.cut(1, 1), Err(BookRefusal::UnknownOrder));
    Ok(())
}

/// A fresh book has as many places as it should, and the orders of one side can take each.
pub(crate) fn offers<B: OrderBook>(
    rt: &impl Abort,
    book: &mut B,
    side: Side,
    places: u32,
) -> Result<(), Fail> {
    assert_eq!(rt; book.places(), places as usize);
    assert_eq!(rt; book.last(), 0);
    for number in 1..=places {
        assert_eq!(rt; book.enter(body(side, number, 1)?), Ok(number));
    }
    assert_eq!(rt; book.enter(body(Sell, 1, 1)?), Err(BookRefusal::Full));
    assert_eq!(rt; book.enter(body(Buy, 1, 1)?), Err(BookRefusal::Full));
    assert_eq!(rt; book.places(), places as usize);
    assert_eq!(rt; book.last(), places);
    Ok(())
}
