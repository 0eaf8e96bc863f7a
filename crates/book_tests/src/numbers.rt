// All the numbers that a book gives out, on a book of one place.
use crate::orders::{body, seen};
use book::Side::{Buy, Sell};
use book::{BookRefusal, OrderBook};
use std::alloc::Global;
use std::process::Abort;
use std::test::Fail;
use trials::Make;

/// Enters an order, which has this number, and cuts it to 0.
fn pass<B: OrderBook>(rt: &impl Abort, book: &mut B, number: u32) -> Result<(), Fail> {
    assert_eq!(rt; book.enter(body(Buy, 100, 2)?), Ok(number));
    assert_eq!(rt; book.cut(number, 2), Ok(()));
    Ok(())
}

/// After 60,000 orders an empty book has no number left.
pub(crate) fn all_spent<B: Make>(rt: &impl Abort, heap: Global) -> Result<(), Fail> {
    let mut book = B::fresh(heap, 1)?;
    for number in 1u32..60_001 {
        pass(rt, &mut book, number)?;
    }
    assert_eq!(rt; book.last(), 60_000);
    assert_eq!(rt;
        book.enter(body(Buy, 100, 2)?),
        Err(BookRefusal::NumbersSpent)
    );
    assert_eq!(rt;
        book.enter(body(Sell, 100, 2)?),
        Err(BookRefusal::NumbersSpent)
    );
    assert_eq!(rt; book.last(), 60_000);
    assert_eq!(rt; book.cut(60_000, 2), Err(BookRefusal::UnknownOrder));
    assert_eq!(rt; book.find(60_001), None);
    Ok(())
}

/// A full book whose last number is 60,000 is full before its numbers are spent.
pub(crate) fn full_at_the_last<B: Make>(rt: &impl Abort, heap: Global) -> Result<(), Fail> {
    let mut book = B::fresh(heap, 1)?;
    for number in 1u32..60_000 {
        pass(rt, &mut book, number)?;
    }
    assert_eq!(rt; book.last(), 59_999);
    assert_eq!(rt; book.enter(body(Sell, 100, 2)?), Ok(60_000));
    assert_eq!(rt; book.enter(body(Buy, 100, 2)?), Err(BookRefusal::Full));
    assert_eq!(rt; book.find(60_000), seen(60_000, Sell, 100, 2)?);
    assert_eq!(rt; book.cut(60_000, 2), Ok(()));
    assert_eq!(rt;
        book.enter(body(Buy, 100, 2)?),
        Err(BookRefusal::NumbersSpent)
    );
    assert_eq!(rt; book.last(), 60_000);
    Ok(())
}
