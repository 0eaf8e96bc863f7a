// Cutting: unknown numbers, quantities out of range, partial cuts and cuts to 0.
use crate::orders::{body, seen};
use book::Side::{Buy, Sell};
use book::{BookRefusal, OrderBook};
use std::alloc::Global;
use std::process::Abort;
use std::test::Fail;
use trials::Make;

/// Enters a buy of 5 and a sell of 6, and a buy of 7 that leaves again.
fn enter_three<B: OrderBook>(rt: &impl Abort, book: &mut B) -> Result<(), Fail> {
    assert_eq!(rt; book.enter(body(Buy, 100, 5)?), Ok(1));
    assert_eq!(rt; book.enter(body(Sell, 200, 6)?), Ok(2));
    assert_eq!(rt; book.enter(body(Buy, 100, 7)?), Ok(3));
    assert_eq!(rt; book.cut(3, 7), Ok(()));
    Ok(())
}

/// The two orders that stay are all that the book holds.
fn holds_two<B: OrderBook>(rt: &impl Abort, book: &B) -> Result<(), Fail> {
    assert_eq!(rt; book.find(1), seen(1, Buy, 100, 5)?);
    assert_eq!(rt; book.find(2), seen(2, Sell, 200, 6)?);
    assert_eq!(rt; book.at_limit(1), (5, 0));
    assert_eq!(rt; book.at_limit(200), (0, 6));
    assert_eq!(rt; book.last(), 3);
    Ok(())
}

/// No cut of any quantity finds the number.
fn is_unknown<B: OrderBook>(rt: &impl Abort, book: &mut B, number: u32) {
    let unknown = Err(BookRefusal::UnknownOrder);
    assert_eq!(rt; book.find(number), None);
    assert_eq!(rt; book.cut(number, 1), unknown);
    assert_eq!(rt; book.cut(number, 7), unknown);
    assert_eq!(rt; book.cut(number, 0), unknown);
    assert_eq!(rt; book.cut(number, 4_294_967_295), unknown);
}

/// A live order that holds less than `more` takes no cut of 0, of `more` or above.
fn is_out_of_range<B: OrderBook>(rt: &impl Abort, book: &mut B, number: u32, more: u32) {
    let out = Err(BookRefusal::CutRange);
    assert_eq!(rt; book.cut(number, 0), out);
    assert_eq!(rt; book.cut(number, more), out);
    assert_eq!(rt; book.cut(number, 6_859), out);
    assert_eq!(rt; book.cut(number, 4_294_967_295), out);
}

/// Numbers that no live order has: 0, one that left, one never given out, and the highest.
pub(crate) fn unknown_numbers<B: Make>(rt: &impl Abort, heap: Global) -> Result<(), Fail> {
    let mut book = B::fresh(heap, 3)?;
    is_unknown(rt, &mut book, 0);
    is_unknown(rt, &mut book, 1);
    enter_three(rt, &mut book)?;
    is_unknown(rt, &mut book, 0);
    is_unknown(rt, &mut book, 3);
    is_unknown(rt, &mut book, 4);
    is_unknown(rt, &mut book, 4_294_967_295);
    holds_two(rt, &book)
}

/// Cuts of 0 and of more than is held are refused, and change nothing.
pub(crate) fn bad_quantities<B: Make>(rt: &impl Abort, heap: Global) -> Result<(), Fail> {
    let mut book = B::fresh(heap, 3)?;
    enter_three(rt, &mut book)?;
    is_out_of_range(rt, &mut book, 1, 6);
    is_out_of_range(rt, &mut book, 2, 7);
    holds_two(rt, &book)
}

/// A partial cut lowers the quantity alone.
fn partial_cuts<B: OrderBook>(rt: &impl Abort, book: &mut B) -> Result<(), Fail> {
    enter_three(rt, book)?;
    assert_eq!(rt; book.cut(1, 2), Ok(()));
    assert_eq!(rt; book.find(1), seen(1, Buy, 100, 3)?);
    assert_eq!(rt; book.find(2), seen(2, Sell, 200, 6)?);
    assert_eq!(rt; book.cut(2, 5), Ok(()));
    assert_eq!(rt; book.find(1), seen(1, Buy, 100, 3)?);
    assert_eq!(rt; book.find(2), seen(2, Sell, 200, 1)?);
    assert_eq!(rt; book.at_limit(100), (3, 0));
    assert_eq!(rt; book.at_limit(200), (0, 1));
    is_out_of_range(rt, book, 1, 4);
    is_out_of_range(rt, book, 2, 2);
    assert_eq!(rt; book.last(), 3);
    Ok(())
}

/// A cut of all that is held takes the order out, and no other.
fn cuts_to_0<B: OrderBook>(rt: &impl Abort, book: &mut B) -> Result<(), Fail> {
    enter_three(rt, book)?;
    assert_eq!(rt; book.cut(1, 4), Ok(()));
    assert_eq!(rt; book.cut(1, 1), Ok(()));
    is_unknown(rt, book, 1);
    assert_eq!(rt; book.find(2), seen(2, Sell, 200, 6)?);
    assert_eq!(rt; book.cut(2, 6), Ok(()));
    is_unknown(rt, book, 2);
    assert_eq!(rt; book.at_limit(100), (0, 0));
    assert_eq!(rt; book.at_limit(200), (0, 0));
    assert_eq!(rt; book.last(), 3);
    Ok(())
}

/// Both of these on fresh books.
pub(crate) fn quantities_left<B: Make>(rt: &impl Abort, heap: Global) -> Result<(), Fail> {
    partial_cuts(rt, &mut B::fresh(heap, 3)?)?;
    cuts_to_0(rt, &mut B::fresh(heap, 3)?)
}
