// Quantities at a limit: at each limit of the book, one tick to each side, and at the ends.
use crate::orders::body;
use book::Side::{Buy, Sell};
use book::{BookRefusal, OrderBook};
use std::alloc::Global;
use std::process::Abort;
use std::test::Fail;
use trials::Make;

/// No quantity is bought or sold on an empty book.
fn empty_book<B: OrderBook>(rt: &impl Abort, book: &B) {
    for m in [0u32, 1, 10_000_000, 4_294_967_295] {
        assert_eq!(rt; book.at_limit(m), (0, 0));
    }
}

/// Three buys and three sells, two of each with one limit.
fn enter_six<B: OrderBook>(rt: &impl Abort, book: &mut B) -> Result<(), Fail> {
    assert_eq!(rt; book.enter(body(Buy, 100, 5)?), Ok(1));
    assert_eq!(rt; book.enter(body(Buy, 102, 7)?), Ok(2));
    assert_eq!(rt; book.enter(body(Buy, 100, 11)?), Ok(3));
    assert_eq!(rt; book.enter(body(Sell, 101, 3)?), Ok(4));
    assert_eq!(rt; book.enter(body(Sell, 104, 20)?), Ok(5));
    assert_eq!(rt; book.enter(body(Sell, 101, 40)?), Ok(6));
    Ok(())
}

/// A buy counts up to its limit, and a sell from its limit on.
fn around_each_limit<B: OrderBook>(rt: &impl Abort, book: &mut B) -> Result<(), Fail> {
    enter_six(rt, book)?;
    for (m, both) in [
        (0u32, (23u32, 0u32)),
        (1, (23, 0)),
        (99, (23, 0)),
        (100, (23, 0)),
        (101, (7, 43)),
        (102, (7, 43)),
        (103, (0, 43)),
        (104, (0, 63)),
        (105, (0, 63)),
        (4_294_967_295, (0, 63)),
    ] {
        assert_eq!(rt; book.at_limit(m), both);
    }
    Ok(())
}

/// Cuts take their quantity from the limits that the order counts at.
fn after_cuts<B: OrderBook>(rt: &impl Abort, book: &mut B) -> Result<(), Fail> {
    enter_six(rt, book)?;
    assert_eq!(rt; book.cut(3, 4), Ok(()));
    assert_eq!(rt; book.cut(4, 3), Ok(()));
    assert_eq!(rt; book.at_limit(100), (19, 0));
    assert_eq!(rt; book.at_limit(101), (7, 40));
    assert_eq!(rt; book.cut(2, 7), Ok(()));
    assert_eq!(rt; book.at_limit(100), (12, 0));
    assert_eq!(rt; book.at_limit(101), (0, 40));
    assert_eq!(rt; book.at_limit(104), (0, 60));
    Ok(())
}

/// Orders at the lowest limit and at the highest.
fn extreme_limits<B: OrderBook>(rt: &impl Abort, book: &mut B) -> Result<(), Fail> {
    assert_eq!(rt; book.enter(body(Buy, 10_000_000, 6_858)?), Ok(1));
    assert_eq!(rt; book.enter(body(Buy, 1, 1)?), Ok(2));
    assert_eq!(rt; book.enter(body(Sell, 1, 6_858)?), Ok(3));
    assert_eq!(rt; book.enter(body(Sell, 10_000_000, 2)?), Ok(4));
    for (m, both) in [
        (0u32, (6_859u32, 0u32)),
        (1, (6_859, 6_858)),
        (2, (6_858, 6_858)),
        (9_999_999, (6_858, 6_858)),
        (10_000_000, (6_858, 6_860)),
        (10_000_001, (0, 6_860)),
        (4_294_967_295, (0, 6_860)),
    ] {
        assert_eq!(rt; book.at_limit(m), both);
    }
    Ok(())
}

/// A book of 256 places with the largest orders: 256 times 6,858 contracts are 1,755,648.
fn largest_sum<B: OrderBook>(rt: &impl Abort, book: &mut B) -> Result<(), Fail> {
    for number in 1u32..257 {
        assert_eq!(rt; book.enter(body(Buy, 500, 6_858)?), Ok(number));
    }
    assert_eq!(rt; book.enter(body(Buy, 500, 6_858)?), Err(BookRefusal::Full));
    assert_eq!(rt; book.at_limit(500), (1_755_648, 0));
    assert_eq!(rt; book.at_limit(501), (0, 0));
    Ok(())
}

/// All of these on fresh books.
pub(crate) fn all<B: Make>(rt: &impl Abort, heap: Global) -> Result<(), Fail> {
    empty_book(rt, &B::fresh(heap, 6)?);
    around_each_limit(rt, &mut B::fresh(heap, 6)?)?;
    after_cuts(rt, &mut B::fresh(heap, 6)?)?;
    extreme_limits(rt, &mut B::fresh(heap, 6)?)?;
    largest_sum(rt, &mut B::fresh(heap, 256)?)
}
