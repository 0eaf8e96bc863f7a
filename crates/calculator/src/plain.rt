// Orders in plain numbers, from which books are filled.
ghost use Rattle.std.specs.Prelude.{◌≡◌};
ghost use Rattle.calculator.specs.Fills.{with_plain, filled};

use book::{Body, OrderBook, Side};

/// An order that is not in a book yet; its limit is in ticks.
#[derive(Clone, Copy, Debug, PartialEq, Eq)]
pub struct PlainOrder {
    pub side: Side,
    pub limit: u32,
    pub quantity: u32,
}

/// An order of a side.
pub fn order(side: Side, quantity: u32, limit: u32) -> PlainOrder
    ensures { result ≡ record { side = side; limit = limit; quantity = quantity } }
{
    PlainOrder {
        side,
        limit,
        quantity,
    }
}

/// The order of a number, of those that have the numbers from 1 on.
pub(crate) fn numbered(orders: &mut [PlainOrder], number: u32) -> Option<&mut PlainOrder> {
    let place = (number as usize).checked_sub(1)?;
    orders.get_mut(place)
}

/// Enters an order, unless it is out of range or the book refuses it.
fn enter_plain<B: OrderBook>(book: &mut B, order: PlainOrder)
    ensures { B.meaning book.new ≡ with_plain (B.meaning book.old) order }
{
    if let Some(body) = Body::new(order.side, order.limit, order.quantity) {
        let _ = book.enter(body);
    }
}

/// Enters the orders in turn; one that no book takes is left out.
// It stays a `for`: what a chain's closure does to a book that it captures is not known after the chain.
pub fn fill<B: OrderBook>(book: &mut B, orders: &[PlainOrder])
    ensures { B.meaning book.new ≡ filled (B.meaning book.old) orders.now }
{
    for order in orders {
        enter_plain(book, *order);
    }
}
