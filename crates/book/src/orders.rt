// Orders: their side, limit and quantity, with the ranges in the type.
ghost use Rattle.book.specs.Ranges.{InLimit, InQuantity};

/// The side of an order.
#[derive(Clone, Copy, Debug, PartialEq, Eq)]
pub enum Side {
    Buy,
    Sell,
}

/// The highest limit, in ticks.
pub const MAX_LIMIT: u32 = 10_000_000;
/// The most contracts of one order.
pub const MAX_QUANTITY: u32 = 6_858;

/// What an order says. No body outside its ranges exists.
#[derive(Clone, Copy, Debug, PartialEq, Eq)]
pub struct Body {
    pub side: Side,
    /// The worst price at which it trades, in ticks.
    pub limit: u32,
    /// Its contracts.
    pub quantity: u32,
    ghost limited: { InLimit limit },
    ghost sized: { InQuantity quantity },
}

/// An order that is live in a book.
#[derive(Clone, Copy, Debug, PartialEq, Eq)]
pub struct Live {
    pub number: u32,
    pub body: Body,
}
