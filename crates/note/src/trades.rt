// What a note holds: a heading and trades, with the range of each number.
ghost use Rattle.std.specs.Prelude.{◌≡◌};
ghost use Rattle.note.specs.Notes.{is_trade};

/// The highest price, in centavos.
pub const MAX_PRICE: u32 = 10_000_000;
/// The most trades of one note.
pub const MAX_TRADES: usize = 255;
/// The highest order number.
pub const MAX_ORDER: u32 = 60_000;
/// The most contracts of one trade.
pub const MAX_QUANTITY: u32 = 6_858;

/// A trade between a buy and a sell order. Its numbers have no range of their own: a note's are judged.
#[derive(Clone, Copy, Debug, PartialEq, Eq)]
pub struct Trade {
    /// The number of the buy order.
    pub buy: u32,
    /// The number of the sell order.
    pub sell: u32,
    /// How many contracts are traded.
    pub quantity: u32,
}

/// What stands in front of a note's trades.
// The count stands here and no slice of the trades, which the caller lends room for: a register longer than they are.
#[derive(Clone, Copy, Debug, PartialEq, Eq)]
pub struct Heading {
    /// The price, in centavos.
    pub price: u32,
    /// How many trades follow.
    pub count: usize,
}

impl Trade {
    /// Whether a note can hold the trade: each number in its range, and two different orders.
    pub fn is_legal(&self) -> bool
        ensures { result ≡ is_trade self.now }
    {
        (1..=MAX_ORDER).contains(&self.buy)
            && (1..=MAX_ORDER).contains(&self.sell)
            && self.sell != self.buy
            && (1..=MAX_QUANTITY).contains(&self.quantity)
    }
}
