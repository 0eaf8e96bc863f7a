// What an indication says.

/// The price that an uncrossing would have now, and what it would trade.
#[derive(Clone, Copy, Debug, PartialEq, Eq)]
pub struct Indication {
    /// The price, in centavos.
    pub price: u32,
    /// How many contracts trade at it.
    pub volume: u32,
    /// How many more are bought than sold at it; negative if more are sold.
    pub imbalance: i64,
}
