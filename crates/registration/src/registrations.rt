// What is asked to be registered, and what is known of the market.

/// The best price of a side of the market, with the side's depth.
#[derive(Clone, Copy, Debug, PartialEq, Eq)]
pub struct BestPrice {
    /// The price, in centavos.
    pub price: u32,
    /// All contracts of the side.
    pub depth: u32,
}

/// A price and a quantity to register, with what the price is measured by. Prices of the market may be absent.
#[derive(Clone, Copy)]
pub struct Registration {
    /// The price to register, in centavos.
    pub price: u32,
    /// The contracts to register.
    pub quantity: u32,
    /// The highest price bid, and all contracts that are bid.
    pub best_buy: Option<BestPrice>,
    /// The lowest price asked, and all contracts that are asked.
    pub best_sell: Option<BestPrice>,
    /// The price of the last trade.
    pub last_trade: Option<u32>,
    /// The reference price.
    pub reference: Option<u32>,
}
