// What a closing price is made from.
use ranking::SurveyPrice;

/// A trade of the day, by price and quantity.
#[derive(Clone, Copy, Debug, PartialEq, Eq)]
pub struct PricedTrade {
    /// The price, in centavos.
    pub price: u32,
    /// Its contracts.
    pub quantity: u32,
}

/// The price of the last closing auction.
#[derive(Clone, Copy, Debug, PartialEq, Eq)]
pub struct LastPrice {
    /// The price, in centavos.
    pub price: u32,
    /// How old it is, in business days.
    pub age: u32,
}

/// Everything that the criteria for a closing price look at. Single prices may be absent.
#[derive(Clone, Copy)]
pub struct ClosingInputs<'a> {
    /// Today's auction price.
    pub today: Option<u32>,
    /// The price of the last closing auction.
    pub last: Option<LastPrice>,
    /// Whether the two auction prices are out of the market.
    // A mark of its own: it stands over both prices, and marked prices are judged all the same.
    pub out_of_market: bool,
    /// The day's trades.
    pub trades: &'a [PricedTrade],
    /// The highest price bid.
    pub best_buy: Option<u32>,
    /// The lowest price asked.
    pub best_sell: Option<u32>,
    /// The used part of a survey run.
    pub survey: &'a [SurveyPrice],
}
