// The criteria for a closing price, each with the price that it gives if it serves.
ghost use Rattle.std.specs.Prelude.{◌≡◌, ◌*◌, ◌^◌, ◌<◌, ◌≤◌, Some};
ghost use Rattle.session.specs.Rounding.{nearest};
ghost use Rattle.closing.specs.Criteria.{worth_of, contracts_of, of_today, of_last, of_trades, of_best, of_survey, first_price};

use crate::inputs::PricedTrade;
use crate::judged::JudgedInputs;
use session::{Session, rounded};

/// The oldest that the last closing auction's price may be, in business days.
const MAX_AGE: u32 = 5;
/// The fewest trades whose mean serves.
const FEWEST_TRADES: usize = 3;
/// The widest distance between best buy and best sell whose mean serves, in centavos.
const WIDEST_SPREAD: u32 = 5_000;
/// The fewest survey prices whose median serves.
const FEWEST_SURVEY: usize = 5;

/// What trades come to.
#[derive(Clone, Copy)]
struct Totals {
    /// The sum of each price times its quantity.
    worth: u64,
    /// The sum of the quantities.
    contracts: u64,
}

/// A mean of prices, rounded to the tick.
///
/// It is at most 10,000,000, and rounding adds at most half a tick, so that it fits 32 bits.
fn mean(session: Session, sum: u64, weight: u64) -> Option<u32>
    requires weighed { 0 < weight }
    requires priced { sum ≤ 10000000 * weight }
    ensures { result ≡ Some (nearest session.tick sum weight) }
{
    u32::try_from(rounded(session.tick, sum, weight)?).ok()
}

/// What the trades come to, each trade read once.
///
/// The most are 1,024 trades of 6,858 contracts at 10,000,000: they come to 70,225,920,000,000, which fits 64 bits.
// One loop for both sums: two chains that end in `sum` would read each trade twice.
fn total_of(trades: &[PricedTrade]) -> Totals
    requires worth_fits { worth_of trades.now < 2 ^ 64 }
    requires contracts_fit { contracts_of trades.now < 2 ^ 64 }
    ensures worth { result.worth ≡ worth_of trades.now }
    ensures contracts { result.contracts ≡ contracts_of trades.now }
{
    let mut worth: u64 = 0;
    let mut contracts: u64 = 0;
    for trade in trades {
        worth += u64::from(trade.price) * u64::from(trade.quantity);
        contracts += u64::from(trade.quantity);
    }
    Totals { worth, contracts }
}

impl JudgedInputs<'_> {
    /// Today's auction price, unless it is out of the market.
    fn todays_price(self) -> Option<u32>
        ensures { result ≡ of_today self.entry.inputs }
    {
        if self.inputs.out_of_market {
            return None;
        }
        self.inputs.today
    }

    /// The last closing auction's price, if it is 1 to 5 business days old and not out of the market.
    fn last_price(self) -> Option<u32>
        ensures { result ≡ of_last self.entry.inputs }
    {
        let last = self.inputs.last?;
        if self.inputs.out_of_market || !(1..=MAX_AGE).contains(&last.age) {
            return None;
        }
        Some(last.price)
    }

    /// The mean price of three trades or more, weighted by quantity.
    fn traded_mean(self) -> Option<u32>
        ensures { result ≡ of_trades self.entry.session.tick self.entry.inputs }
    {
        if self.inputs.trades.len() < FEWEST_TRADES {
            return None;
        }
        let totals = total_of(self.inputs.trades);
        mean(self.session, totals.worth, totals.contracts)
    }

    /// The mean of best buy and best sell, if the sell is not below the buy nor too far above it.
    fn best_mean(self) -> Option<u32>
        ensures { result ≡ of_best self.entry.session.tick self.entry.inputs }
    {
        let buy = self.inputs.best_buy?;
        let sell = self.inputs.best_sell?;
        if sell.checked_sub(buy)? > WIDEST_SPREAD {
            return None;
        }
        // two prices of 32 bits: their sum fits 64
        mean(self.session, u64::from(buy) + u64::from(sell), 2)
    }

    /// The median of five survey prices or more.
    fn survey_median(self) -> Option<u32>
        ensures { result ≡ of_survey self.entry.session.tick self.entry.inputs }
    {
        let survey = self.inputs.survey;
        let count = survey.len();
        if count < FEWEST_SURVEY {
            return None;
        }
        let upper = survey[count / 2].price;
        if count % 2 == 1 {
            return Some(upper);
        }
        let lower = survey[count / 2 - 1].price;
        // two prices of 32 bits: their sum fits 64
        mean(self.session, u64::from(lower) + u64::from(upper), 2)
    }

    /// The price of the first criterion that serves. The means and the median are worked out only where none before them serves.
    // By hand where a criterion takes work: of the closure that `or_else` calls, which would hold `self` and its references,
    // nothing is known.
    pub(crate) fn first_price(self) -> Option<u32>
        ensures { result ≡ first_price self.entry.session.tick self.entry.inputs }
    {
        if let Some(price) = self.todays_price().or(self.last_price()) {
            return Some(price);
        }
        if let Some(price) = self.traded_mean() {
            return Some(price);
        }
        if let Some(price) = self.best_mean() {
            return Some(price);
        }
        self.survey_median()
    }
}
