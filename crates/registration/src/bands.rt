// The criteria of a registration, and the bands that they draw.
ghost use Rattle.std.specs.Prelude.{◌≡◌};
ghost use Rattle.std.specs.Option.{option_map};
ghost use Rattle.registration.specs.Criteria.{number_of};
ghost use Rattle.registration.specs.Bands.{holds, around, best_band, first_band};

use crate::registrations::Registration;

/// What the price to register is measured by.
#[derive(Clone, Copy, Debug, PartialEq, Eq)]
pub enum Criterion {
    /// Best buy and best sell.
    BestPrices = 1,
    /// The last trade.
    LastTrade = 2,
    /// The reference price.
    Reference = 3,
}

/// The criterion's number.
impl From<Criterion> for u8 {
    ghost from_gives = { λ criterion number. number ≡ number_of criterion };

    fn from(criterion: Criterion) -> u8 {
        criterion as u8
    }
}

/// A price in hundredths of itself.
const WHOLE: u64 = 100;
/// Below the best buy, of a hundred.
const BEST_LOW: u64 = 89;
/// Above the best sell, of a hundred.
const BEST_HIGH: u64 = 111;
/// Below a single price, of a hundred.
const SINGLE_LOW: u64 = 78;
/// Above a single price, of a hundred.
const SINGLE_HIGH: u64 = 122;

/// The prices that a criterion takes, a hundredfold. A price of 32 bits times 122 fits 64 bits.
#[derive(Clone, Copy)]
pub(crate) struct Band {
    pub(crate) criterion: Criterion,
    pub(crate) low: u64,
    pub(crate) high: u64,
}

impl Band {
    /// The band around a single price, if it is there.
    fn around(criterion: Criterion, price: Option<u32>) -> Option<Band>
        ensures { result ≡ option_map (around criterion) price }
    {
        price.map(|price| Band {
            criterion,
            low: u64::from(price) * SINGLE_LOW,
            high: u64::from(price) * SINGLE_HIGH,
        })
    }

    /// Whether a price lies in the band.
    pub(crate) fn holds(self, price: u32) -> bool
        ensures { result ≡ holds self price }
    {
        (self.low..=self.high).contains(&(u64::from(price) * WHOLE))
    }
}

impl Registration {
    /// The band of the best prices, if there are both and they are deep enough.
    fn best_band(self) -> Option<Band>
        ensures { result ≡ best_band self }
    {
        let buy = self.best_buy?;
        let sell = self.best_sell?;
        if self.quantity > buy.depth.min(sell.depth) {
            return None;
        }
        Some(Band {
            criterion: Criterion::BestPrices,
            low: u64::from(buy.price) * BEST_LOW,
            high: u64::from(sell.price) * BEST_HIGH,
        })
    }

    /// The band of the first criterion that applies.
    pub(crate) fn first_band(self) -> Option<Band>
        ensures { result ≡ first_band self }
    {
        self.best_band()
            .or(Band::around(Criterion::LastTrade, self.last_trade))
            .or(Band::around(Criterion::Reference, self.reference))
    }
}
