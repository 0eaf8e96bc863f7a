// Why a contribution or a closing price is refused.
ghost use Rattle.std.specs.Prelude.{◌≡◌};
ghost use Rattle.closing.specs.Refusals.{numbered, of_price};

use session::PriceRefusal;

/// A refusal, which keeps the cause of a refused price.
#[derive(Clone, Copy, Debug, PartialEq, Eq)]
pub enum ClosingRefusal {
    /// A trade's quantity is not 1 to 6,858.
    QuantityRange,
    /// A price is refused.
    Price(PriceRefusal),
    /// The survey has as many prices as its run has places, or 64.
    Full,
    /// More than 1,024 trades, more than 64 survey prices, or a survey that is out of rank.
    ClosingLists,
    /// No criterion for a closing price serves.
    NoCriterion,
}

impl From<PriceRefusal> for ClosingRefusal {
    ghost from_gives = { λ cause why. why ≡ of_price cause };

    fn from(cause: PriceRefusal) -> ClosingRefusal {
        ClosingRefusal::Price(cause)
    }
}

/// The refusal's number.
impl From<ClosingRefusal> for u8 {
    ghost from_gives = { λ why code. code ≡ numbered why };

    fn from(why: ClosingRefusal) -> u8 {
        match why {
            ClosingRefusal::QuantityRange => 4,
            ClosingRefusal::Price(cause) => u8::from(cause),
            ClosingRefusal::Full => 9,
            ClosingRefusal::ClosingLists => 17,
            ClosingRefusal::NoCriterion => 18,
        }
    }
}
