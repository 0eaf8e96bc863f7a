// Why a session refuses.
ghost use Rattle.std.specs.Prelude.{◌≡◌};
ghost use Rattle.session.specs.Refusals.{numbered, of_price};

use crate::judgements::PriceRefusal;

/// A refusal, which keeps the cause of a refused price.
#[derive(Clone, Copy, Debug, PartialEq, Eq)]
pub enum SessionRefusal {
    /// The tick or the scarcity price is out of range.
    SessionRange,
    /// A quantity is out of range.
    QuantityRange,
    /// A price is refused.
    Price(PriceRefusal),
    /// No admissible price has volume above 0.
    NoVolume,
    /// The register has fewer places than there are trades.
    RegisterShort,
}

impl From<PriceRefusal> for SessionRefusal {
    ghost from_gives = { λ cause why. why ≡ of_price cause };

    fn from(cause: PriceRefusal) -> SessionRefusal {
        SessionRefusal::Price(cause)
    }
}

/// The refusal's number.
impl From<SessionRefusal> for u8 {
    ghost from_gives = { λ why code. code ≡ numbered why };

    fn from(why: SessionRefusal) -> u8 {
        match why {
            SessionRefusal::SessionRange => 3,
            SessionRefusal::QuantityRange => 4,
            SessionRefusal::Price(cause) => u8::from(cause),
            SessionRefusal::NoVolume => 11,
            SessionRefusal::RegisterShort => 12,
        }
    }
}
