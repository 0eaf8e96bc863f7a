// Why a registration is refused.
ghost use Rattle.std.specs.Prelude.{◌≡◌};
ghost use Rattle.registration.specs.Refusals.{numbered, of_price};

use session::PriceRefusal;

/// A refusal, which keeps the cause of a refused price.
#[derive(Clone, Copy, Debug, PartialEq, Eq)]
pub enum RegistrationRefusal {
    /// The quantity is not 1 to 1,000,000.
    QuantityRange,
    /// A price is refused.
    Price(PriceRefusal),
    /// The price to register is above the scarcity price.
    AboveScarcity,
    /// The price to register is outside its band.
    OutsideBand,
    /// Nothing is given that a band could be drawn around.
    NoBasis,
}

impl From<PriceRefusal> for RegistrationRefusal {
    ghost from_gives = { λ cause why. why ≡ of_price cause };

    fn from(cause: PriceRefusal) -> RegistrationRefusal {
        RegistrationRefusal::Price(cause)
    }
}

/// The refusal's number.
impl From<RegistrationRefusal> for u8 {
    ghost from_gives = { λ why code. code ≡ numbered why };

    fn from(why: RegistrationRefusal) -> u8 {
        match why {
            RegistrationRefusal::QuantityRange => 4,
            RegistrationRefusal::Price(cause) => u8::from(cause),
            RegistrationRefusal::AboveScarcity => 19,
            RegistrationRefusal::OutsideBand => 20,
            RegistrationRefusal::NoBasis => 21,
        }
    }
}
