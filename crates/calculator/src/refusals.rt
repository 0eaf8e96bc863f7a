// Why a plain book refuses.
ghost use Rattle.std.specs.Prelude.{◌≡◌};
ghost use Rattle.calculator.specs.Refusals.{numbered};

/// A refusal; each case carries its number.
// The cases and their numbers are written out here, so that a trial compares those of the books and sessions with others.
#[derive(Clone, Copy, Debug, PartialEq, Eq)]
pub enum PlainRefusal {
    /// The quantity is out of range.
    QuantityRange = 4,
    /// The price is out of range.
    PriceRange = 5,
    /// The price is no whole multiple of the tick.
    OffTick = 6,
    /// No live order has the number.
    UnknownOrder = 7,
    /// A cut of 0, or of more than the order holds.
    CutRange = 8,
    /// The live orders are as many as the places.
    Full = 9,
    /// Nothing trades.
    NoVolume = 11,
    /// There are more trades than places for them.
    RegisterShort = 12,
}

/// The refusal's number.
impl From<PlainRefusal> for u8 {
    ghost from_gives = { λ why number. number ≡ numbered why };

    fn from(why: PlainRefusal) -> u8 {
        why as u8
    }
}
