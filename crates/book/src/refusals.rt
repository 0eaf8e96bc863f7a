// Why a book refuses.
ghost use Rattle.std.specs.Prelude.{◌≡◌};
ghost use Rattle.book.specs.Refusals.{numbered};

/// A refusal; each case carries its number.
#[derive(Clone, Copy, Debug, PartialEq, Eq)]
pub enum BookRefusal {
    /// No live order has the number.
    UnknownOrder = 7,
    /// A cut of 0, or of more than the order holds.
    CutRange = 8,
    /// The live orders are as many as the places.
    Full = 9,
    /// The last number, 60,000, is given out.
    NumbersSpent = 10,
}

/// The refusal's number.
impl From<BookRefusal> for u8 {
    ghost from_gives = { λ why number. number ≡ numbered why };

    fn from(why: BookRefusal) -> u8 {
        why as u8
    }
}
