// Why a call is refused, and by which layer.
ghost use Rattle.std.specs.Prelude.{◌≡◌};
ghost use Rattle.trading.specs.Refusals.{number_of, layer_of};
ghost use Rattle.trading.specs.declared.refusals.Refusal.TheVariants.{Book as OfBook, Session as OfSession};

use book::BookRefusal;
use session::SessionRefusal;

/// A refusal, which keeps its cause.
#[derive(Clone, Copy, Debug, PartialEq, Eq)]
pub enum Refusal {
    /// The book refused.
    Book(BookRefusal),
    /// The session refused before the book was asked.
    Session(SessionRefusal),
}

/// The layer that refused.
#[derive(Clone, Copy, Debug, PartialEq, Eq)]
pub enum Layer {
    Book,
    Session,
}

impl From<BookRefusal> for Refusal {
    ghost from_gives = { λ cause why. why ≡ OfBook cause };

    fn from(cause: BookRefusal) -> Refusal {
        Refusal::Book(cause)
    }
}

impl From<SessionRefusal> for Refusal {
    ghost from_gives = { λ cause why. why ≡ OfSession cause };

    fn from(cause: SessionRefusal) -> Refusal {
        Refusal::Session(cause)
    }
}

/// The refusal's number.
impl From<Refusal> for u8 {
    ghost from_gives = { λ why code. code ≡ number_of why };

    fn from(why: Refusal) -> u8 {
        match why {
            Refusal::Book(cause) => u8::from(cause),
            Refusal::Session(cause) => u8::from(cause),
        }
    }
}

impl Refusal {
    /// The layer that refused.
    pub fn layer(self) -> Layer
        ensures { result ≡ layer_of self }
    {
        match self {
            Refusal::Book(_) => Layer::Book,
            Refusal::Session(_) => Layer::Session,
        }
    }
}
