// Where the parts of a line stand, and which of them a refusal blames.
ghost use Rattle.std.specs.Prelude.{◌≡◌};
ghost use Rattle.feed.specs.declared.places.Places.{Places};
ghost use Rattle.feed.specs.Places.{place_of, refused_at, out_of_turn};

use crate::faults::{Cause, Fault};
use book::BookRefusal;
use session::SessionRefusal;
use trading::Refusal;

/// The number of a line, and the first byte of each of its parts. A part that the line has not stands at the line's first byte.
// And not in an `Option`: no refusal of the line blames such a part.
#[derive(Clone, Copy)]
pub(crate) struct Places {
    /// The line, counted from 1.
    pub(crate) line: usize,
    /// Its first byte.
    pub(crate) start: usize,
    /// The tick if that is out of range, else the scarcity price.
    pub(crate) terms: usize,
    pub(crate) number: usize,
    pub(crate) quantity: usize,
    pub(crate) price: usize,
}

impl Places {
    /// The places of a line of which only the first byte is known.
    pub(crate) fn new(line: usize, start: usize) -> Places
        ensures { result ≡ record { line = line; start = start; terms = start; number = start; quantity = start; price = start } }
    {
        Places {
            line,
            start,
            terms: start,
            number: start,
            quantity: start,
            price: start,
        }
    }

    /// The part that a refusal blames.
    fn place(self, why: Refusal) -> usize
        ensures { result ≡ place_of self why }
    {
        match why {
            Refusal::Book(BookRefusal::UnknownOrder) => self.number,
            Refusal::Book(BookRefusal::CutRange) => self.quantity,
            Refusal::Book(BookRefusal::Full | BookRefusal::NumbersSpent) => self.start,
            Refusal::Session(SessionRefusal::SessionRange) => self.terms,
            Refusal::Session(SessionRefusal::QuantityRange) => self.quantity,
            Refusal::Session(SessionRefusal::Price(_)) => self.price,
            Refusal::Session(SessionRefusal::NoVolume | SessionRefusal::RegisterShort) => {
                self.start
            }
        }
    }

    /// The fault of a line that is refused.
    pub(crate) fn refused(self, why: Refusal) -> Fault
        ensures { result ≡ refused_at why self }
    {
        Fault {
            cause: Cause::Refused(why),
            line: self.line,
            place: self.place(why),
        }
    }

    /// The fault of a line that comes out of turn.
    pub(crate) fn out_of_turn(self) -> Fault
        ensures { result ≡ out_of_turn self }
    {
        Fault {
            cause: Cause::OutOfTurn,
            line: self.line,
            place: self.start,
        }
    }
}
