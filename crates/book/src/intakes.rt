// What every make of book counts in the same way: its places and the numbers that it gives out.
ghost use Rattle.std.specs.Prelude.{◌≡◌, ◌≤◌, min};
ghost use Rattle.book.specs.Meaning.{number_answer, number_after};

use crate::books::{LAST_NUMBER, MAX_PLACES};
use crate::refusals::BookRefusal;

/// The places of a book, and the last number that it gave out.
#[derive(Clone, Copy, Debug, PartialEq, Eq)]
pub struct Intake {
    pub places: usize,
    pub last: u32,
    ghost few: { places ≤ 256 },
    ghost given: { last ≤ 60000 },
}

impl Intake {
    /// The intake of a fresh book, which offers at most 256 places.
    pub fn new(places: usize) -> Intake
        ensures places { result.places ≡ min places 256 }
        ensures last { result.last ≡ 0 }
    {
        Intake {
            places: places.min(MAX_PLACES),
            last: 0,
        }
    }

    /// Gives out the next number to an order that comes to so many live ones. A refusal gives out none.
    pub fn number(&mut self, live: usize) -> Result<u32, BookRefusal>
        ensures answer { result ≡ number_answer self.old.places self.old.last live }
        ensures places { self.new.places ≡ self.old.places }
        ensures last { self.new.last ≡ number_after self.old.places self.old.last live }
    {
        if live == self.places {
            return Err(BookRefusal::Full);
        }
        if self.last == LAST_NUMBER {
            return Err(BookRefusal::NumbersSpent);
        }
        self.last += 1;
        Ok(self.last)
    }
}
