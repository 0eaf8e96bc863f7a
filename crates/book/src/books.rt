// What every make of book does, as equations over what a book means.
ghost use Rattle.std.specs.Prelude.{◌≡◌};
ghost use Rattle.book.specs.Meaning.{Book, Sound, seen, enter_answer, enter_after, found, cut_answer, cut_after, bought_at, sold_at};
ghost use Rattle.book.specs.Ranks.{rank_of, StandsAt};

use crate::orders::{Body, Live, Side};
use crate::refusals::BookRefusal;

/// The most places of a book.
pub const MAX_PLACES: usize = 256;
/// The last number that a book gives out.
pub const LAST_NUMBER: u32 = 60_000;

/// A book of live orders. Questions and refusals change nothing, and places never change.
pub trait OrderBook {
    /// What the book means.
    ghost meaning: { Self → Book };

    /// What each make shows of every one of its books.
    ghost sound: { (x : Self) → Sound (meaning x) };

    /// Enters an order and answers its number.
    fn enter(&mut self, body: Body) -> Result<u32, BookRefusal>
        ensures answer { result ≡ enter_answer (meaning self.old) }
        ensures after { meaning self.new ≡ enter_after (meaning self.old) body };

    /// Takes a quantity from the live order of a number, which leaves at 0.
    fn cut(&mut self, number: u32, quantity: u32) -> Result<(), BookRefusal>
        ensures answer { result ≡ cut_answer (meaning self.old) number quantity }
        ensures after { meaning self.new ≡ cut_after (meaning self.old) number quantity };

    /// The live order of a number.
    fn find(&self, number: u32) -> Option<Live>
        ensures { seen result ≡ found (meaning self.now) number };

    /// The order at place `k` of a side, counted from 1.
    fn rank(&self, side: Side, k: usize) -> Option<Live>
        ensures value { seen result ≡ rank_of (meaning self.now) side k }
        ensures place { StandsAt (meaning self.now) side k (seen result) };

    /// What is bought and what is sold at a limit of `m` ticks.
    // The two come as a pair, as the rules say it; the price makes `Quantities` of it at once, and nothing else keeps the pair.
    fn at_limit(&self, m: u32) -> (u32, u32)
        ensures bought { result.0 ≡ bought_at (meaning self.now) m }
        ensures sold { result.1 ≡ sold_at (meaning self.now) m };

    /// How many orders the book has places for.
    fn places(&self) -> usize
        ensures { result ≡ (meaning self.now).places };

    /// The last number that the book gave out.
    fn last(&self) -> u32
        ensures { result ≡ (meaning self.now).last };
}
