// The prices of a book that trade, and the choice between them.
ghost use Rattle.std.specs.Prelude.{◌≡◌, ◌+◌, ◌≤◌};
ghost use Rattle.rules.specs.Crossings.{Crossing, LowestSame};
ghost use Rattle.rules.specs.Prices.{Chosen};
ghost use Rattle.rules.specs.Schedule.{schedule};
ghost use Rattle.price.specs.Crossed.{Crossed};
ghost use Rattle.price.specs.Steps.{TradedAt};

use crate::bisections::lowest;
use crate::quantities::{Quantities, middle};
use book::OrderBook;

/// The size of an imbalance of 0.
const LEVEL: u32 = 0;

/// A book and the prices that trade in it, in ticks: those from `least` to `most`.
#[derive(Drop)]
pub(crate) struct Market<'a, B: OrderBook> {
    pub(crate) book: &'a B,
    pub(crate) least: u32,
    pub(crate) most: u32,
    ghost crossed: { Crossed (schedule (B.meaning book.now).orders most) least most },
    ghost small: { most ≤ 10000000 },
}

impl<'a, B: OrderBook> Market<'a, B> {
    /// What is bought and sold at a price, or nothing at one that does not trade.
    // Two quantities of 0 and no `Option`: nothing trades at such a price, and it is compared with its neighbour all the same.
    fn traded_at(&self, m: u32) -> Quantities
        ensures { TradedAt (schedule (B.meaning self.now.book.now).orders self.now.most) m result }
    {
        if !(self.least..=self.most).contains(&m) {
            return Quantities { bought: 0, sold: 0 };
        }
        Quantities::at(self.book, m)
    }

    /// The highest price up to `most` at which no less is bought than sold, or the one below `least`.
    // No `Option`: the price below `least` is where the imbalance changes its sign then, and the next is looked at from there.
    fn crossing(&self) -> u32
        ensures crossing { Crossing (schedule (B.meaning self.now.book.now).orders self.now.most) result }
        ensures low { self.now.least ≤ result + 1 }
    {
        // The lowest price behind it is the lowest at which less is bought than sold.
        let behind = lowest(self.least, self.most + 1, |m| {
            let at = Quantities::at(self.book, m);
            at.bought < at.sold
        });
        behind - 1
    }

    /// The lowest price at which the same is bought and sold as at `p`, which trades.
    fn lowest_same(&self, p: u32) -> u32
        requires low { self.now.least ≤ p }
        requires high { p ≤ self.now.most }
        ensures { LowestSame (schedule (B.meaning self.now.book.now).orders self.now.most) p result }
    {
        let same = Quantities::at(self.book, p);
        lowest(self.least, p, |m| Quantities::at(self.book, m) == same)
    }

    /// The equilibrium price in ticks, by the two prices at the crossing: `p` and the next.
    pub(crate) fn price(&self) -> u32
        ensures { Chosen (schedule (B.meaning self.now.book.now).orders self.now.most) result }
    {
        let p = self.crossing();
        let here = self.traded_at(p);
        let next = self.traded_at(p + 1);
        if here.goes_up(next) {
            return p + 1;
        }
        if here.size() > LEVEL {
            return p;
        }
        middle(self.lowest_same(p), p)
    }
}
