// The ladder is a book.
ghost use Rattle.std.specs.Prelude.{◌≡◌, min, IfOk, vec_len};
ghost use Rattle.book.specs.Meaning.{fresh};
ghost use Rattle.ladder.specs.Ladders.{ladder_book};
ghost use Rattle.ladder.specs.Soundness.{ladder_sound};

use crate::ladders::Ladder;
use crate::queues::Queue;
use book::{Body, BookRefusal, Intake, Live, OrderBook, Side, find_in};
use std::alloc::{AllocError, Global};

impl Ladder {
    /// A fresh ladder of two runs. It offers as many places as the shorter has, and at most 256.
    pub fn new(heap: Global, buy_places: usize, sell_places: usize) -> Result<Ladder, AllocError>
        ensures { IfOk result (λ b. ladder_book b.intake.places b.intake.last b.buys.run.items b.sells.run.items ≡ fresh (min (min buy_places sell_places) 256)) }
    {
        let intake = Intake::new(buy_places.min(sell_places));
        let buys = Queue::new(heap, intake.places)?;
        let sells = Queue::new(heap, intake.places)?;
        Ok(Ladder {
            intake,
            buys,
            sells,
        })
    }
}

impl OrderBook for Ladder {
    ghost meaning = { λ b. ladder_book b.intake.places b.intake.last b.buys.run.items b.sells.run.items };

    ghost sound = { λ b. ladder_sound b.intake.places b.intake.last (vec_len b.buys.run) (vec_len b.sells.run) b.buys.run.items b.sells.run.items b.buys.run.ok.0 b.sells.run.ok.0 b.intake.few b.intake.given b.fits b.rises };

    fn enter(&mut self, body: Body) -> Result<u32, BookRefusal> {
        let count = self.buys.run.len() + self.sells.run.len();
        let number = self.intake.number(count)?;
        let live = Live { number, body };
        match body.side {
            Side::Buy => self.buys.push(live),
            Side::Sell => self.sells.push(live),
        }
        Ok(number)
    }

    fn cut(&mut self, number: u32, quantity: u32) -> Result<(), BookRefusal> {
        if let Some(answer) = self.buys.cut(number, quantity) {
            return answer;
        }
        self.sells
            .cut(number, quantity)
            .unwrap_or(Err(BookRefusal::UnknownOrder))
    }

    fn find(&self, number: u32) -> Option<Live> {
        // A `match`: with `or_else` it is out of the proof's reach what the closure, which is lent a run, answers.
        match find_in(&self.buys.run, number) {
            Some(live) => Some(live),
            None => find_in(&self.sells.run, number),
        }
    }

    fn rank(&self, side: Side, k: usize) -> Option<Live> {
        match side {
            Side::Buy => self.buys.order_at(k),
            Side::Sell => self.sells.order_at(k),
        }
    }

    fn at_limit(&self, m: u32) -> (u32, u32) {
        (self.buys.quantity(m), self.sells.quantity(m))
    }

    fn places(&self) -> usize {
        self.intake.places
    }

    fn last(&self) -> u32 {
        self.intake.last
    }
}
