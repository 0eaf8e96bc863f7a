// The table is a book.
ghost use Rattle.std.specs.Prelude.{◌≡◌, min, IfOk, vec_len};
ghost use Rattle.book.specs.Meaning.{fresh};
ghost use Rattle.table.specs.Soundness.{table_sound};
ghost use Rattle.table.specs.Tables.{table_book};

use crate::counts::{order_behind, quantity_of};
use crate::rows::Rows;
use crate::tables::Table;
use book::{Body, BookRefusal, Intake, Live, OrderBook, Side, find_in};
use std::alloc::{AllocError, Global};

impl Table {
    /// A fresh table of a run of places, of which it offers at most 256.
    pub fn new(heap: Global, places: usize) -> Result<Table, AllocError>
        ensures { IfOk result (λ b. table_book b.intake.places b.intake.last b.rows.run.items ≡ fresh (min places 256)) }
    {
        let intake = Intake::new(places);
        let rows = Rows::new(heap, intake.places)?;
        Ok(Table { intake, rows })
    }
}

impl OrderBook for Table {
    ghost meaning = { λ b. table_book b.intake.places b.intake.last b.rows.run.items };

    ghost sound = { λ b. table_sound b.intake.places b.intake.last (vec_len b.rows.run) b.rows.run.items b.rows.run.ok.0 b.intake.few b.intake.given b.fits b.rises };

    fn enter(&mut self, body: Body) -> Result<u32, BookRefusal> {
        let number = self.intake.number(self.rows.run.len())?;
        self.rows.push(Live { number, body });
        Ok(number)
    }

    fn cut(&mut self, number: u32, quantity: u32) -> Result<(), BookRefusal> {
        self.rows.cut(number, quantity)
    }

    fn find(&self, number: u32) -> Option<Live> {
        find_in(&self.rows.run, number)
    }

    fn rank(&self, side: Side, k: usize) -> Option<Live> {
        order_behind(&self.rows.run, side, k.checked_sub(1)?)
    }

    fn at_limit(&self, m: u32) -> (u32, u32) {
        (
            quantity_of(&self.rows.run, Side::Buy, m),
            quantity_of(&self.rows.run, Side::Sell, m),
        )
    }

    fn places(&self) -> usize {
        self.intake.places
    }

    fn last(&self) -> u32 {
        self.intake.last
    }
}
