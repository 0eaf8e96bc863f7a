// The rows of a table.
ghost use Rattle.std.specs.Prelude.{◌≡◌, ◌<◌, ◌≤◌, [], ◌∷◌, ◌++◌, is_ok, if◌then◌else◌, IfOk, vec_len, vec_capacity};
ghost use Rattle.std.specs.List.{remove};
ghost use Rattle.book.specs.Meaning.{order_of, find_in, cut_in, cut_judged};
ghost use Rattle.table.specs.Aheads.{aheads_of};
ghost use Rattle.table.specs.Tables.{orders_of, aheads_in};

use crate::counts::{count_ahead, shift_behind};
use crate::row::Row;
use book::{BookRefusal, Live, cut_live, position};
use std::alloc::{AllocError, Global};

/// Rows in the order of entry, each with its count.
// How many rows there is room for is a fact of the table, which has the places: what changes the run says that the room stays.
#[derive(Drop)]
pub(crate) struct Rows {
    pub(crate) run: Vec<Row>,
    ghost counts: { aheads_in run.items ≡ aheads_of (orders_of run.items) },
}

impl Rows {
    /// No rows, with room for so many.
    pub(crate) fn new(heap: Global, places: usize) -> Result<Rows, AllocError>
        ensures { IfOk result (λ rows. (rows.run.items ≡ []) × (places ≤ vec_capacity rows.run)) }
    {
        let run = Vec::with_capacity(heap, places)?;
        Ok(Rows { run })
    }

    /// Adds the row of an order that there is room for.
    pub(crate) fn push(&mut self, live: Live)
        requires room { vec_len self.old.run < vec_capacity self.old.run }
        requires few { vec_len self.old.run ≤ 256 }
        ensures orders { orders_of self.new.run.items ≡ orders_of self.old.run.items ++ order_of live ∷ [] }
        ensures capacity { vec_capacity self.new.run ≡ vec_capacity self.old.run }
    {
        let ahead = count_ahead(&self.run, &live);
        shift_behind(&mut self.run, &live, |ahead| ahead.saturating_add(1));
        self.run.push_reserved(Row { live, ahead });
    }

    /// Takes out the row of place `i`, counted from 0.
    fn take_out(&mut self, i: usize)
        requires { i < vec_len self.old.run }
        ensures orders { orders_of self.new.run.items ≡ remove (orders_of self.old.run.items) i }
        ensures capacity { vec_capacity self.new.run ≡ vec_capacity self.old.run }
    {
        let row = self.run.remove(i);
        shift_behind(&mut self.run, &row.live, |ahead| ahead.saturating_sub(1));
    }

    /// Cuts the order of a number, whose row leaves at 0.
    pub(crate) fn cut(&mut self, number: u32, quantity: u32) -> Result<(), BookRefusal>
        ensures answer { result ≡ cut_judged (find_in (orders_of self.old.run.items) number) quantity }
        ensures orders { orders_of self.new.run.items ≡ (if is_ok result then cut_in (orders_of self.old.run.items) number quantity else orders_of self.old.run.items) }
        ensures capacity { vec_capacity self.new.run ≡ vec_capacity self.old.run }
    {
        let Some(i) = position(&self.run, number) else {
            return Err(BookRefusal::UnknownOrder);
        };
        let Row { live, ahead } = self.run[i];
        match cut_live(live, quantity)? {
            Some(live) => self.run[i] = Row { live, ahead },
            None => self.take_out(i),
        }
        Ok(())
    }
}
