// A run of the orders of one side, in rank.
ghost use Rattle.std.specs.Prelude.{◌≡◌, ◌<◌, ◌≤◌, true, [], IfOk, vec_len, vec_capacity};
ghost use Rattle.ranking.specs.Runs.{placed, in_rank};
ghost use Rattle.book.specs.Meaning.{order_of, seen, is_side, quantity_at, cut_in as without};
ghost use Rattle.book.specs.Ranks.{before, at_place};
ghost use Rattle.book.specs.Runs.{all_of, run_cut, run_after};
ghost use Rattle.ladder.specs.Ladders.{orders_of};

use book::{BookRefusal, Live, OneSide, SideOrder, cut_in, trades_at};
use ranking::settle_last;
use std::alloc::{AllocError, Global};

/// The orders of one side, in rank.
// How many orders there is room for is a fact of the ladder, which has the places: what changes the run says that the room stays.
#[derive(Drop)]
pub(crate) struct Queue<S: OneSide> {
    pub(crate) run: Vec<SideOrder<S>>,
    ghost ranked: { in_rank (before S.SIDE) (orders_of run.items) ≡ true },
    ghost sided: { all_of S.SIDE (orders_of run.items) ≡ true },
}

impl<S: OneSide> Queue<S> {
    /// No orders, with room for so many.
    pub(crate) fn new(heap: Global, places: usize) -> Result<Queue<S>, AllocError>
        ensures { IfOk result (λ queue. (queue.run.items ≡ []) × (places ≤ vec_capacity queue.run)) }
    {
        let run = Vec::with_capacity(heap, places)?;
        Ok(Queue { run })
    }

    /// Places an order of the side, for which there is room.
    pub(crate) fn push(&mut self, live: Live)
        requires room { vec_len self.old.run < vec_capacity self.old.run }
        requires side { is_side S.SIDE live.body.side ≡ true }
        ensures orders { orders_of self.new.run.items ≡ placed (before S.SIDE) (order_of live) (orders_of self.old.run.items) }
        ensures capacity { vec_capacity self.new.run ≡ vec_capacity self.old.run }
    {
        self.run.push_reserved(SideOrder::new(live));
        settle_last(&mut self.run);
    }

    /// Cuts the order of a number; `None` if no order here has it.
    pub(crate) fn cut(&mut self, number: u32, quantity: u32) -> Option<Result<(), BookRefusal>>
        ensures answer { result ≡ run_cut (orders_of self.old.run.items) number quantity }
        ensures after { orders_of self.new.run.items ≡ run_after result (without (orders_of self.old.run.items) number quantity) (orders_of self.old.run.items) }
        ensures capacity { vec_capacity self.new.run ≡ vec_capacity self.old.run }
    {
        cut_in(&mut self.run, number, quantity)
    }

    /// The order at place `k`, counted from 1.
    pub(crate) fn order_at(&self, k: usize) -> Option<Live>
        ensures { seen result ≡ at_place (orders_of self.now.run.items) k }
    {
        let order = self.run.get(k.checked_sub(1)?)?;
        Some(order.live)
    }

    /// The quantity of the orders that trade at `m` ticks: up to the first that does not.
    pub(crate) fn quantity(&self, m: u32) -> u32
        requires { vec_len self.now.run ≤ 256 }
        ensures { result ≡ quantity_at S.SIDE m (orders_of self.now.run.items) }
    {
        // Ends at the first order that does not trade: in rank, none behind it does. A `for` and no chain of `take_while` and `sum`: that the
        // sum fits is known at each order from those before it.
        let mut sum = 0u32;
        for order in self.run.iter() {
            let body = order.live.body;
            if !trades_at(S::SIDE, m, body.limit) {
                return sum;
            }
            sum += body.quantity;
        }
        sum
    }
}
