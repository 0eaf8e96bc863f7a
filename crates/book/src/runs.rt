// Runs of items that hold a live order each: what the makes of book share.
ghost use Rattle.std.specs.Prelude.{◌≡◌, ◌<◌, map, length, None, Some, Ok, Err, vec_capacity, MatchOption, MatchResult};
ghost use Rattle.book.specs.Meaning.{Order, order_of, seen, find_in, cut_in, cut_judged, left_of};
ghost use Rattle.book.specs.Runs.{Stands, run_cut, run_after, those};

use crate::orders::Live;
use crate::refusals::BookRefusal;
use crate::sides::SideOrder;

/// A cut that takes nothing.
const EMPTY_CUT: u32 = 0;

/// An item of a run that holds a live order.
pub trait Holds {
    ghost order: { Self → Order };

    /// The order.
    fn live(&self) -> Live
        ensures { order_of result ≡ order self.now };

    /// Puts another order in the place of the one it holds.
    fn hold(&mut self, live: Live)
        ensures { order self.new ≡ order_of live };
}

impl Holds for Live {
    ghost order = { λ x. order_of x };

    fn live(&self) -> Live {
        *self
    }

    fn hold(&mut self, live: Live) {
        *self = live;
    }
}

impl<S> Holds for SideOrder<S> {
    ghost order = { λ x. order_of x.live };

    fn live(&self) -> Live {
        self.live
    }

    fn hold(&mut self, live: Live) {
        self.live = live;
    }
}

/// Where the order of a number stands in the run, counted from 0.
pub fn position<H: Holds>(run: &[H], number: u32) -> Option<usize>
    ensures { MatchOption result (find_in (map H.order run.now) number ≡ None) (λ i. (i < length run.now) × Stands (map H.order run.now) number i) }
{
    run.iter().position(|item| item.live().number == number)
}

/// The order of a number in the run.
pub fn find_in<H: Holds>(run: &[H], number: u32) -> Option<Live>
    ensures { seen result ≡ find_in (map H.order run.now) number }
{
    let i = position(run, number)?;
    Some(run[i].live())
}

/// What a cut leaves of a live order; `None` if it leaves nothing.
pub fn cut_live(live: Live, quantity: u32) -> Result<Option<Live>, BookRefusal>
    ensures { MatchResult result (λ left. (cut_judged (Some (order_of live)) quantity ≡ Ok tt) × (those (seen left) ≡ left_of (order_of live) quantity)) (λ why. cut_judged (Some (order_of live)) quantity ≡ Err why) }
{
    if quantity == EMPTY_CUT || quantity > live.body.quantity {
        return Err(BookRefusal::CutRange);
    }
    match live.body.less(quantity) {
        Some(body) => Ok(Some(Live { body, ..live })),
        None => Ok(None),
    }
}

/// Cuts the order of a number in the run; `None` if the run has none.
pub fn cut_in<H: Holds + Copy>(
    run: &mut Vec<H>,
    number: u32,
    quantity: u32,
) -> Option<Result<(), BookRefusal>>
    ensures answer { result ≡ run_cut (map H.order run.old.items) number quantity }
    ensures after { map H.order run.new.items ≡ run_after result (cut_in (map H.order run.old.items) number quantity) (map H.order run.old.items) }
    ensures capacity { vec_capacity run.new ≡ vec_capacity run.old }
{
    let i = position(run, number)?;
    let mut item = run[i];
    match cut_live(item.live(), quantity) {
        Ok(Some(live)) => {
            item.hold(live);
            run[i] = item;
        }
        Ok(None) => {
            let _ = run.remove(i);
        }
        Err(why) => return Some(Err(why)),
    }
    Some(Ok(()))
}
