// How the orders of a side rank.
ghost use Rattle.std.specs.Prelude.{◌≡◌};
ghost use Rattle.book.specs.Meaning.{order_of, meets};
ghost use Rattle.book.specs.Ranks.{before};
ghost use Rattle.book.specs.declared.orders.Side.{Side};
ghost use Rattle.book.specs.declared.orders.Side.TheVariants.{Buy as OfBuys, Sell as OfSells};
ghost use Rattle.std.proofs.Common.{rules};

use crate::orders::{Live, Side};
use ranking::Ranked;
use std::marker::PhantomData;

/// Whether an order of a side goes before another of it: by a better limit, or an equal one and a lower number.
// Compared by hand: a derived order has one direction, and which limit is better depends on the side.
pub fn outranks(side: Side, order: &Live, other: &Live) -> bool
    ensures { result ≡ before side (order_of order.now) (order_of other.now) }
{
    let better = match side {
        Side::Buy => order.body.limit > other.body.limit,
        Side::Sell => order.body.limit < other.body.limit,
    };
    better || order.body.limit == other.body.limit && order.number < other.number
}

/// Whether an order of a side and a limit trades at `m` ticks: a buy at its limit and below, a sell at its limit and above.
pub fn trades_at(side: Side, m: u32, limit: u32) -> bool
    ensures { result ≡ meets side m limit }
{
    match side {
        Side::Buy => m <= limit,
        Side::Sell => limit <= m,
    }
}

/// A side, as a type.
pub trait OneSide: Copy {
    ghost SIDE: { Side };

    /// The side.
    const SIDE: Side;
}

/// The side of the buys.
#[derive(Clone, Copy)]
pub struct Buys;

/// The side of the sells.
#[derive(Clone, Copy)]
pub struct Sells;

impl OneSide for Buys {
    ghost SIDE = { OfBuys };

    const SIDE: Side = Side::Buy;
}

impl OneSide for Sells {
    ghost SIDE = { OfSells };

    const SIDE: Side = Side::Sell;
}

/// A live order among those of one side.
#[derive(Clone, Copy)]
pub struct SideOrder<S> {
    pub live: Live,
    side: PhantomData<S>,
}

impl<S: OneSide> SideOrder<S> {
    /// The order among those of the side.
    pub fn new(live: Live) -> SideOrder<S>
        ensures { result.live ≡ live }
    {
        let side = PhantomData;
        SideOrder { live, side }
    }
}

impl<S: OneSide> Ranked for SideOrder<S> {
    ghost before = { λ x y. before S.SIDE (order_of x.live) (order_of y.live) };

    ghost price = { λ x. x.live.body.limit };

    ghost number = { λ x. x.live.number };

    ghost irreflexive = { Prim.search rules };

    ghost transitive = { Prim.search rules };

    ghost level_price = { Prim.search rules };

    ghost level_number = { Prim.search rules };

    ghost alike = { Prim.search rules };

    fn goes_before(&self, other: &SideOrder<S>) -> bool {
        outranks(S::SIDE, &self.live, &other.live)
    }
}
