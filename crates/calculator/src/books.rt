// A plain book, and what each call does to it.
ghost use Rattle.std.specs.Prelude.{◌≡◌, []};

use crate::plain::{PlainOrder, numbered, order};
use crate::prices::calculate;
use crate::refusals::PlainRefusal;
use crate::trades::trade_one;
use book::Side;
use note::Trade;
use price::Indication;
use std::alloc::{AllocError, Global};

/// What a call on a plain book is answered, if it is not refused.
#[derive(Clone, Copy, Debug, PartialEq, Eq)]
pub enum PlainReply {
    Entered(u32),
    Cut,
    Withdrawn,
    Indicated(Indication),
    Uncrossed(Indication),
}

/// Orders by number: place 0 has the order 1. An order that has left holds 0.
// They are a run and no map by number, since the price is calculated over a run, and an indication allocates nothing. An order that has
// left stays in its place, with the 0 contracts that it holds: so it trades nowhere, with no case of its own.
// The tick and the scarcity price are numbers here and no session: those of a session have ranges, and these may be any.
#[derive(Drop)]
pub struct PlainBook {
    pub orders: Vec<PlainOrder>,
    /// The trades of the last uncrossing.
    pub trades: Vec<Trade>,
    places: usize,
    tick: u32,
    scarcity: u32,
}

impl PlainBook {
    /// A book with no orders.
    pub fn new(heap: Global, places: usize, tick: u32, scarcity: u32) -> PlainBook
        ensures orders { result.orders.items ≡ [] }
        ensures trades { result.trades.items ≡ [] }
        ensures places { result.places ≡ places }
        ensures tick { result.tick ≡ tick }
        ensures scarcity { result.scarcity ≡ scarcity }
    {
        PlainBook {
            orders: Vec::new(heap),
            trades: Vec::new(heap),
            places,
            tick,
            scarcity,
        }
    }

    fn live(&self) -> usize {
        self.orders
            .iter()
            .filter(|order| order.quantity > 0)
            .count()
    }

    /// The live order of a number.
    fn order_of(&mut self, number: u32) -> Result<&mut PlainOrder, PlainRefusal> {
        numbered(&mut self.orders, number)
            .filter(|order| order.quantity > 0)
            .ok_or(PlainRefusal::UnknownOrder)
    }

    /// The limit, in ticks, of an order that the book takes.
    fn judge(&self, quantity: u32, price: u32) -> Result<u32, PlainRefusal> {
        if !(1..=6_858).contains(&quantity) {
            return Err(PlainRefusal::QuantityRange);
        }
        if !(1..=10_000_000).contains(&price) {
            return Err(PlainRefusal::PriceRange);
        }
        let tick = self.tick.max(1);
        if !price.is_multiple_of(tick) {
            return Err(PlainRefusal::OffTick);
        }
        if self.live() >= self.places {
            return Err(PlainRefusal::Full);
        }
        Ok(price / tick)
    }

    // A refusal is one of the answers, and want of memory is a failure: so one result stands within the other, and `?` hands on the
    // failure. A refusal, which is handed on as an answer, is taken out by a `match`, here and at an uncrossing.
    pub fn entry(
        &mut self,
        side: Side,
        quantity: u32,
        price: u32,
    ) -> Result<Result<PlainReply, PlainRefusal>, AllocError> {
        let limit = match self.judge(quantity, price) {
            Ok(limit) => limit,
            Err(why) => return Ok(Err(why)),
        };
        self.orders.push(order(side, quantity, limit))?;
        let number = u32::try_from(self.orders.len()).unwrap_or(u32::MAX);
        Ok(Ok(PlainReply::Entered(number)))
    }

    pub fn cut(&mut self, number: u32, quantity: u32) -> Result<PlainReply, PlainRefusal> {
        let order = self.order_of(number)?;
        if quantity == 0 {
            return Err(PlainRefusal::CutRange);
        }
        order.quantity = order
            .quantity
            .checked_sub(quantity)
            .ok_or(PlainRefusal::CutRange)?;
        Ok(PlainReply::Cut)
    }

    pub fn withdrawal(&mut self, number: u32) -> Result<PlainReply, PlainRefusal> {
        let order = self.order_of(number)?;
        order.quantity = 0;
        Ok(PlainReply::Withdrawn)
    }

    /// What an uncrossing would answer.
    fn told(&self) -> Result<Indication, PlainRefusal> {
        calculate(&self.orders, self.tick, self.scarcity)
            .map(|(_, told)| told)
            .ok_or(PlainRefusal::NoVolume)
    }

    pub fn indication(&self) -> Result<PlainReply, PlainRefusal> {
        self.told().map(PlainReply::Indicated)
    }

    /// Trades the volume one contract at a time, each between the best buy and the best sell that still hold one.
    pub fn uncrossing(
        &mut self,
        heap: Global,
        places: usize,
    ) -> Result<Result<PlainReply, PlainRefusal>, AllocError> {
        let told = match self.told() {
            Ok(told) => told,
            Err(why) => return Ok(Err(why)),
        };
        let mut orders = self.orders.clone()?;
        let mut trades = Vec::new(heap);
        for _ in 0..told.volume {
            trade_one(&mut orders, &mut trades)?;
        }
        if trades.len() > places {
            return Ok(Err(PlainRefusal::RegisterShort));
        }
        self.orders = orders;
        self.trades = trades;
        Ok(Ok(PlainReply::Uncrossed(told)))
    }
}
