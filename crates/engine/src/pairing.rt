// The trades of a volume, one after another.
ghost use Rattle.std.specs.Prelude.{◌≡◌, ◌-◌, ◌≤◌, length};
ghost use Rattle.rules.specs.Trades.{trades_at};
ghost use Rattle.trading.specs.Replies.{written};
ghost use Rattle.engine.specs.Pairings.{At, Refilled, Placed, Next, starting};

use crate::fronts::{Front, Fronts};
use book::{OrderBook, Side};
use note::Trade;

/// Nothing is open, or nothing is left to lay.
const NOTHING: u32 = 0;

impl Front {
    /// The front with its first fill open, if there is one.
    fn refilled<B: OrderBook>(self, book: &B, side: Side) -> Front
        requires { At side (B.meaning book.now).orders self }
        ensures { Refilled side (B.meaning book.now).orders self result }
    {
        if self.open > NOTHING || self.left == NOTHING {
            return self;
        }
        match book.rank(side, self.rank + 1) {
            Some(order) => {
                let open = self.left.min(order.body.quantity);
                Front {
                    rank: self.rank + 1,
                    number: order.number,
                    open,
                    left: self.left - open,
                }
            }
            None => self,
        }
    }

    /// The front with so much less open.
    fn lessened(self, quantity: u32) -> Front
        requires { quantity ≤ self.«open» }
        ensures { result ≡ record { rank = self.rank; number = self.number; «open» = self.«open» - quantity; left = self.left } }
    {
        Front {
            open: self.open - quantity,
            ..self
        }
    }
}

/// The next trade: of the first order still to be filled on each side, the smaller of their open fills.
fn next_trade<B: OrderBook>(book: &B, fronts: &mut Fronts) -> Option<Trade>
    requires { Placed (B.meaning book.now).orders fronts.old }
    ensures { Next (B.meaning book.now).orders fronts.old result fronts.new }
{
    let buys = fronts.buys.refilled(book, Side::Buy);
    let sells = fronts.sells.refilled(book, Side::Sell);
    let quantity = buys.open.min(sells.open);
    if quantity == NOTHING {
        return None;
    }
    fronts.buys = buys.lessened(quantity);
    fronts.sells = sells.lessened(quantity);
    Some(Trade {
        buy: buys.number,
        sell: sells.number,
        quantity,
    })
}

/// The fronts before the first trade of a volume.
fn begin(volume: u32) -> Fronts
    ensures { result ≡ starting volume }
{
    let front = Front {
        rank: 0,
        number: 0,
        open: 0,
        left: volume,
    };
    Fronts {
        buys: front,
        sells: front,
    }
}

/// How many trades the volume makes.
// Counted in a loop: of an iterator made of a closure that moves the fronts, a proof would know nothing.
pub(crate) fn count_trades<B: OrderBook>(book: &B, volume: u32) -> usize
    ensures { result ≡ length (trades_at volume (B.meaning book.now).orders) }
{
    let mut fronts = begin(volume);
    let mut count = 0usize;
    while let Some(_trade) = next_trade(book, &mut fronts) {
        count += 1;
    }
    count
}

/// Writes the trades of the volume into the register from its first place on; later places stay.
pub(crate) fn write_trades<B: OrderBook>(book: &B, volume: u32, register: &mut [Trade])
    requires { length (trades_at volume (B.meaning book.now).orders) ≤ length register.old }
    ensures { register.new ≡ written (trades_at volume (B.meaning book.now).orders) register.old }
{
    let mut fronts = begin(volume);
    for place in register.iter_mut() {
        let Some(trade) = next_trade(book, &mut fronts) else {
            return;
        };
        *place = trade;
    }
}
