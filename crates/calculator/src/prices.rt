// A calculator of the auction price that knows nothing of the search: it tries every admissible price.
use crate::plain::PlainOrder;
use book::Side;
use price::Indication;

/// What the imbalances of the kept prices are.
#[derive(Clone, Copy, Debug, PartialEq, Eq)]
pub enum Ending {
    Positive,
    Negative,
    Mixed,
    Level,
}

/// What is bought and what is sold at a price.
// Of its own, and so is which orders trade: a trial compares them with those of the books and of the search.
#[derive(Clone, Copy)]
struct Offered {
    bought: u32,
    sold: u32,
}

impl Offered {
    fn volume(self) -> u32 {
        self.bought.min(self.sold)
    }

    /// The imbalance without its sign.
    fn size(self) -> u32 {
        self.bought.abs_diff(self.sold)
    }

    fn imbalance(self) -> i64 {
        i64::from(self.bought) - i64::from(self.sold)
    }
}

impl PlainOrder {
    /// Whether the order trades at `m` ticks.
    fn trades_at(&self, m: u32) -> bool {
        match self.side {
            Side::Buy => m <= self.limit,
            Side::Sell => self.limit <= m,
        }
    }
}

/// The contracts of a side's orders that trade at `m` ticks.
fn quantity_of(orders: &[PlainOrder], side: Side, m: u32) -> u32 {
    orders
        .iter()
        .filter(|order| order.side == side && order.trades_at(m))
        .map(|order| order.quantity)
        .fold(0, u32::saturating_add)
}

fn offered_at(orders: &[PlainOrder], m: u32) -> Offered {
    Offered {
        bought: quantity_of(orders, Side::Buy, m),
        sold: quantity_of(orders, Side::Sell, m),
    }
}

/// The prices from 1 to `top`, in ticks, of the largest volume and then of the smallest imbalance.
#[derive(Clone, Copy)]
struct Kept<'a> {
    orders: &'a [PlainOrder],
    top: u32,
    volume: u32,
    size: u32,
}

impl<'a> Kept<'a> {
    /// The kept prices; `None` if nothing trades at any price.
    fn of(orders: &'a [PlainOrder], top: u32) -> Option<Kept<'a>> {
        let volume = (1..=top)
            .map(|m| offered_at(orders, m).volume())
            .filter(|volume| *volume > 0)
            .max()?;
        let size = (1..=top)
            .map(|m| offered_at(orders, m))
            .filter(|at| at.volume() == volume)
            .map(|at| at.size())
            .min()?;
        Some(Kept {
            orders,
            top,
            volume,
            size,
        })
    }

    /// What is bought and sold at a price, if that is kept.
    fn at(&self, m: u32) -> Option<Offered> {
        let at = offered_at(self.orders, m);
        Some(at).filter(|at| at.volume() == self.volume && at.size() == self.size)
    }

    /// The lowest kept price at which a test holds of what is bought and sold.
    fn lowest<F: Fn(Offered) -> bool>(&self, is_sought: F) -> Option<u32>
        requires { F.IsAlwaysCallable is_sought }
    {
        (1..=self.top).find(|m| self.at(*m).is_some_and(|at| is_sought(at)))
    }

    /// The highest such price.
    fn highest<F: Fn(Offered) -> bool>(&self, is_sought: F) -> Option<u32>
        requires { F.IsAlwaysCallable is_sought }
    {
        (1..=self.top)
            .rev()
            .find(|m| self.at(*m).is_some_and(|at| is_sought(at)))
    }

    /// The price that the tie rule picks.
    fn tie(&self) -> Option<(Ending, u32)> {
        let positive = self.highest(|at| at.bought > at.sold);
        let negative = self.lowest(|at| at.bought < at.sold);
        let tied = match (positive, negative) {
            (None, None) => {
                let (lowest, highest) = (self.lowest(|_| true)?, self.highest(|_| true)?);
                (Ending::Level, nearest(lowest, highest)?)
            }
            (None, Some(lowest)) => (Ending::Negative, lowest),
            (Some(highest), None) => (Ending::Positive, highest),
            (Some(highest), Some(lowest)) => (Ending::Mixed, nearest(highest, lowest)?),
        };
        Some(tied)
    }
}

/// The price from `low` to `high` that is nearest to the middle of both, the higher of two that are equally near.
fn nearest(low: u32, high: u32) -> Option<u32> {
    let twice = u64::from(low) + u64::from(high);
    // Of equal keys the first is picked, and so the higher price.
    (low..=high)
        .rev()
        .min_by_key(|m| (2 * u64::from(*m)).abs_diff(twice))
}

/// The ending and the indication; `None` if nothing trades.
// The tick and the scarcity price are numbers here and no session: those of a session have ranges, and these may be any.
pub fn calculate(orders: &[PlainOrder], tick: u32, scarcity: u32) -> Option<(Ending, Indication)> {
    let kept = Kept::of(orders, scarcity / tick.max(1))?;
    let (ending, m) = kept.tie()?;
    let at = offered_at(orders, m);
    let told = Indication {
        price: m.saturating_mul(tick),
        volume: at.volume(),
        imbalance: at.imbalance(),
    };
    Some((ending, told))
}
