// What the quantities, bought and sold at a price, say.
ghost use Rattle.std.specs.Prelude.{◌≡◌, ◌+◌, ◌-◌, ◌<◌, ◌≤◌, min, pos, ◌-ℤ◌, MatchBool};
ghost use Rattle.book.specs.Meaning.{bought_at, sold_at};
ghost use Rattle.price.specs.Steps.{GoesUp, Stays};
ghost use Rattle.rules.specs.Schedule.{mean};

use book::OrderBook;
use session::rounded;

/// How many contracts are bought at a price, and how many are sold.
#[derive(Clone, Copy, PartialEq, Eq)]
pub(crate) struct Quantities {
    pub(crate) bought: u32,
    pub(crate) sold: u32,
}

impl Quantities {
    /// What a book has bought and sold at a limit of `m` ticks.
    pub(crate) fn at<B: OrderBook>(book: &B, m: u32) -> Quantities
        ensures bought { result.bought ≡ bought_at (B.meaning book.now) m }
        ensures sold { result.sold ≡ sold_at (B.meaning book.now) m }
    {
        let (bought, sold) = book.at_limit(m);
        Quantities { bought, sold }
    }

    /// What trades: the smaller of what is bought and what is sold.
    pub(crate) fn volume(self) -> u32
        ensures { result ≡ min self.bought self.sold }
    {
        self.bought.min(self.sold)
    }

    /// Bought minus sold, with its sign.
    pub(crate) fn imbalance(self) -> i64
        ensures { result ≡ pos self.bought -ℤ pos self.sold }
    {
        i64::from(self.bought) - i64::from(self.sold)
    }

    /// The imbalance without its sign.
    pub(crate) fn size(self) -> u32
        ensures { result ≡ (self.bought - self.sold) + (self.sold - self.bought) }
    {
        self.bought.abs_diff(self.sold)
    }

    /// Whether the next price is preferred: for its volume, or at the same volume for an imbalance that is no larger.
    // Written out as the rule says it: in an order of pairs the two sizes would have to change sides.
    pub(crate) fn goes_up(self, next: Quantities) -> bool
        ensures { MatchBool result (GoesUp self next) (Stays self next) }
    {
        let more = next.volume();
        let held = self.volume();
        more > held || more == held && next.size() <= self.size()
    }
}

/// The mean of two prices in ticks, to the nearest tick and half a tick upward.
pub(crate) fn middle(low: u32, high: u32) -> u32
    ensures { result ≡ mean low high }
{
    let mean = rounded(1, u64::from(low) + u64::from(high), 2).unwrap();
    u32::try_from(mean).unwrap()
}
