// The best order of each side of any make of book.
ghost use Rattle.std.specs.Prelude.{◌≡◌};
ghost use Rattle.book.specs.Best.{best_of, between};
ghost use Rattle.book.specs.Meaning.{seen};
ghost use Rattle.book.specs.declared.orders.Side.TheVariants.{Buy as OfBuys, Sell as OfSells};

use crate::books::OrderBook;
use crate::orders::{Live, Side};

/// The best buy and the best sell, and how many contracts trade between them.
#[derive(Clone, Copy, Debug, PartialEq, Eq)]
pub struct TopOfBook {
    pub buy: Option<Live>,
    pub sell: Option<Live>,
    pub traded: u32,
}

/// What trades between a buy and a sell, if there are both.
fn traded(buy: Option<Live>, sell: Option<Live>) -> u32
    ensures { result ≡ between (seen buy) (seen sell) }
{
    match (buy, sell) {
        (Some(buy), Some(sell)) if sell.body.limit <= buy.body.limit => {
            buy.body.quantity.min(sell.body.quantity)
        }
        _ => 0,
    }
}

/// The best order of each side of the book, and what trades between them.
pub fn top_of_book<B: OrderBook>(book: &B) -> TopOfBook
    ensures buy { seen result.buy ≡ best_of (B.meaning book.now) OfBuys }
    ensures sell { seen result.sell ≡ best_of (B.meaning book.now) OfSells }
    ensures traded { result.traded ≡ between (best_of (B.meaning book.now) OfBuys) (best_of (B.meaning book.now) OfSells) }
{
    let buy = book.rank(Side::Buy, 1);
    let sell = book.rank(Side::Sell, 1);
    TopOfBook {
        buy,
        sell,
        traded: traded(buy, sell),
    }
}
