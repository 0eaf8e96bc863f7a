// The equilibrium price of a book, and what it would trade.
ghost use Rattle.std.specs.Prelude.{◌≡◌};
ghost use Rattle.rules.specs.Literal.{equilibrium};
ghost use Rattle.rules.specs.Schedule.{offered};
ghost use Rattle.price.specs.Indications.{indication_answer, Indicated};

use crate::indications::Indication;
use crate::markets::Market;
use crate::quantities::Quantities;
use book::{OrderBook, Side};
use session::{Session, SessionRefusal};

/// The equilibrium price in ticks, or `None` if no admissible price has volume above 0.
#[tactic(auto, using(crate::proofs::Bounds::no_buys, crate::proofs::Bounds::no_sells))]
pub fn equilibrium_price<B: OrderBook>(book: &B, session: Session) -> Option<u32>
    ensures { result ≡ equilibrium (offered (B.meaning book.now) session.tick session.scarcity) }
{
    let buy = book.rank(Side::Buy, 1)?;
    let sell = book.rank(Side::Sell, 1)?;
    let least = sell.body.limit;
    let most = buy.body.limit.min(session.ceiling());
    if least > most {
        return None;
    }
    let market = Market { book, least, most };
    Some(market.price())
}

/// The price, volume and imbalance that an uncrossing would have now, refused if nothing would trade.
#[tactic(auto, using(crate::proofs::Outcomes::price_small))]
pub fn indication<B: OrderBook>(book: &B, session: Session) -> Result<Indication, SessionRefusal>
    ensures answer { result ≡ indication_answer (B.meaning book.now) session.tick session.scarcity }
    ensures indicated { Indicated (B.meaning book.now) session.tick session.scarcity result }
{
    let m = equilibrium_price(book, session).ok_or(SessionRefusal::NoVolume)?;
    let at = Quantities::at(book, m);
    Ok(Indication {
        price: m * session.tick,
        volume: at.volume(),
        imbalance: at.imbalance(),
    })
}
