// Entry, cut and withdrawal on any book.
ghost use Rattle.std.specs.Prelude.{◌≡◌};
ghost use Rattle.trading.specs.Replies.{entry_limit, outcome};
ghost use Rattle.trading.specs.declared.calls.Call.TheVariants.{Entry as AskEntry, Cut as AskCut, Withdrawal as AskWithdrawal};
ghost use Rattle.engine.specs.Messages.{entry_reply, cut_reply, withdrawal_reply};

use book::{Body, BookRefusal, MAX_QUANTITY, OrderBook, Side};
use session::{Session, SessionRefusal};
use trading::Refusal;

/// The limit of an entry in ticks: its quantity is judged, then its price.
fn judge_entry(session: Session, quantity: u32, price: u32) -> Result<u32, SessionRefusal>
    ensures { result ≡ entry_limit session.tick quantity price }
{
    if !(1..=MAX_QUANTITY).contains(&quantity) {
        return Err(SessionRefusal::QuantityRange);
    }
    Ok(session.judge(price)?)
}

/// Enters an order at a price in centavos and answers its number.
pub fn entry<B: OrderBook>(
    book: &mut B,
    session: Session,
    side: Side,
    quantity: u32,
    price: u32,
) -> Result<u32, Refusal>
    ensures answer { entry_reply result ≡ (outcome session.tick session.scarcity 0 (B.meaning book.old) (AskEntry side quantity price)).reply }
    ensures after { B.meaning book.new ≡ (outcome session.tick session.scarcity 0 (B.meaning book.old) (AskEntry side quantity price)).after }
{
    let limit = judge_entry(session, quantity, price)?;
    let Some(body) = Body::new(side, limit, quantity) else {
        unreachable()
    };
    Ok(book.enter(body)?)
}

/// Takes contracts from an order, which leaves at 0.
pub fn cut<B: OrderBook>(book: &mut B, number: u32, quantity: u32) -> Result<(), Refusal>
    ensures answer { cut_reply result ≡ (outcome 0 0 0 (B.meaning book.old) (AskCut number quantity)).reply }
    ensures after { B.meaning book.new ≡ (outcome 0 0 0 (B.meaning book.old) (AskCut number quantity)).after }
{
    book.cut(number, quantity)?;
    Ok(())
}

/// Takes all that an order holds.
pub fn withdrawal<B: OrderBook>(book: &mut B, number: u32) -> Result<(), Refusal>
    ensures answer { withdrawal_reply result ≡ (outcome 0 0 0 (B.meaning book.old) (AskWithdrawal number)).reply }
    ensures after { B.meaning book.new ≡ (outcome 0 0 0 (B.meaning book.old) (AskWithdrawal number)).after }
{
    let live = book.find(number).ok_or(BookRefusal::UnknownOrder)?;
    book.cut(number, live.body.quantity)?;
    Ok(())
}
