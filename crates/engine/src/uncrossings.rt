// Uncrossing any book: the trades are counted, the register is judged, then they are written, then cut.
ghost use Rattle.std.specs.Prelude.{◌≡◌, ◌-◌, ◌≤◌, length, IfOk};
ghost use Rattle.rules.specs.Holding.{Cuttable};
ghost use Rattle.trading.specs.Replies.{settled, outcome, trades_of, written};
ghost use Rattle.trading.specs.declared.calls.Call.TheVariants.{Uncrossing as AskUncrossing};
ghost use Rattle.engine.specs.Messages.{uncrossing_reply};

use crate::pairing::{count_trades, write_trades};
use crate::uncrossed::Uncrossed;
use book::OrderBook;
use note::Trade;
use price::indication;
use session::{Session, SessionRefusal};
use trading::Refusal;

/// Cuts each trade from both of its orders.
fn settle_trades<B: OrderBook>(book: &mut B, trades: &[Trade])
    requires { Cuttable (B.meaning book.old).orders trades.now }
    ensures { B.meaning book.new ≡ settled (B.meaning book.old) trades.now }
{
    for trade in trades {
        let _ = book.cut(trade.buy, trade.quantity);
        let _ = book.cut(trade.sell, trade.quantity);
    }
}

/// Uncrosses the book at its equilibrium price. The trades stand in the register from its first place on, and are cut from the book.
pub fn uncrossing<B: OrderBook>(
    book: &mut B,
    session: Session,
    register: &mut [Trade],
) -> Result<Uncrossed, Refusal>
    ensures answer { uncrossing_reply result register.new ≡ (outcome session.tick session.scarcity (length register.old) (B.meaning book.old) AskUncrossing).reply }
    ensures after { B.meaning book.new ≡ (outcome session.tick session.scarcity (length register.old) (B.meaning book.old) AskUncrossing).after }
    ensures register { register.new ≡ written (trades_of (outcome session.tick session.scarcity (length register.old) (B.meaning book.old) AskUncrossing).reply) register.old }
    ensures count { IfOk result (λ done. (done.count ≤ length register.new) × (done.count ≤ length (B.meaning book.old).orders - 1) × (done.count ≤ 255)) }
{
    let told = indication(book, session)?;
    let count = count_trades(book, told.volume);
    if count > register.len() {
        return Err(Refusal::Session(SessionRefusal::RegisterShort));
    }
    write_trades(book, told.volume, register);
    settle_trades(book, &register[0..count]);
    Ok(Uncrossed { told, count })
}
