// A whole list of calls.
ghost use Rattle.std.specs.Prelude.{◌≡◌, ◌+◌, ◌≤◌, ◌++◌, length, vec_len, vec_capacity, MatchResult};
ghost use Rattle.trading.specs.Replies.{outcome, trades_of, written, read};
ghost use Rattle.trading.specs.declared.calls.Call.TheVariants.{Uncrossing as AskUncrossing};
ghost use Rattle.engine.specs.Runs.{Within, Ran, NotRan};

use crate::journals::Journal;
use crate::messages::{cut, entry, withdrawal};
use crate::uncrossed::Uncrossed;
use crate::uncrossings::uncrossing;
use book::{MAX_PLACES, OrderBook};
use note::Trade;
use price::indication;
use session::Session;
use std::alloc::{AllocError, Global};
use trading::{Answer, Call, Refusal};

/// Adds trades to a log that has room for them.
// That the room stays is a fact of the log before and after, which no field of it can hold: each function says it.
// `extend` could fail here, and nothing may between two calls.
fn append(log: &mut Vec<Trade>, trades: &[Trade])
    requires { vec_len log.old + length trades.now ≤ vec_capacity log.old }
    ensures items { log.new.items ≡ log.old.items ++ trades.now }
    ensures capacity { vec_capacity log.new ≡ vec_capacity log.old }
{
    for trade in trades {
        log.push_reserved(*trade);
    }
}

/// Uncrosses the book and adds the trades to the log.
// What it is lent is what `run` is lent for a call: a struct of these loans would be taken apart again at once.
fn uncross_into<B: OrderBook>(
    book: &mut B,
    session: Session,
    register: &mut [Trade],
    log: &mut Vec<Trade>,
) -> Result<Answer, Refusal>
    requires { vec_len log.old + length (B.meaning book.old).orders + 1 ≤ vec_capacity log.old }
    ensures reply { read log.new.items result ≡ (outcome session.tick session.scarcity (length register.old) (B.meaning book.old) AskUncrossing).reply }
    ensures after { B.meaning book.new ≡ (outcome session.tick session.scarcity (length register.old) (B.meaning book.old) AskUncrossing).after }
    ensures register { register.new ≡ written (trades_of (outcome session.tick session.scarcity (length register.old) (B.meaning book.old) AskUncrossing).reply) register.old }
    ensures log { log.new.items ≡ log.old.items ++ trades_of (outcome session.tick session.scarcity (length register.old) (B.meaning book.old) AskUncrossing).reply }
    ensures capacity { vec_capacity log.new ≡ vec_capacity log.old }
    ensures within { Within (vec_len log.new) result }
{
    let Uncrossed { told, count } = uncrossing(book, session, register)?;
    let first = log.len();
    append(log, &register[0..count]);
    Ok(Answer::Uncrossed { told, first, count })
}

/// Carries out one call, and adds the trades of an uncrossing to the log.
fn carry_out<B: OrderBook>(
    book: &mut B,
    session: Session,
    call: Call,
    register: &mut [Trade],
    log: &mut Vec<Trade>,
) -> Result<Answer, Refusal>
    requires { vec_len log.old + length (B.meaning book.old).orders + 1 ≤ vec_capacity log.old }
    ensures reply { read log.new.items result ≡ (outcome session.tick session.scarcity (length register.old) (B.meaning book.old) call).reply }
    ensures after { B.meaning book.new ≡ (outcome session.tick session.scarcity (length register.old) (B.meaning book.old) call).after }
    ensures register { register.new ≡ written (trades_of (outcome session.tick session.scarcity (length register.old) (B.meaning book.old) call).reply) register.old }
    ensures log { log.new.items ≡ log.old.items ++ trades_of (outcome session.tick session.scarcity (length register.old) (B.meaning book.old) call).reply }
    ensures capacity { vec_capacity log.new ≡ vec_capacity log.old }
    ensures within { Within (vec_len log.new) result }
{
    match call {
        Call::Entry {
            side,
            quantity,
            price,
        } => {
            let number = entry(book, session, side, quantity, price)?;
            Ok(Answer::Entered(number))
        }
        Call::Cut { number, quantity } => {
            cut(book, number, quantity)?;
            Ok(Answer::Cut)
        }
        Call::Withdrawal { number } => {
            withdrawal(book, number)?;
            Ok(Answer::Withdrawn)
        }
        Call::Indication => {
            let told = indication(book, session)?;
            Ok(Answer::Indicated(told))
        }
        Call::Uncrossing => uncross_into(book, session, register, log),
    }
}

/// Carries out the calls in turn and answers each. Where there is no memory for the answers and trades, nothing is carried out.
pub fn run<B: OrderBook>(
    heap: Global,
    book: &mut B,
    session: Session,
    calls: &[Call],
    register: &mut [Trade],
) -> Result<Journal, AllocError>
    ensures { MatchResult result (λ journal. Ran session.tick session.scarcity (B.meaning book.old) register.old calls.now journal.answers.items journal.trades.items (B.meaning book.new) register.new) (λ _. NotRan (B.meaning book.old) register.old (B.meaning book.new) register.new) }
{
    let Some(room) = calls.len().checked_add(MAX_PLACES) else {
        return Err(AllocError);
    };
    let mut answers = Vec::with_capacity(heap, calls.len())?;
    let mut trades = Vec::with_capacity(heap, room)?;
    for call in calls {
        let answer = carry_out(book, session, *call, register, &mut trades);
        answers.push_reserved(answer);
    }
    Ok(Journal { answers, trades })
}
