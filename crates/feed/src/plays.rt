// A feed played on a book.
ghost use Rattle.std.specs.Prelude.{◌≡◌, length, MatchResult};
ghost use Rattle.trading.specs.Replies.{log_of, read_all as replies_read};
ghost use Rattle.feed.specs.Steps.{terms_of};
ghost use Rattle.rules.specs.Rivals.{Each};
ghost use Rattle.engine.specs.Runs.{Within};
ghost use Rattle.feed.specs.Playing.{Answered, CarriedOut, Unplayed, Silent};

use crate::faults::Fault;
use crate::replies::{Done, answer_lines};
use crate::scripts::{Script, read_script};
use book::OrderBook;
use engine::{Journal, run};
use note::Trade;
use session::Session;
use std::alloc::{AllocError, Global};
use trading::Call;

/// The answer to each line of a feed, and the trades of all its uncrossings, one behind the other.
#[derive(Drop)]
pub struct Played {
    pub replies: Vec<Result<Done, Fault>>,
    pub trades: Vec<Trade>,
}

/// Carries out the calls in the session; without one, none.
#[tactic(auto, using(crate::proofs::Playing::no_calls, crate::proofs::Playing::no_log))]
fn carry_out<B: OrderBook>(
    heap: Global,
    book: &mut B,
    session: Option<Session>,
    calls: &[Call],
    register: &mut [Trade],
) -> Result<Journal, AllocError>
    requires { Silent (terms_of session) calls.now }
    ensures { MatchResult result (λ journal. CarriedOut (terms_of session) (B.meaning book.old) register.old calls.now (replies_read journal.trades.items journal.answers.items) (B.meaning book.new) register.new × (journal.trades.items ≡ log_of (replies_read journal.trades.items journal.answers.items)) × Each (Within (length journal.trades.items)) journal.answers.items) (λ _. Unplayed (B.meaning book.old) register.old (B.meaning book.new) register.new) }
{
    match session {
        Some(session) => run(heap, book, session, calls, register),
        None => Ok(Journal {
            answers: Vec::new(heap),
            trades: Vec::new(heap),
        }),
    }
}

/// Plays a feed on a book, and answers each of its lines. Where there is no memory for the answers and trades, nothing is
/// carried out.
// Heap, book and register are lent each by itself, as the engine's `run` takes them: a struct of them would be taken apart at once.
pub fn play<B: OrderBook>(
    heap: Global,
    book: &mut B,
    feed: &[u8],
    register: &mut [Trade],
) -> Result<Played, AllocError>
    ensures { MatchResult result (λ played. Answered feed.now (B.meaning book.old) register.old played.trades.items played.replies.items (B.meaning book.new) register.new) (λ _. Unplayed (B.meaning book.old) register.old (B.meaning book.new) register.new) }
{
    let script = read_script(heap, feed)?;
    let mut replies = Vec::with_capacity(heap, script.steps.len())?;
    let journal = carry_out(heap, book, script.session, &script.calls, register)?;
    answer_lines(&script.steps, &journal.answers, &mut replies);
    let Journal { trades, .. } = journal;
    Ok(Played { replies, trades })
}
