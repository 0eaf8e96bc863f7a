// What each line is answered.
ghost use Rattle.std.specs.Prelude.{◌≡◌, ◌≤◌, ℕ, List, [], length, vec_capacity};
ghost use Rattle.std.specs.Slice.Iter.{iter_rest};
ghost use Rattle.note.specs.declared.trades.Trade.{Trade};
ghost use Rattle.trading.specs.Replies.{read as reply_read, read_all as replies_read};
ghost use Rattle.rules.specs.Rivals.{Each};
ghost use Rattle.engine.specs.Runs.{Within as AnswerWithin};
ghost use Rattle.feed.specs.Steps.{calls_of};
ghost use Rattle.feed.specs.Replies.{done_of, told_of, told_all, read, read_all, Within, Left, AnswersOne};

use crate::faults::Fault;
use crate::places::Places;
use crate::steps::Step;
use price::Indication;
use std::slice;
use trading::{Answer, Refusal};

/// What an accepted line is answered.
// An uncrossing has its three parts as in the engine's answer: a struct for both would only put one more name between them and a reader.
#[derive(Clone, Copy, Debug, PartialEq, Eq)]
pub enum Done {
    /// The session is open, the cut was made, or the order was withdrawn.
    Accepted,
    /// The number that the order got.
    Entered(u32),
    /// The uncrossing's price, volume and imbalance before it, and its trades as a part of the log.
    Uncrossed {
        told: Indication,
        /// The place of its first trade in the log.
        first: usize,
        /// How many trades it made.
        count: usize,
    },
}

/// What was done for a call.
// No public conversion: that an indication is told as a plain acceptance would mislead any caller but a feed, which asks for none.
fn done_for(answer: Answer) -> Done
    ensures { result ≡ done_of answer }
{
    match answer {
        Answer::Entered(number) => Done::Entered(number),
        Answer::Cut | Answer::Withdrawn | Answer::Indicated(_) => Done::Accepted,
        Answer::Uncrossed { told, first, count } => Done::Uncrossed { told, first, count },
    }
}

/// The answer to a line of which the call was answered.
fn answered(places: Places, answer: Result<Answer, Refusal>) -> Result<Done, Fault>
    ensures told { (log : List Trade) → read log result ≡ told_of places (reply_read log answer) }
    ensures placed { (n : ℕ) → AnswerWithin n answer → Within n result }
{
    answer.map(done_for).map_err(|why| places.refused(why))
}

/// The answer to a line; a call takes the next of the answers.
fn answer_line(
    step: Result<Step, Fault>,
    answers: &mut slice::Iter<'_, Result<Answer, Refusal>>,
) -> Result<Done, Fault>
    requires { Left step (iter_rest answers.old) }
    ensures { AnswersOne step (iter_rest answers.old) result (iter_rest answers.new) }
{
    match step? {
        Step::Opening => Ok(Done::Accepted),
        Step::Asking { places, .. } => {
            let Some(answer) = answers.next() else {
                unreachable()
            };
            answered(places, *answer)
        }
    }
}

/// Answers each line.
// Into room that the caller made before it carried out the calls, so that nothing can fail here: `extend` could.
#[tactic(auto, using(crate::proofs::Telling::tell_none))]
pub(crate) fn answer_lines(
    steps: &[Result<Step, Fault>],
    answers: &[Result<Answer, Refusal>],
    replies: &mut Vec<Result<Done, Fault>>,
)
    requires asked { length answers.now ≡ length (calls_of steps.now) }
    requires empty { replies.old.items ≡ [] }
    requires room { length steps.now ≤ vec_capacity replies.old }
    ensures told { (log : List Trade) → read_all log replies.new.items ≡ told_all steps.now (replies_read log answers.now) }
    ensures placed { (n : ℕ) → Each (AnswerWithin n) answers.now → Each (Within n) replies.new.items }
{
    let mut left = answers.iter();
    for step in steps {
        let reply = answer_line(*step, &mut left);
        replies.push_reserved(reply);
    }
}
