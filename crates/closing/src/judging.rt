// Judging what a closing price is given.
ghost use Rattle.std.specs.Prelude.{◌≡◌, ℕ, IfOk};
ghost use Rattle.session.specs.Judgements.{passed};
ghost use Rattle.closing.specs.Refusals.{Judgement};
ghost use Rattle.closing.specs.Judging.{judged_trade, judged_survey, judged_each, judged_lists, judged_inputs};

use crate::contributions::MAX_SURVEY;
use crate::inputs::{ClosingInputs, PricedTrade};
use crate::judged::JudgedInputs;
use crate::refusals::ClosingRefusal;
use ranking::{SurveyPrice, is_in_rank};
use session::Session;

/// The most trades that a closing price takes.
pub const MAX_TRADES: usize = 1_024;
/// The most contracts of one trade.
pub const MAX_QUANTITY: u32 = 6_858;

/// An item of a list that is judged by itself.
trait Judged {
    ghost judged: { ℕ → Self → Judgement };

    fn judge(&self, session: Session) -> Result<(), ClosingRefusal>
        ensures { result ≡ judged session.tick self.now };
}

impl Judged for PricedTrade {
    ghost judged = { judged_trade };

    fn judge(&self, session: Session) -> Result<(), ClosingRefusal> {
        if !(1..=MAX_QUANTITY).contains(&self.quantity) {
            return Err(ClosingRefusal::QuantityRange);
        }
        session.judge(self.price)?;
        Ok(())
    }
}

impl Judged for SurveyPrice {
    ghost judged = { judged_survey };

    fn judge(&self, session: Session) -> Result<(), ClosingRefusal> {
        session.judge(self.price)?;
        Ok(())
    }
}

/// Judges each item in turn.
// A `for`: of `try_for_each` the proof does not close that its answer is that of the first item that is refused.
#[tactic(auto, unfolding(crate::specs::Judging::judged_each))]
fn judge_each<T: Judged>(session: Session, items: &[T]) -> Result<(), ClosingRefusal>
    ensures { result ≡ judged_each (T.judged session.tick) items.now }
{
    for item in items {
        item.judge(session)?;
    }
    Ok(())
}

/// Judges the lists: their lengths, and the survey's rank.
fn judge_lists(trades: &[PricedTrade], survey: &[SurveyPrice]) -> Result<(), ClosingRefusal>
    ensures { result ≡ judged_lists trades.now survey.now }
{
    if trades.len() > MAX_TRADES || survey.len() > MAX_SURVEY || !is_in_rank(survey) {
        return Err(ClosingRefusal::ClosingLists);
    }
    Ok(())
}

impl<'a> JudgedInputs<'a> {
    /// Judges the lists, then each item in the order named.
    pub(crate) fn judge(
        session: Session,
        inputs: ClosingInputs<'a>,
    ) -> Result<JudgedInputs<'a>, ClosingRefusal>
        ensures answer { passed result ≡ judged_inputs session.tick inputs.entry }
        ensures kept { IfOk result (λ judged. (judged.session ≡ session) × (judged.inputs ≡ inputs.entry)) }
    {
        judge_lists(inputs.trades, inputs.survey)?;
        session.judge_given(inputs.today)?;
        session.judge_given(inputs.last.map(|last| last.price))?;
        judge_each(session, inputs.trades)?;
        session.judge_given(inputs.best_buy)?;
        session.judge_given(inputs.best_sell)?;
        judge_each(session, inputs.survey)?;
        Ok(JudgedInputs { session, inputs })
    }
}
