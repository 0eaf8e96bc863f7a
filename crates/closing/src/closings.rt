// The closing price.
ghost use Rattle.std.specs.Prelude.{◌≡◌, IfOk};
ghost use Rattle.closing.specs.Criteria.{closing_answer};
ghost use Rattle.closing.specs.Grounds.{ClosedBy};
ghost use Rattle.session.specs.Judgements.{OnTick};

use crate::inputs::ClosingInputs;
use crate::judged::JudgedInputs;
use crate::refusals::ClosingRefusal;
use session::Session;

/// The closing price, a multiple of the tick: everything is judged, then the first criterion that serves gives the price.
pub fn closing_price(session: Session, inputs: ClosingInputs) -> Result<u32, ClosingRefusal>
    ensures answer { result ≡ closing_answer session.tick inputs.entry }
    ensures grounds { IfOk result (λ price. ClosedBy session.tick inputs.entry price) }
    ensures priced { IfOk result (λ price. OnTick session.tick price) }
{
    let judged = JudgedInputs::judge(session, inputs)?;
    judged.first_price().ok_or(ClosingRefusal::NoCriterion)
}
