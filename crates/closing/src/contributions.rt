// Contributions to the survey.
ghost use Rattle.std.specs.Prelude.{◌≡◌, ◌+◌, true, length, take, IfOk};
ghost use Rattle.ranking.specs.Runs.{in_rank};
ghost use Rattle.ranking.specs.Surveys.{survey_before};
ghost use Rattle.closing.specs.Contributions.{contribute_answer, contribute_after};

use crate::refusals::ClosingRefusal;
use ranking::{SurveyPrice, settle_last};
use session::Session;

/// The most prices of a survey.
pub const MAX_SURVEY: usize = 64;

/// Adds a price to a survey run of which `used` places are used, and answers how many are used then.
///
/// The item stands just before the first that it goes before, or last, and later places stay. Refused by the price, then if
/// 64 places or all are used; a refusal leaves the run as it was. `used + 1` is at most 64, so that it does not overflow.
// The run is memory that the caller lends, of fixed places: `used` is judged and answered, and a slice of the used ones has no next place.
pub fn contribute(
    session: Session,
    run: &mut [SurveyPrice],
    used: usize,
    item: SurveyPrice,
) -> Result<usize, ClosingRefusal>
    ensures answer { result ≡ contribute_answer session.tick (length run.old) used item.price }
    ensures after { run.new ≡ contribute_after result used item run.old }
    ensures ranked { IfOk result (λ more. in_rank survey_before (take used run.old) ≡ true → in_rank survey_before (take more run.new) ≡ true) }
{
    session.judge(item.price)?;
    if used >= MAX_SURVEY || used >= run.len() {
        return Err(ClosingRefusal::Full);
    }
    run[used] = item;
    settle_last(&mut run[..=used]);
    Ok(used + 1)
}
