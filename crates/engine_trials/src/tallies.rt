// What came of the generated lists.
use std::alloc::{AllocError, Global};
use trading::Answer;

/// What a call did that was not refused.
// Without the numbers of its answer, since only this is counted: the answers of all lists would take megabytes.
#[derive(Clone, Copy, PartialEq, Eq)]
pub(crate) enum Kind {
    Entered,
    Cut,
    Withdrawn,
    Indicated,
    Uncrossed,
}

impl From<Answer> for Kind {
    fn from(answer: Answer) -> Kind {
        match answer {
            Answer::Entered(_) => Kind::Entered,
            Answer::Cut => Kind::Cut,
            Answer::Withdrawn => Kind::Withdrawn,
            Answer::Indicated(_) => Kind::Indicated,
            Answer::Uncrossed { .. } => Kind::Uncrossed,
        }
    }
}

/// What came of a generated list of calls.
#[derive(Drop)]
pub(crate) struct Outcome {
    /// What each call did by the calculator; of a refusal its number.
    pub(crate) answers: Vec<Result<Kind, u8>>,
    /// How many trades all its uncrossings made.
    pub(crate) trades: usize,
    /// Whether the table does something else than the calculator.
    pub(crate) table_apart: bool,
    /// Whether the ladder does.
    pub(crate) ladder_apart: bool,
}

/// The answers of all lists.
pub(crate) fn all_answers(
    heap: Global,
    outcomes: &[Outcome],
) -> Result<Vec<Result<Kind, u8>>, AllocError> {
    let mut answers = Vec::new(heap);
    for outcome in outcomes {
        answers.extend(outcome.answers.iter().copied())?;
    }
    Ok(answers)
}

/// How many trades the lists made.
pub(crate) fn traded(outcomes: &[Outcome]) -> usize {
    outcomes
        .iter()
        .map(|outcome| outcome.trades)
        .fold(0, usize::saturating_add)
}
