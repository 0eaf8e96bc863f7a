// Total rankings of items, and runs of items in rank.
#![tactic(auto)]

mod rankings;
mod runs;
mod surveys;

pub use rankings::Ranked;
pub use runs::{is_in_rank, settle_last};
pub use surveys::SurveyPrice;
