// What tests and trials share.
#![tactic(auto)]

mod counts;
mod makes;

pub use counts::{how_many, show_count};
pub use makes::Make;
