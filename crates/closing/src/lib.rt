// The closing price: contributions to its survey, and the first criterion that serves.
#![tactic(auto)]

mod closings;
mod contributions;
mod criteria;
mod inputs;
mod judged;
mod judging;
mod refusals;

pub use closings::closing_price;
pub use contributions::{MAX_SURVEY, contribute};
pub use inputs::{ClosingInputs, LastPrice, PricedTrade};
pub use judging::{MAX_QUANTITY, MAX_TRADES};
pub use refusals::ClosingRefusal;
