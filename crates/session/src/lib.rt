// A session of the auction: its tick and its scarcity price, what a session refuses, judging prices, and the rounding of means.
#![tactic(auto)]

mod judgements;
mod openings;
mod refusals;
mod rounding;
mod sessions;

pub use judgements::PriceRefusal;
pub use refusals::SessionRefusal;
pub use rounding::rounded;
pub use sessions::{MAX_PRICE, MAX_TICK, Session};
