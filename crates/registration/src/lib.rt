// The verdict on a price to register: the first criterion that applies, and whether the price lies in its band.
#![tactic(auto)]

mod bands;
mod refusals;
mod registrations;
mod verdicts;

pub use bands::Criterion;
pub use refusals::RegistrationRefusal;
pub use registrations::{BestPrice, Registration};
pub use verdicts::{MAX_QUANTITY, verdict};
