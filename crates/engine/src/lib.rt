// The auction engine: entry, cut, withdrawal and uncrossing on any book, and a whole list of calls.
#![tactic(auto)]

mod fronts;
mod journals;
mod messages;
mod pairing;
mod runs;
mod uncrossed;
mod uncrossings;

pub use journals::Journal;
pub use messages::{cut, entry, withdrawal};
pub use runs::run;
pub use uncrossed::Uncrossed;
pub use uncrossings::uncrossing;
