// An auction calculator for trials. It knows nothing of the search and of the pairing: it tries every price, and trades one contract at
// a time.
#![tactic(auto)]

mod books;
mod plain;
mod prices;
mod refusals;
mod sources;
mod trades;

pub use books::{PlainBook, PlainReply};
pub use plain::{PlainOrder, fill, order};
pub use prices::{Ending, calculate};
pub use refusals::PlainRefusal;
pub use sources::Source;
