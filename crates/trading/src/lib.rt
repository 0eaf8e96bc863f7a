// What may be asked of a book in a session and what is answered, and the law over every list of calls.
#![tactic(auto)]

mod answers;
mod calls;
mod refusals;

pub use answers::Answer;
pub use calls::Call;
pub use refusals::{Layer, Refusal};
