// A whole order feed, played on a book: what each line is answered, and where a refused line is at fault.
#![tactic(auto)]

mod faults;
mod places;
mod plays;
mod replies;
mod scripts;
mod steps;

pub use faults::{Cause, Fault, Layer};
pub use plays::{Played, play};
pub use replies::Done;
