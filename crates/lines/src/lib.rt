// The lines of an order feed: their five forms, and the reader that hands them out.
#![tactic(auto)]

mod fields;
mod kinds;
mod reader;
mod reading;
mod refusals;
mod scan;

pub use fields::Field;
pub use kinds::Line;
pub use reader::LineReader;
pub use refusals::MalformedLine;
