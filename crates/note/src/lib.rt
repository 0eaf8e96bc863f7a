// The clearing note: its trade record, its numbers in seven-bit groups, its writer and its reader.
#![tactic(auto)]

mod numbers;
mod reader;
mod refusals;
mod trades;
mod writer;

pub use numbers::encoded_len;
pub use reader::{DECISIVE_LEN, NoteReader};
pub use refusals::NoteRefusal;
pub use trades::{Heading, MAX_TRADES, Trade};
pub use writer::write_note;
