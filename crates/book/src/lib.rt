// The order book: orders, what a book means, and what every make of book does.
#![tactic(auto)]

mod bodies;
mod books;
mod intakes;
mod orders;
mod refusals;
mod runs;
mod sides;
mod tops;

pub use books::{LAST_NUMBER, MAX_PLACES, OrderBook};
pub use intakes::Intake;
pub use orders::{Body, Live, MAX_LIMIT, MAX_QUANTITY, Side};
pub use refusals::BookRefusal;
pub use runs::{Holds, cut_in, cut_live, find_in, position};
pub use sides::{Buys, OneSide, Sells, SideOrder, outranks, trades_at};
pub use tops::{TopOfBook, top_of_book};
