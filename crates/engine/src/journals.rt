// What a run leaves to read.
use note::Trade;
use trading::{Answer, Refusal};

/// The answer or the refusal of each call of a list, and the trades of all its uncrossings, one behind the other.
#[derive(Drop)]
pub struct Journal {
    pub answers: Vec<Result<Answer, Refusal>>,
    pub trades: Vec<Trade>,
}
