// The ranked ladder: a make of book that keeps buys and sells in two runs, each in rank.
#![tactic(auto)]

mod ladder_books;
mod ladders;
mod queues;

pub use ladders::Ladder;
