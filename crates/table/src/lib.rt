// The arrival table: a make of book that keeps its orders in the order of entry.
#![tactic(auto)]

mod counts;
mod row;
mod rows;
mod table_books;
mod tables;

pub use tables::Table;
