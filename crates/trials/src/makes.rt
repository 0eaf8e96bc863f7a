// Fresh books of any make.
ghost use Rattle.std.specs.Prelude.{◌≡◌, min, IfOk};
ghost use Rattle.book.specs.Meaning.{fresh};

use book::OrderBook;
use ladder::Ladder;
use std::alloc::{AllocError, Global};
use table::Table;

/// A make of book that a test or a trial begins with.
pub trait Make: OrderBook + Drop {
    /// A fresh book of so many places, of which it offers at most 256.
    fn fresh(heap: Global, places: usize) -> Result<Self, AllocError>
        ensures { IfOk result (λ b. Self.meaning b ≡ fresh (min places 256)) };
}

impl Make for Table {
    fn fresh(heap: Global, places: usize) -> Result<Table, AllocError> {
        Table::new(heap, places)
    }
}

/// Its two runs have one length.
impl Make for Ladder {
    fn fresh(heap: Global, places: usize) -> Result<Ladder, AllocError> {
        Ladder::new(heap, places, places)
    }
}
