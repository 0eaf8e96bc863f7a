// A row of a table.
ghost use Rattle.book.specs.Meaning.{order_of};

use book::{Holds, Live};

/// A live order, and how many of its side go before it.
#[derive(Clone, Copy)]
pub(crate) struct Row {
    pub(crate) live: Live,
    pub(crate) ahead: usize,
}

impl Holds for Row {
    ghost order = { λ x. order_of x.live };

    fn live(&self) -> Live {
        self.live
    }

    fn hold(&mut self, live: Live) {
        self.live = live;
    }
}
