// What may be asked.
use book::Side;

/// A call on a book in a session. Its numbers may be anything.
#[derive(Clone, Copy, Debug, PartialEq, Eq)]
pub enum Call {
    /// Enters an order, at a price in centavos.
    Entry {
        side: Side,
        quantity: u32,
        price: u32,
    },
    /// Takes contracts from an order.
    Cut {
        number: u32,
        quantity: u32,
    },
    /// Takes all that an order holds.
    Withdrawal {
        number: u32,
    },
    /// Asks what an uncrossing would answer.
    Indication,
    /// Uncrosses the book.
    Uncrossing,
}
