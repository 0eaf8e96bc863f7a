// What a line says.
use crate::fields::Field;
use book::Side;

/// A line of the feed.
#[derive(Clone, Copy, Debug)]
pub enum Line<'a> {
    /// `O tick scarcity`
    Opening {
        tick: Field<'a>,
        scarcity: Field<'a>,
    },
    /// `E side quantity price`
    Entry {
        side: Side,
        quantity: Field<'a>,
        price: Field<'a>,
    },
    /// `C number quantity`
    Cut {
        number: Field<'a>,
        quantity: Field<'a>,
    },
    /// `W number`
    Withdrawal {
        number: Field<'a>,
    },
    /// `U`
    Uncrossing,
}
