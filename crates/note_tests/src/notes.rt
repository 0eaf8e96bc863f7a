// Notes of one trade, and answers of a reader with places enough.
use note::{Heading, NoteReader, NoteRefusal, Trade, write_note};

pub(crate) fn trade(buy: u32, sell: u32, quantity: u32) -> Trade {
    Trade {
        buy,
        sell,
        quantity,
    }
}

/// What a reader with places for any note answers.
pub(crate) fn answer(bytes: &[u8]) -> Result<Heading, NoteRefusal> {
    let mut register = [trade(0, 0, 0); 255];
    NoteReader::new(bytes).read(&mut register)
}

/// The length of a note of one trade, or why it is refused.
pub(crate) fn written(
    price: u32,
    buy: u32,
    sell: u32,
    quantity: u32,
) -> Result<usize, NoteRefusal> {
    let mut buffer = [0u8; 16];
    write_note(price, 1, &[trade(buy, sell, quantity)], &mut buffer)
}
