// Writes a note.
ghost use Rattle.std.specs.Prelude.{◌≡◌, ◌+◌, ◌≤◌, length, take, IfOk};
ghost use Rattle.note.specs.Notes.{are_trades, trade_bytes, trades_bytes};
ghost use Rattle.note.specs.Writing.{is_writable, write_answer, write_buffer};
ghost use Rattle.note.specs.Roundtrip.{ReadsBack};

use crate::numbers::{encoded_len, write_number};
use crate::refusals::NoteRefusal;
use crate::trades::{MAX_PRICE, MAX_TRADES, Trade};

/// Whether each trade is one that a note can hold.
fn are_legal(trades: &[Trade]) -> bool
    ensures { result ≡ are_trades trades.now }
{
    trades.iter().all(|trade| trade.is_legal())
}

/// Whether the price and the first `count` trades of the register make a note.
// Price and count stay two numbers: nothing is known of either before this is asked, and afterwards they go different ways.
fn is_writable(price: u32, count: usize, register: &[Trade]) -> bool
    ensures { result ≡ is_writable price count register.now }
{
    count <= register.len()
        && (1..=MAX_PRICE).contains(&price)
        && (1..=MAX_TRADES).contains(&count)
        && are_legal(&register[0..count])
}

/// How many bytes a trade takes.
fn trade_len(trade: Trade) -> usize
    ensures value { result ≡ length (trade_bytes trade) }
    ensures bound { result ≤ 15 }
{
    encoded_len(trade.buy) + encoded_len(trade.sell) + encoded_len(trade.quantity)
}

/// How many bytes the trades of a note take.
fn trades_len(trades: &[Trade]) -> usize
    requires { length trades.now ≤ 255 }
    ensures value { result ≡ length (trades_bytes trades.now) }
    ensures bound { result ≤ 3825 }
{
    trades.iter().map(|trade| trade_len(*trade)).sum()
}

/// Writes a trade into a place of just its length.
fn write_trade(place: &mut [u8], trade: Trade)
    requires { length place.old ≡ length (trade_bytes trade) }
    ensures { place.new ≡ trade_bytes trade }
{
    let (buy, rest) = place.split_at_mut(encoded_len(trade.buy));
    let (sell, quantity) = rest.split_at_mut(encoded_len(trade.sell));
    write_number(buy, trade.buy);
    write_number(sell, trade.sell);
    write_number(quantity, trade.quantity);
}

/// Writes trades into a place of just their length.
fn write_trades(place: &mut [u8], trades: &[Trade])
    requires { length place.old ≡ length (trades_bytes trades.now) }
    ensures { place.new ≡ trades_bytes trades.now }
{
    // The ends are kept, since nothing is known after a loop of a place that went on as the rest of a `split_at_mut`.
    let mut end = 0usize;
    for trade in trades {
        let start = end;
        end += trade_len(*trade);
        write_trade(&mut place[start..end], *trade);
    }
}

/// Writes the note of a price and the first `count` trades of the register to the front of the buffer, and answers its length.
///
/// Refused as out of range if the price, the count, or an order number or a quantity of these trades is, if a trade's two
/// numbers are equal or if the register has fewer trades; then if the buffer is short. A refusal leaves the buffer as it was.
// The count stands beside the register, which a caller keeps longer than its trades: a count that is wrong is refused, as the note's rules
// say, and no slice of so many places could be taken.
pub fn write_note(
    price: u32,
    count: usize,
    register: &[Trade],
    buffer: &mut [u8],
) -> Result<usize, NoteRefusal>
    ensures value { result ≡ write_answer price count register.now (length buffer.old) }
    ensures after { buffer.new ≡ write_buffer price count register.now buffer.old }
    ensures reads_back { IfOk result (λ len. ReadsBack price count (take count register.now) (take len buffer.new)) }
{
    if !is_writable(price, count, register) {
        return Err(NoteRefusal::OutOfRange);
    }
    let trades = &register[0..count];
    let price_len = encoded_len(price);
    let count_len = encoded_len(count as u32);
    let len = price_len + count_len + trades_len(trades);
    if buffer.len() < len {
        return Err(NoteRefusal::BufferShort);
    }
    let (note, _) = buffer.split_at_mut(len);
    let (price_place, rest) = note.split_at_mut(price_len);
    let (count_place, trades_place) = rest.split_at_mut(count_len);
    write_number(price_place, price);
    write_number(count_place, count as u32);
    write_trades(trades_place, trades);
    Ok(len)
}
