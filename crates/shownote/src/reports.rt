// What is printed of a note, or of why some bytes are none.
ghost use Rattle.std.specs.Prelude.{◌≡◌, ◌≤◌, Some, length, IfOk, string_bytes};
ghost use Rattle.shownote.specs.Reports.{contracts, price_text, counts_text, trade_text, note_text, report_text};
ghost use Rattle.note.specs.Reading.{read_note};

use note::{MAX_TRADES, NoteReader, Trade};
use std::alloc::{AllocError, Global};
use std::fmt;

/// The total of contracts of some trades, in a type that holds it for any slice of trades.
fn total(trades: &[Trade]) -> u128
    ensures { result ≡ contracts trades.now }
{
    trades.iter().map(|trade| u128::from(trade.quantity)).sum()
}

/// The lines of a price.
#[derive(Clone, Copy)]
struct PriceLines(u32);

impl fmt::Display for PriceLines {
    ghost output = { λ lines. Some (price_text lines.0) };

    fn fmt<W: fmt::Write>(&self, f: &mut fmt::Formatter<W>) -> fmt::Result {
        let price = self.0;
        let whole = price / 100;
        let tenths = price / 10 % 10;
        let hundredths = price % 10;
        write!(
            f,
            "price {price} centavos\nprice {whole}.{tenths}{hundredths} pesos\n"
        )
    }
}

/// The line of the trade that is the `k`-th.
#[derive(Clone, Copy)]
struct TradeLine {
    k: usize,
    trade: Trade,
}

impl fmt::Display for TradeLine {
    ghost output = { λ line. Some (trade_text line.k line.trade) };

    fn fmt<W: fmt::Write>(&self, f: &mut fmt::Formatter<W>) -> fmt::Result {
        let k = self.k;
        let Trade {
            buy,
            sell,
            quantity,
        } = self.trade;
        write!(
            f,
            "trade {k}: buy {buy}, sell {sell}, quantity {quantity}\n"
        )
    }
}

/// The lines of a note.
#[derive(Clone, Copy)]
struct NoteLines<'a> {
    price: u32,
    trades: &'a [Trade],
}

impl fmt::Display for NoteLines<'_> {
    ghost output = { λ lines. Some (note_text lines.price lines.trades.now) };

    fn fmt<W: fmt::Write>(&self, f: &mut fmt::Formatter<W>) -> fmt::Result {
        let price = PriceLines(self.price);
        let count = self.trades.len();
        let total = total(self.trades);
        write!(f, "{price}trades {count}\ncontracts {total}\n")?;
        // The place of each trade is printed with it.
        for (i, trade) in self.trades.iter().enumerate() {
            let line = TradeLine {
                k: i + 1,
                trade: *trade,
            };
            write!(f, "{line}")?;
        }
        Ok(())
    }
}

/// What is printed of the input, by way of a register that holds any note's trades.
fn report_by(heap: Global, input: &[u8], register: &mut [Trade]) -> Result<String, AllocError>
    requires { 255 ≤ length register.old }
    ensures { IfOk result (λ text. string_bytes text ≡ report_text (read_note input.now)) }
{
    match NoteReader::new(input).read(register) {
        Ok(heading) => {
            let count = heading.count;
            let lines = NoteLines {
                price: heading.price,
                trades: &register[0..count],
            };
            format!(in heap; "{lines}")
        }
        Err(why) => {
            let code = u8::from(why);
            format!(in heap; "refused {code} {why}\n")
        }
    }
}

/// What is printed of the input, a line for each fact.
pub fn report(heap: Global, input: &[u8]) -> Result<String, AllocError>
    ensures { IfOk result (λ text. string_bytes text ≡ report_text (read_note input.now)) }
{
    // No constant of the library's: it would offer a trade that no note can hold.
    let nothing = Trade {
        buy: 0,
        sell: 0,
        quantity: 0,
    };
    // As many places as a note has trades at most: reading a note takes no memory from the heap.
    let mut register = [nothing; MAX_TRADES];
    report_by(heap, input, &mut register)
}
