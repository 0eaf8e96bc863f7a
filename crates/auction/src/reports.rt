// What is printed of a feed.
ghost use Rattle.std.specs.Prelude.{◌≡◌, Some, IfOk, drop, take, flat_map, length, string_bytes};
ghost use Rattle.feed.specs.Replies.{read, read_all};
ghost use Rattle.auction.specs.Reports.{trade_text, crossed_text, fault_text, told_text, Printed, Reports};

use feed::{Cause, Done, Fault, play};
use note::Trade;
use price::Indication;
use std::alloc::{AllocError, Global};
use std::fmt;
use table::Table;

/// The most bytes of a feed.
pub const MAX_FEED: usize = 65_536;
/// How many orders the book has places for.
const PLACES: usize = 256;
/// How many trades the register has places for, which no uncrossing passes.
const REGISTER: usize = 255;

/// The line of a trade.
#[derive(Clone, Copy)]
struct TradeLine(Trade);

impl fmt::Display for TradeLine {
    ghost output = { λ line. Some (trade_text line.0) };

    fn fmt<W: fmt::Write>(&self, f: &mut fmt::Formatter<W>) -> fmt::Result {
        let Trade {
            buy,
            sell,
            quantity,
        } = self.0;
        write!(f, "{buy} {sell} {quantity}\n")
    }
}

/// The lines of an uncrossing.
#[derive(Clone, Copy)]
struct UncrossedLines<'a> {
    told: Indication,
    trades: &'a [Trade],
}

impl fmt::Display for UncrossedLines<'_> {
    ghost output = { λ lines. Some (crossed_text lines.told lines.trades.now) };

    fn fmt<W: fmt::Write>(&self, f: &mut fmt::Formatter<W>) -> fmt::Result {
        let Indication {
            price,
            volume,
            imbalance,
        } = self.told;
        write!(f, "{price} {volume} {imbalance}\n")?;
        for trade in self.trades {
            let line = TradeLine(*trade);
            write!(f, "{line}")?;
        }
        Ok(())
    }
}

/// The line of a refusal.
#[derive(Clone, Copy)]
struct FaultLine(Fault);

impl fmt::Display for FaultLine {
    ghost output = { λ line. Some (fault_text line.0) };

    fn fmt<W: fmt::Write>(&self, f: &mut fmt::Formatter<W>) -> fmt::Result {
        let Fault { cause, line, place } = self.0;
        let code = u8::from(cause);
        let layer = cause.layer();
        write!(f, "refused {code} {layer} {line} {place}\n")
    }
}

/// The trades of an uncrossing, which are a part of the log.
// By place and count, as the answer has them: room for all trades is made before the first call, so that no answer holds a slice.
fn trades_of(log: &[Trade], first: usize, count: usize) -> &[Trade]
    ensures { result.now ≡ take count (drop first log.now) }
{
    let (_, rest) = log.split_at(first.min(log.len()));
    let (trades, _) = rest.split_at(count.min(rest.len()));
    trades
}

/// The lines of an answer, with the log that its trades stand in.
#[derive(Clone, Copy)]
struct AnswerLines<'a> {
    reply: Result<Done, Fault>,
    log: &'a [Trade],
}

impl fmt::Display for AnswerLines<'_> {
    ghost output = { λ lines. Some (told_text (read lines.log.now lines.reply)) };

    fn fmt<W: fmt::Write>(&self, f: &mut fmt::Formatter<W>) -> fmt::Result {
        match self.reply {
            Ok(Done::Accepted) => f.write_str("ok\n"),
            Ok(Done::Entered(number)) => write!(f, "{number}\n"),
            Ok(Done::Uncrossed { told, first, count }) => {
                let trades = trades_of(self.log, first, count);
                let lines = UncrossedLines { told, trades };
                write!(f, "{lines}")
            }
            Err(fault) => {
                let line = FaultLine(fault);
                write!(f, "{line}")
            }
        }
    }
}

/// The lines of all answers.
#[derive(Clone, Copy)]
struct FeedLines<'a> {
    replies: &'a [Result<Done, Fault>],
    log: &'a [Trade],
}

impl fmt::Display for FeedLines<'_> {
    ghost output = { λ lines. Some (flat_map told_text (read_all lines.log.now lines.replies.now)) };

    fn fmt<W: fmt::Write>(&self, f: &mut fmt::Formatter<W>) -> fmt::Result {
        let log = self.log;
        for reply in self.replies {
            let lines = AnswerLines { reply: *reply, log };
            write!(f, "{lines}")?;
        }
        Ok(())
    }
}

/// What is printed of a feed that is played on a fresh book, with a register of its own.
fn play_and_show(heap: Global, feed: &[u8], register: &mut [Trade]) -> Result<String, AllocError>
    requires { length register.old ≡ 255 }
    ensures { IfOk result (λ text. Printed feed.now (string_bytes text)) }
{
    let mut book = Table::new(heap, PLACES)?;
    let played = play(heap, &mut book, feed, register)?;
    let lines = FeedLines {
        replies: &played.replies,
        log: &played.trades,
    };
    format!(in heap; "{lines}")
}

/// What is printed of a feed.
pub fn report(heap: Global, feed: &[u8]) -> Result<String, AllocError>
    ensures { IfOk result (λ text. Reports feed.now (string_bytes text)) }
{
    if feed.len() > MAX_FEED {
        let line = FaultLine(Fault {
            cause: Cause::Malformed,
            line: 0,
            place: MAX_FEED,
        });
        return format!(in heap; "{line}");
    }
    // No constant of the library's: it would offer a trade that no note can hold.
    let nothing = Trade {
        buy: 0,
        sell: 0,
        quantity: 0,
    };
    let mut register = [nothing; REGISTER];
    play_and_show(heap, feed, &mut register)
}
