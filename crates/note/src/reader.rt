// Reads a note.
ghost use Rattle.std.specs.Prelude.{◌≡◌, length};
ghost use Rattle.note.specs.Notes.{within};
ghost use Rattle.note.specs.Reading.{read_number, read_trade, read_trades, read_answer, read_register, Decided};
ghost use Rattle.note.specs.Roundtrip.{Exact};
ghost use Rattle.note.specs.Steps.{pass_trades, carrying, Took, Judged};

use crate::numbers::leading_number;
use crate::refusals::NoteRefusal;
use crate::trades::{Heading, MAX_ORDER, MAX_PRICE, MAX_QUANTITY, MAX_TRADES, Trade};
use std::marker::Model;

/// So many bytes decide how they are read, whatever follows them. The longest note has three bytes fewer.
pub const DECISIVE_LEN: usize = 2049;

/// A reader of a note, which contracts see as the bytes that are left to read.
#[derive(Drop)]
pub struct NoteReader<'a> {
    bytes: &'a [u8],
}

impl<'a> Model for NoteReader<'a> {
    ghost use Rattle.std.specs.Prelude.{ℕ, List};

    ghost Value = { List ℕ };

    ghost view = { λ reader. reader.bytes.now };
}

impl<'a> NoteReader<'a> {
    /// A reader at the first of the bytes.
    pub fn new(bytes: &'a [u8]) -> NoteReader<'a>
        ensures { result ≡ bytes.now }
    {
        NoteReader { bytes }
    }

    /// Reads a number from 1 to `most`.
    fn number(&mut self, most: u32) -> Result<u32, NoteRefusal>
        ensures { Took (read_number (within most)) self.old self.new result }
    {
        let (n, rest) = leading_number(self.bytes).ok_or(NoteRefusal::BadNumber)?;
        if !(1..=most).contains(&n) {
            return Err(NoteRefusal::OutOfRange);
        }
        self.bytes = rest;
        Ok(n)
    }

    /// Reads a trade.
    #[tactic(auto, using(crate::proofs::Taking::trade_read))]
    fn trade(&mut self) -> Result<Trade, NoteRefusal>
        ensures { Took read_trade self.old self.new result }
    {
        let buy = self.number(MAX_ORDER)?;
        let sell = self.number(MAX_ORDER)?;
        if sell == buy {
            return Err(NoteRefusal::OutOfRange);
        }
        let quantity = self.number(MAX_QUANTITY)?;
        Ok(Trade {
            buy,
            sell,
            quantity,
        })
    }

    /// Reads so many trades and keeps none of them.
    fn pass_trades(&mut self, count: usize) -> Result<(), NoteRefusal>
        ensures { Took (pass_trades count) self.old self.new result }
    {
        for _i in 0..count {
            self.trade()?;
        }
        Ok(())
    }

    /// Reads a trade into each of the places.
    fn store_trades(&mut self, places: &mut [Trade]) -> Result<(), NoteRefusal>
        ensures { Took (read_trades (length places.old)) self.old self.new (carrying result places.new) }
    {
        for place in places {
            *place = self.trade()?;
        }
        Ok(())
    }

    /// Judges the whole note, and answers its heading and a reader at its trades.
    #[tactic(auto, unfolding(crate::specs::Reading::read_note))]
    fn judge(mut self) -> Result<(Heading, NoteReader<'a>), NoteRefusal>
        ensures { Judged self.entry result }
    {
        let price = self.number(MAX_PRICE)?;
        let count = self.number(MAX_TRADES as u32)? as usize;
        let trades = NoteReader::new(self.bytes);
        self.pass_trades(count)?;
        if !self.bytes.is_empty() {
            return Err(NoteRefusal::BytesLeft);
        }
        Ok((Heading { price, count }, trades))
    }

    /// Reads the note and stores its trades from the register's first place on, where later places stay.
    ///
    /// At each number in turn it is refused as a bad number, then as out of range; at the end for bytes left over, then for
    /// want of places. A refusal leaves the register as it was. The first `DECISIVE_LEN` bytes decide the answer.
    #[tactic(auto, using(crate::proofs::Deciding::decided))]
    pub fn read(self, register: &mut [Trade]) -> Result<Heading, NoteRefusal>
        ensures value { result ≡ read_answer self.entry (length register.old) }
        ensures after { register.new ≡ read_register self.entry register.old }
        ensures exact { Exact self.entry register.new result }
        ensures decided { Decided DECISIVE_LEN self.entry }
    {
        let (heading, mut trades) = self.judge()?;
        let count = heading.count;
        if register.len() < count {
            return Err(NoteRefusal::RegisterShort);
        }
        trades.store_trades(&mut register[0..count])?;
        Ok(heading)
    }
}
