// Reads the lines of a feed.
ghost use Rattle.std.specs.Prelude.{◌≡◌, ◌<◌, length};
ghost use Rattle.lines.specs.Kinds.{Opening, Entry, Cut, Withdrawal, Uncrossing};
ghost use Rattle.lines.specs.Reading.{next_start, Answered};
ghost use Rattle.lines.specs.Steps.{Next, PassedByte, TookSide, TookNumber, TookField, TookLastField, TookFields, TookForm, TookLine};

use crate::fields::Field;
use crate::kinds::Line;
use crate::reader::LineReader;
use crate::refusals::MalformedLine;
use crate::scan::{LINE_END, line_len, number_len};
use book::Side;

/// The byte that parts fields.
const SPACE: u8 = b' ';

impl<'a> LineReader<'a> {
    /// The byte that comes next, if there is one.
    fn peek(&self) -> Option<u8>
        ensures { Next self.now result }
    {
        self.feed.get(self.position).copied()
    }

    /// Passes the byte if it comes next.
    fn pass(&mut self, byte: u8) -> Option<()>
        ensures { PassedByte byte self.old self.new result }
    {
        let next = self.peek()?;
        if next != byte {
            return None;
        }
        self.position += 1;
        Some(())
    }

    /// Takes a space and the letter of a side.
    fn side(&mut self) -> Option<Side>
        ensures { TookSide self.old self.new result }
    {
        self.pass(SPACE)?;
        let letter = self.peek()?;
        let side = match letter as char {
            'B' => Side::Buy,
            'S' => Side::Sell,
            _ => return None,
        };
        self.position += 1;
        Some(side)
    }

    /// Takes a number as far as it goes.
    fn number(&mut self) -> Option<Field<'a>>
        ensures { TookNumber self.old self.new result }
    {
        let place = self.position;
        let rest = &self.feed[place..];
        let len = number_len(rest);
        if len == 0 {
            return None;
        }
        self.position += len;
        Some(Field {
            text: &rest[..len],
            place,
        })
    }

    /// Takes a space and a number.
    fn field(&mut self) -> Option<Field<'a>>
        ensures { TookField self.old self.new result }
    {
        self.pass(SPACE)?;
        self.number()
    }

    /// Takes the last field of a line and the byte that ends it.
    fn last_field(&mut self) -> Option<Field<'a>>
        ensures { TookLastField self.old self.new result }
    {
        let field = self.field()?;
        self.pass(LINE_END)?;
        Some(field)
    }

    /// Takes the last two fields of a line and the byte that ends it.
    fn last_fields(&mut self) -> Option<(Field<'a>, Field<'a>)>
        ensures { TookFields self.old self.new result }
    {
        let first = self.field()?;
        let second = self.last_field()?;
        Some((first, second))
    }

    /// Takes `O tick scarcity`.
    fn opening(&mut self) -> Option<Line<'a>>
        ensures { TookForm Opening self.old self.new result }
    {
        self.pass(b'O')?;
        let (tick, scarcity) = self.last_fields()?;
        Some(Line::Opening { tick, scarcity })
    }

    /// Takes `E side quantity price`.
    fn entry(&mut self) -> Option<Line<'a>>
        ensures { TookForm Entry self.old self.new result }
    {
        self.pass(b'E')?;
        let side = self.side()?;
        let (quantity, price) = self.last_fields()?;
        Some(Line::Entry {
            side,
            quantity,
            price,
        })
    }

    /// Takes `C number quantity`.
    fn cut(&mut self) -> Option<Line<'a>>
        ensures { TookForm Cut self.old self.new result }
    {
        self.pass(b'C')?;
        let (number, quantity) = self.last_fields()?;
        Some(Line::Cut { number, quantity })
    }

    /// Takes `W number`.
    fn withdrawal(&mut self) -> Option<Line<'a>>
        ensures { TookForm Withdrawal self.old self.new result }
    {
        self.pass(b'W')?;
        let number = self.last_field()?;
        Some(Line::Withdrawal { number })
    }

    /// Takes `U`.
    fn uncrossing(&mut self) -> Option<Line<'a>>
        ensures { TookForm Uncrossing self.old self.new result }
    {
        self.pass(b'U')?;
        self.pass(LINE_END)?;
        Some(Line::Uncrossing)
    }

    /// Takes a line, or stops at the byte that no form can take.
    #[tactic(auto, using(crate::proofs::Lining::line_of))]
    fn line(&mut self) -> Option<Line<'a>>
        ensures { TookLine self.old self.new result }
    {
        let letter = self.peek()?;
        match letter as char {
            'O' => self.opening(),
            'E' => self.entry(),
            'C' => self.cut(),
            'W' => self.withdrawal(),
            'U' => self.uncrossing(),
            _ => None,
        }
    }

    /// Reads the line at the position, and moves behind the byte that ends it, or to the feed's end.
    ///
    /// `None` at the feed's end. A line that has none of the five forms is refused at the first byte that no form can take;
    /// at the feed's end if only its end is lacking.
    // The clauses name the feed and places in it, not the reader as a whole: so are the lines of a whole feed defined.
    pub fn next_line(&mut self) -> Option<Result<Line<'a>, MalformedLine>>
        ensures same { self.new.feed.now ≡ self.old.feed.now }
        ensures next { self.new.position ≡ next_start self.old.feed.now self.old.position }
        ensures onward { self.old.position < length self.old.feed.now → self.old.position < self.new.position }
        ensures answer { Answered self.old.feed.now self.old.position result self.new.position }
    {
        if self.position >= self.feed.len() {
            return None;
        }
        if let Some(line) = self.line() {
            return Some(Ok(line));
        }
        let place = self.position;
        self.position += line_len(&self.feed[place..]);
        Some(Err(MalformedLine { place }))
    }
}
