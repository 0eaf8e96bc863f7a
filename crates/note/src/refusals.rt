// Why a note is refused.
ghost use Rattle.std.specs.Prelude.{◌≡◌, Some};
ghost use Rattle.note.specs.Refusals.{numbered, reason_text};

use std::fmt;

/// A refusal; each case carries its number.
#[derive(Clone, Copy, Debug, PartialEq, Eq)]
pub enum NoteRefusal {
    /// The register has fewer places than the note has trades.
    RegisterShort = 12,
    /// The buffer has fewer bytes than the note.
    BufferShort = 13,
    /// A price, a count, an order number or a quantity is out of its range, or a trade's two order numbers are equal.
    OutOfRange = 14,
    /// A number is cut off, over-long or above 4,294,967,295.
    BadNumber = 15,
    /// Bytes are left over after the note.
    BytesLeft = 16,
}

/// The refusal's number.
impl From<NoteRefusal> for u8 {
    ghost from_gives = { λ why code. code ≡ numbered why };

    fn from(why: NoteRefusal) -> u8 {
        why as u8
    }
}

impl NoteRefusal {
    /// The reason in words.
    // It stays beside `Display`, which promises the words only of a write that went well: here no writer can fail.
    pub fn reason(self) -> &'static str
        ensures { result.now ≡ reason_text self }
    {
        match self {
            NoteRefusal::RegisterShort => "more trades than the register has places",
            NoteRefusal::BufferShort => "note longer than the buffer",
            NoteRefusal::OutOfRange => "number out of range, or a trade of one order with itself",
            NoteRefusal::BadNumber => "number cut off, over-long or above 4294967295",
            NoteRefusal::BytesLeft => "bytes left over after the note",
        }
    }
}

/// Prints the reason in words.
impl fmt::Display for NoteRefusal {
    ghost output = { λ why. Some (reason_text why) };

    fn fmt<W: fmt::Write>(&self, f: &mut fmt::Formatter<W>) -> fmt::Result {
        f.write_str(self.reason())
    }
}
