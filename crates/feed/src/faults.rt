// Why a line is refused, and where.
ghost use Rattle.std.specs.Prelude.{◌≡◌, Some};
ghost use Rattle.feed.specs.Faults.{number_of, layer_at, layer_of, layer_text};

use std::fmt;
use trading::Refusal;

/// Why a line is refused.
#[derive(Clone, Copy, Debug, PartialEq, Eq)]
pub enum Cause {
    /// None of the five forms stands there.
    Malformed,
    /// A second opening after an accepted one, or another message before one.
    OutOfTurn,
    /// What the line asks is refused.
    Refused(Refusal),
}

/// The layer that refuses: that of a refused call, or the reading before it.
// The layers of a call stand beside the reading, not wrapped in one case: so each layer has one name.
#[derive(Clone, Copy, Debug, PartialEq, Eq)]
pub enum Layer {
    Read,
    Session,
    Book,
}

/// A refused line: why, its line counted from 1, and the byte at fault, counted from 0 over the whole feed.
#[derive(Clone, Copy, Debug, PartialEq, Eq)]
pub struct Fault {
    pub cause: Cause,
    pub line: usize,
    pub place: usize,
}

/// The layer that refuses a call.
impl From<trading::Layer> for Layer {
    ghost from_gives = { λ refusing layer. layer ≡ layer_at refusing };

    fn from(refusing: trading::Layer) -> Layer {
        match refusing {
            trading::Layer::Session => Layer::Session,
            trading::Layer::Book => Layer::Book,
        }
    }
}

/// The refusal's number.
impl From<Cause> for u8 {
    ghost from_gives = { λ why code. code ≡ number_of why };

    fn from(why: Cause) -> u8 {
        match why {
            Cause::Malformed => 1,
            Cause::OutOfTurn => 2,
            Cause::Refused(cause) => u8::from(cause),
        }
    }
}

impl Cause {
    /// The layer that refuses.
    pub fn layer(self) -> Layer
        ensures { result ≡ layer_of self }
    {
        match self {
            Cause::Malformed | Cause::OutOfTurn => Layer::Read,
            Cause::Refused(why) => Layer::from(why.layer()),
        }
    }
}

impl Layer {
    /// The layer's word.
    // It stays beside `Display`, which promises the word only of a write that went well: here no writer can fail.
    pub fn word(self) -> &'static str
        ensures { result.now ≡ layer_text self }
    {
        match self {
            Layer::Read => "read",
            Layer::Session => "session",
            Layer::Book => "book",
        }
    }
}

/// Prints the layer's word.
impl fmt::Display for Layer {
    ghost output = { λ layer. Some (layer_text layer) };

    fn fmt<W: fmt::Write>(&self, f: &mut fmt::Formatter<W>) -> fmt::Result {
        f.write_str(self.word())
    }
}
