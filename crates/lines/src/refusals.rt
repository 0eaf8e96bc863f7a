// Why a line is refused.
ghost use Rattle.std.specs.Prelude.{◌≡◌};

/// None of the five forms can go on at the byte at `place`, or the feed ends there before the line does.
#[derive(Clone, Copy, Debug, PartialEq, Eq)]
pub struct MalformedLine {
    pub place: usize,
}

/// The refusal's number.
impl From<MalformedLine> for u8 {
    ghost from_gives = { λ _ code. code ≡ 1 };

    fn from(_: MalformedLine) -> u8 {
        1
    }
}
