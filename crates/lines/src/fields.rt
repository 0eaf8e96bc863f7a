// A number of a line, with its place in the feed.
ghost use Rattle.std.specs.Prelude.{◌≡◌, ◌<◌, min, true};
ghost use Rattle.lines.specs.Digits.{is_number, value as decimal};

/// The byte of the digit 0.
pub(crate) const ZERO: u8 = b'0';

/// A part of the feed, with the byte place at which it begins, counted from 0.
// That the text is a number is no fact of the type: a caller may make a field of any bytes, and ask for its value.
#[derive(Clone, Copy, Debug)]
pub struct Field<'a> {
    pub text: &'a [u8],
    pub place: usize,
}

impl<'a> Field<'a> {
    /// The number that the text is, which has at most nine digits in a line that was handed out.
    ///
    /// Of any other text, each byte counts as far as it is above the byte of 0, and the largest `u32` stands for more.
    pub fn value(self) -> u32
        ensures exact { is_number self.entry.text.now ≡ true → (result ≡ decimal self.entry.text.now) × (result < 1000000000) }
        ensures capped { result ≡ min 4294967295 (decimal self.entry.text.now) }
    {
        self.text.iter().fold(0, |value, digit| {
            value
                .saturating_mul(10)
                .saturating_add(u32::from(digit.saturating_sub(ZERO)))
        })
    }
}
