// How far a number goes, and how far a line.
ghost use Rattle.std.specs.Char.{is_ascii_digit};
ghost use Rattle.std.specs.Prelude.{◌≡◌, ◌==◌, length, position, take, take_while};
ghost use Rattle.lines.specs.Reading.{line_length};
ghost use Rattle.lines.specs.Steps.{Leading};

use crate::fields::ZERO;

/// The most digits of a number.
const MAX_DIGITS: usize = 9;
/// The byte that ends a line.
pub(crate) const LINE_END: u8 = b'\n';

/// How many digits there are at the front, up to the most that count.
fn digits_len(bytes: &[u8], most: usize) -> usize
    ensures { result ≡ length (take_while is_ascii_digit (take most bytes.now)) }
{
    bytes
        .iter()
        .take(most)
        .take_while(|byte| byte.is_ascii_digit())
        .count()
}

/// How many bytes the longest number at the front has: 0 if there is none. None goes on behind a leading zero.
pub(crate) fn number_len(bytes: &[u8]) -> usize
    ensures { Leading bytes.now result }
{
    let most = if bytes.starts_with(&[ZERO]) {
        1
    } else {
        MAX_DIGITS
    };
    digits_len(bytes, most)
}

/// The place of the first line end, if there is one.
fn line_end(bytes: &[u8]) -> Option<usize>
    ensures { result ≡ position (λ b. b == 10) bytes.now }
{
    bytes.iter().position(|byte| *byte == LINE_END)
}

/// How many bytes the line at the front has, with its line end if there is one.
pub(crate) fn line_len(bytes: &[u8]) -> usize
    ensures { result ≡ line_length bytes.now }
{
    line_end(bytes).map_or(bytes.len(), |end| end + 1)
}
