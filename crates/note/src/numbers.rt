// Numbers in seven-bit groups, the lowest first, each but the last with its high bit set, in the fewest bytes.
ghost use Rattle.std.specs.Prelude.{◌≡◌, ◌≤◌, length};
ghost use Rattle.std.specs.Option.{option_map};
ghost use Rattle.note.specs.Numbers.{encoded, number};
ghost use Rattle.note.specs.Steps.{misplaced};

/// The high bit of a byte: another group follows.
const MORE: u8 = 0x80;
/// The seven bits of a group.
const GROUP: u8 = 0x7f;
/// The most that the fifth group of 32 bits can hold.
const TOP: u8 = 0x0f;

/// How many bytes the encoding of `n` takes: its groups, counted from its highest set bit.
pub fn encoded_len(n: u32) -> usize
    ensures value { result ≡ length (encoded n) }
    ensures bound { result ≤ 5 }
{
    let bits = u32::BITS - n.max(1).leading_zeros();
    bits.div_ceil(7) as usize
}

/// Whether no number has this byte as its group at this place: it is over-long or too large then, whatever follows.
fn is_misplaced(place: usize, byte: u8) -> bool
    ensures { result ≡ misplaced place byte }
{
    (place > 0 && byte == 0) || (place == 4 && byte > TOP)
}

/// The number at the front of the bytes and the bytes after it; `None` if it is cut off, over-long or too large.
pub(crate) fn leading_number(bytes: &[u8]) -> Option<(u32, &[u8])>
    ensures { option_map (λ front. (front.0, front.1.now)) result ≡ number bytes.now }
{
    let mut value = 0u32;
    for (place, byte) in bytes.iter().enumerate() {
        if is_misplaced(place, *byte) {
            return None;
        }
        value |= u32::from(*byte & GROUP) << (7 * place);
        if *byte < MORE {
            return Some((value, &bytes[place + 1..]));
        }
    }
    None
}

/// Writes the encoding of `n` into a place of just its length.
pub(crate) fn write_number(place: &mut [u8], n: u32)
    requires { length place.old ≡ length (encoded n) }
    ensures { place.new ≡ encoded n }
{
    let mut rest = n;
    // Always so: no encoding is empty.
    if let Some((last, others)) = place.split_last_mut() {
        for byte in others {
            *byte = (rest & GROUP as u32) as u8 | MORE;
            rest >>= 7;
        }
        *last = rest as u8;
    }
}
