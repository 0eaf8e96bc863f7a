// A line as numbers, or where it is refused.
use book::Side;
use lines::{Line, LineReader};

/// What a line says, with the value of each number.
#[derive(Clone, Copy, Debug, PartialEq, Eq)]
pub(crate) enum Said {
    Opening(u32, u32),
    Entry(Side, u32, u32),
    Cut(u32, u32),
    Withdrawal(u32),
    Uncrossing,
}

impl<'a> From<Line<'a>> for Said {
    fn from(line: Line<'a>) -> Said {
        match line {
            Line::Opening { tick, scarcity } => Said::Opening(tick.value(), scarcity.value()),
            Line::Entry {
                side,
                quantity,
                price,
            } => Said::Entry(side, quantity.value(), price.value()),
            Line::Cut { number, quantity } => Said::Cut(number.value(), quantity.value()),
            Line::Withdrawal { number } => Said::Withdrawal(number.value()),
            Line::Uncrossing => Said::Uncrossing,
        }
    }
}

/// What the next line says, or the place at which it is refused.
pub(crate) fn next(reader: &mut LineReader) -> Option<Result<Said, usize>> {
    let read = reader.next_line()?;
    Some(read.map(Said::from).map_err(|fault| fault.place))
}

/// What the feed's first line says.
pub(crate) fn first(feed: &[u8]) -> Option<Result<Said, usize>> {
    next(&mut LineReader::new(feed))
}
