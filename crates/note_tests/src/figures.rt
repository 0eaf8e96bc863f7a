// The worked figures: of the definitions, by a contract, and of the code, by a run.
ghost use Rattle.note.specs.Figures.{NoteFigures};

use crate::notes::trade;
use note::{NoteRefusal, write_note};

/// Writes 60,000 and 127 as the orders of a trade. The figures hold of the definitions that `write_note` is proved against.
fn write_figures(buffer: &mut [u8]) -> Result<usize, NoteRefusal>
    ensures { NoteFigures }
{
    write_note(1, 1, &[trade(60_000, 127, 1)], buffer)
}

#[test]
fn the_worked_figures_hold(rt: HostRuntime) {
    let mut buffer = [0u8; 7];
    assert_eq!(rt; write_figures(&mut buffer), Ok(7));
    assert_eq!(rt; buffer, [1, 1, 0xe0, 0xd4, 0x03, 0x7f, 1]);
}
