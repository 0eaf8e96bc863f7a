// Writing: lengths at the ends of groups, ranges at and past their ends, and what the buffer holds.
use crate::notes::{answer, trade, written};
use note::{Heading, NoteRefusal, encoded_len, write_note};

#[test]
fn a_length_is_a_count_of_groups(rt: HostRuntime) {
    for (n, len) in [
        (0u32, 1usize),
        (1, 1),
        (127, 1),
        (128, 2),
        (16_383, 2),
        (16_384, 3),
        (2_097_151, 3),
        (2_097_152, 4),
        (268_435_455, 4),
        (268_435_456, 5),
        (4_294_967_295, 5),
    ] {
        assert_eq!(rt; encoded_len(n), len);
    }
}

#[test]
fn the_sample_is_nine_bytes(rt: HostRuntime) {
    let register = [trade(1, 3, 6), trade(2, 3, 2), trade(0, 0, 0)];
    let mut buffer = [0xaau8; 11];
    assert_eq!(rt; write_note(10_000, 2, &register, &mut buffer), Ok(9));
    assert_eq!(rt; buffer, [0x90, 0x4e, 2, 1, 3, 6, 2, 3, 2, 0xaa, 0xaa]);
}

#[test]
fn ranges_are_judged_at_both_ends(rt: HostRuntime) {
    let out = Err(NoteRefusal::OutOfRange);
    assert_eq!(rt; written(1, 1, 60_000, 1), Ok(7));
    assert_eq!(rt; written(10_000_000, 60_000, 1, 6_858), Ok(11));
    assert_eq!(rt; written(0, 1, 2, 1), out);
    assert_eq!(rt; written(10_000_001, 1, 2, 1), out);
    assert_eq!(rt; written(1, 0, 2, 1), out);
    assert_eq!(rt; written(1, 60_001, 2, 1), out);
    assert_eq!(rt; written(1, 1, 0, 1), out);
    assert_eq!(rt; written(1, 1, 60_001, 1), out);
    assert_eq!(rt; written(1, 5, 5, 1), out);
    assert_eq!(rt; written(1, 1, 2, 0), out);
    assert_eq!(rt; written(1, 1, 2, 6_859), out);
    assert_eq!(rt; written(4_294_967_295, 1, 2, 1), out);
}

#[test]
fn a_count_is_that_of_trades_in_the_register(rt: HostRuntime) {
    let out = Err(NoteRefusal::OutOfRange);
    let register = [trade(1, 2, 3)];
    let mut buffer = [0u8; 16];
    assert_eq!(rt; write_note(1, 0, &register, &mut buffer), out);
    assert_eq!(rt; write_note(1, 2, &register, &mut buffer), out);
    assert_eq!(rt; write_note(1, usize::MAX, &register, &mut buffer), out);
    assert_eq!(rt; write_note(1, 1, &[], &mut buffer), out);
    assert_eq!(rt; write_note(1, 1, &register, &mut buffer), Ok(5));
}

#[test]
fn a_short_buffer_is_left(rt: HostRuntime) {
    let register = [trade(1, 2, 3)];
    let mut buffer = [7u8; 4];
    assert_eq!(rt;
        write_note(1, 1, &register, &mut buffer),
        Err(NoteRefusal::BufferShort)
    );
    assert_eq!(rt;
        write_note(0, 1, &register, &mut buffer),
        Err(NoteRefusal::OutOfRange)
    );
    assert_eq!(rt; buffer, [7u8; 4]);
}

#[test]
fn a_note_has_at_most_255_trades(rt: HostRuntime) {
    let register = [trade(60_000, 59_999, 6_858); 256];
    let mut buffer = [0u8; 2_048];
    assert_eq!(rt;
        write_note(10_000_000, 256, &register, &mut buffer),
        Err(NoteRefusal::OutOfRange)
    );
    assert_eq!(rt;
        write_note(10_000_000, 255, &register, &mut buffer),
        Ok(2_046)
    );
    assert_eq!(rt;
        answer(&buffer[0..2_046]),
        Ok(Heading {
            price: 10_000_000,
            count: 255,
        })
    );
    assert_eq!(rt; answer(&buffer), Err(NoteRefusal::BytesLeft));
}
