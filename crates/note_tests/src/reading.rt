// Reading: numbers at the ends of their groups, ranges, order of judgement, and what the register holds.
use crate::notes::{answer, trade};
use note::{Heading, NoteReader, NoteRefusal};

fn one_trade(price: u32) -> Result<Heading, NoteRefusal> {
    Ok(Heading { price, count: 1 })
}

#[test]
fn the_sample_reads_as_two_trades(rt: HostRuntime) {
    let mut register = [trade(9, 9, 9); 3];
    let bytes = [0x90, 0x4e, 2, 1, 3, 6, 2, 3, 2];
    assert_eq!(rt;
        NoteReader::new(&bytes).read(&mut register),
        Ok(Heading {
            price: 10_000,
            count: 2,
        })
    );
    assert_eq!(rt; register, [trade(1, 3, 6), trade(2, 3, 2), trade(9, 9, 9)]);
}

#[test]
fn a_number_ends_with_its_last_group(rt: HostRuntime) {
    assert_eq!(rt; answer(&[1, 1, 1, 2, 1]), one_trade(1));
    assert_eq!(rt; answer(&[0x7f, 1, 1, 2, 1]), one_trade(127));
    assert_eq!(rt; answer(&[0x80, 1, 1, 1, 2, 1]), one_trade(128));
    assert_eq!(rt; answer(&[0xff, 0x7f, 1, 1, 2, 1]), one_trade(16_383));
    assert_eq!(rt; answer(&[0x80, 0x80, 1, 1, 1, 2, 1]), one_trade(16_384));
    assert_eq!(rt;
        answer(&[0x80, 0xad, 0xe2, 0x04, 1, 1, 2, 1]),
        one_trade(10_000_000)
    );
    assert_eq!(rt; answer(&[1, 1, 0xe0, 0xd4, 3, 1, 0xca, 0x35]), one_trade(1));
}

#[test]
fn a_number_is_judged_before_its_range(rt: HostRuntime) {
    let bad = Err(NoteRefusal::BadNumber);
    let out = Err(NoteRefusal::OutOfRange);
    assert_eq!(rt; answer(&[]), bad);
    assert_eq!(rt; answer(&[0]), out);
    assert_eq!(rt; answer(&[0x80]), bad);
    assert_eq!(rt; answer(&[0x80, 0]), bad);
    assert_eq!(rt; answer(&[0x81, 0x80, 0]), bad);
    assert_eq!(rt; answer(&[0x81, 0xad, 0xe2, 0x04]), out);
    assert_eq!(rt; answer(&[0xff, 0xff, 0xff, 0xff, 0x0f]), out);
    assert_eq!(rt; answer(&[0x80, 0x80, 0x80, 0x80, 0x10]), bad);
    assert_eq!(rt; answer(&[0x81, 0x80, 0x80, 0x80, 0x10, 1, 1, 2, 1]), bad);
    assert_eq!(rt;
        answer(&[
            0x81, 0x80, 0x80, 0x80, 0x80, 0x80, 0x80, 0x80, 0x80, 2, 1, 1, 2, 1,
        ],),
        bad
    );
}

#[test]
fn each_number_has_its_range(rt: HostRuntime) {
    let out = Err(NoteRefusal::OutOfRange);
    assert_eq!(rt; answer(&[1, 0]), out);
    assert_eq!(rt; answer(&[1, 0x80, 2]), out);
    assert_eq!(rt; answer(&[1, 1, 0]), out);
    assert_eq!(rt; answer(&[1, 1, 0xe1, 0xd4, 3]), out);
    assert_eq!(rt; answer(&[1, 1, 1, 0xe1, 0xd4, 3]), out);
    assert_eq!(rt; answer(&[1, 1, 5, 5]), out);
    assert_eq!(rt; answer(&[1, 1, 1, 2, 0]), out);
    assert_eq!(rt; answer(&[1, 1, 1, 2, 0xcb, 0x35]), out);
    assert_eq!(rt; answer(&[1, 1, 1, 2]), Err(NoteRefusal::BadNumber));
}

#[test]
fn what_is_left_over_is_judged_last_but_places(rt: HostRuntime) {
    let left = Err(NoteRefusal::BytesLeft);
    assert_eq!(rt; answer(&[1, 1, 1, 2, 1, 0]), left);
    assert_eq!(rt; answer(&[1, 1, 1, 2, 0, 0]), Err(NoteRefusal::OutOfRange));
    assert_eq!(rt; NoteReader::new(&[1, 1, 1, 2, 1, 0]).read(&mut []), left);
    assert_eq!(rt;
        NoteReader::new(&[1, 1, 1, 2, 1]).read(&mut []),
        Err(NoteRefusal::RegisterShort)
    );
}

#[test]
fn a_refusal_leaves_the_register(rt: HostRuntime) {
    let before = [trade(7, 8, 9)];
    let mut register = before;
    assert_eq!(rt;
        NoteReader::new(&[1, 2, 1, 2, 3, 1, 2, 3]).read(&mut register),
        Err(NoteRefusal::RegisterShort)
    );
    assert_eq!(rt; register, before);
    assert_eq!(rt;
        NoteReader::new(&[1, 1, 1, 2, 3, 0]).read(&mut register),
        Err(NoteRefusal::BytesLeft)
    );
    assert_eq!(rt; register, before);
}
