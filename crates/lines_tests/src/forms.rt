// The five forms, the places of their fields, and the bounds of a number.
use crate::reads::{Said, first, next};
use book::Side;
use lines::{Field, Line, LineReader};
use std::test::Fail;

#[test]
fn each_form_reads(rt: HostRuntime) {
    let mut reader = LineReader::new(b"O 10 30000\nE B 6 10000\nE S 8 9990\nC 3 2\nW 9\nU\n");
    assert_eq!(rt; next(&mut reader), Some(Ok(Said::Opening(10, 30_000))));
    assert_eq!(rt;
        next(&mut reader),
        Some(Ok(Said::Entry(Side::Buy, 6, 10_000)))
    );
    assert_eq!(rt;
        next(&mut reader),
        Some(Ok(Said::Entry(Side::Sell, 8, 9_990)))
    );
    assert_eq!(rt; next(&mut reader), Some(Ok(Said::Cut(3, 2))));
    assert_eq!(rt; next(&mut reader), Some(Ok(Said::Withdrawal(9))));
    assert_eq!(rt; next(&mut reader), Some(Ok(Said::Uncrossing)));
    assert_eq!(rt; next(&mut reader), None);
}

#[test]
fn each_line_starts_behind_the_end_of_the_one_before(rt: HostRuntime) {
    let mut reader = LineReader::new(b"O 10 30000\nU\n");
    assert_eq!(rt; reader.position(), 0usize);
    assert_eq!(rt; next(&mut reader), Some(Ok(Said::Opening(10, 30_000))));
    assert_eq!(rt; reader.position(), 11usize);
    assert_eq!(rt; next(&mut reader), Some(Ok(Said::Uncrossing)));
    assert_eq!(rt; reader.position(), 13usize);
    assert_eq!(rt; next(&mut reader), None);
    assert_eq!(rt; reader.position(), 13usize);
}

#[test]
fn fields_stand_at_their_places_in_the_feed(rt: HostRuntime) -> Result<(), Fail> {
    let mut reader = LineReader::new(b"U\nE S 12 3450\n");
    assert_eq!(rt; next(&mut reader), Some(Ok(Said::Uncrossing)));
    let Some(
        Ok(
            Line::Entry {
                quantity,
                price,
                ..
            },
        ),
    ) = reader.next_line()
    else {
        assert!(rt; false);
        return Ok(());
    };
    assert_eq!(rt; quantity.place, 6usize);
    assert!(rt; quantity.text == b"12".as_slice());
    assert_eq!(rt; price.place, 9usize);
    assert!(rt; price.text == b"3450".as_slice());
    Ok(())
}

#[test]
fn a_number_has_at_most_nine_digits(rt: HostRuntime) {
    assert_eq!(rt;
        first(b"W 999999999\n"),
        Some(Ok(Said::Withdrawal(999_999_999)))
    );
    assert_eq!(rt; first(b"W 1234567890\n"), Some(Err(11)));
    assert_eq!(rt; first(b"C 1000000000 1\n"), Some(Err(11)));
}

#[test]
fn a_number_has_no_leading_zero_unless_it_is_zero(rt: HostRuntime) {
    assert_eq!(rt; first(b"W 0\n"), Some(Ok(Said::Withdrawal(0))));
    assert_eq!(rt; first(b"W 01\n"), Some(Err(3)));
    assert_eq!(rt; first(b"C 1 00\n"), Some(Err(5)));
}

#[test]
fn a_text_of_one_s_own_has_a_value_up_to_32_bits(rt: HostRuntime) {
    let text = b"4294967296";
    assert_eq!(rt; Field { text, place: 0 }.value(), u32::MAX);
    let text = b"0042";
    assert_eq!(rt; Field { text, place: 0 }.value(), 42u32);
}
