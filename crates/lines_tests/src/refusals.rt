// The byte at fault, and how a refused line is skipped.
use crate::reads::{Said, first, next};
use lines::{LineReader, MalformedLine};

#[test]
fn letters_are_the_five_and_upper_case(rt: HostRuntime) {
    assert_eq!(rt; first(b"X\n"), Some(Err(0)));
    assert_eq!(rt; first(b"u\n"), Some(Err(0)));
    assert_eq!(rt; first(b"E b 1 2\n"), Some(Err(2)));
    assert_eq!(rt; first(b"E BS 1 2\n"), Some(Err(3)));
}

#[test]
fn spaces_are_single(rt: HostRuntime) {
    assert_eq!(rt; first(b" U\n"), Some(Err(0)));
    assert_eq!(rt; first(b"C 1  2\n"), Some(Err(4)));
    assert_eq!(rt; first(b"U \n"), Some(Err(1)));
    assert_eq!(rt; first(b"O\t1 2\n"), Some(Err(1)));
}

#[test]
fn a_number_has_no_sign(rt: HostRuntime) {
    assert_eq!(rt; first(b"W -0\n"), Some(Err(2)));
    assert_eq!(rt; first(b"W +1\n"), Some(Err(2)));
    assert_eq!(rt; first(b"W 1-\n"), Some(Err(3)));
}

#[test]
fn other_bytes_are_at_fault_where_they_stand(rt: HostRuntime) {
    assert_eq!(rt; first(b"U\r\n"), Some(Err(1)));
    assert_eq!(rt; first(b"W 1\0\n"), Some(Err(3)));
    assert_eq!(rt; first(b"\0U\n"), Some(Err(0)));
    assert_eq!(rt; first(&[0x57, 0x20, 0xb1, 0x0a]), Some(Err(2)));
    assert_eq!(rt; first(&[0xff]), Some(Err(0)));
}

#[test]
fn a_line_with_a_field_too_few_is_refused_at_its_end(rt: HostRuntime) {
    assert_eq!(rt; first(b"O 1\n"), Some(Err(3)));
    assert_eq!(rt; first(b"E B 1\n"), Some(Err(5)));
    assert_eq!(rt; first(b"W \n"), Some(Err(2)));
}

#[test]
fn an_unended_line_is_refused_at_the_feeds_end_or_before(rt: HostRuntime) {
    assert_eq!(rt; first(b""), None);
    assert_eq!(rt; first(b"U"), Some(Err(1)));
    assert_eq!(rt; first(b"W 12"), Some(Err(4)));
    assert_eq!(rt; first(b"E S "), Some(Err(4)));
    assert_eq!(rt; first(b"W 1x"), Some(Err(3)));
}

#[test]
fn a_refused_line_is_skipped_whole(rt: HostRuntime) {
    let mut reader = LineReader::new(b"X 1 2\n\nU\nO 01 5");
    assert_eq!(rt; next(&mut reader), Some(Err(0)));
    assert_eq!(rt; reader.position(), 6usize);
    assert_eq!(rt; next(&mut reader), Some(Err(6)));
    assert_eq!(rt; reader.position(), 7usize);
    assert_eq!(rt; next(&mut reader), Some(Ok(Said::Uncrossing)));
    assert_eq!(rt; next(&mut reader), Some(Err(12)));
    assert_eq!(rt; reader.position(), 15usize);
    assert_eq!(rt; next(&mut reader), None);
}

#[test]
fn the_refusal_has_the_number_one(rt: HostRuntime) {
    assert_eq!(rt; u8::from(MalformedLine { place: 0 }), 1u8);
}
