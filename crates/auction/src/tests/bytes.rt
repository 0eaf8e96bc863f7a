// Bytes that none of the five forms can take.
use crate::tests::prints;
use std::test::Fail;

#[test]
fn a_malformed_line_is_at_fault_where_no_form_goes_on(rt: HostRuntime) -> Result<(), Fail> {
    prints(
        &rt,
        b"X 1\n\nE b 6 100\nC 1  2\nW 01\nO 10\n",
        "refused 1 read 1 0\nrefused 1 read 2 4\nrefused 1 read 3 7\nrefused 1 read 4 19\nrefused 1 read 5 25\nrefused 1 read 6 31\n",
    )
}

#[test]
fn signs_and_spaces_are_no_part_of_a_number(rt: HostRuntime) -> Result<(), Fail> {
    prints(
        &rt,
        b"W -0\nW +1\n W 1\nW  1\nW 1 \n",
        "refused 1 read 1 2\nrefused 1 read 2 7\nrefused 1 read 3 10\nrefused 1 read 4 17\nrefused 1 read 5 23\n",
    )
}

#[test]
fn a_carriage_return_is_at_fault(rt: HostRuntime) -> Result<(), Fail> {
    prints(
        &rt,
        b"O 10 30000\r\nO 10 30000\nU\r\n",
        "refused 1 read 1 10\nok\nrefused 1 read 3 24\n",
    )
}

#[test]
fn any_other_byte_is_at_fault(rt: HostRuntime) -> Result<(), Fail> {
    prints(
        &rt,
        b"\0\nU\xff\nW \x80\n\xc3\xa9\n",
        "refused 1 read 1 0\nrefused 1 read 2 3\nrefused 1 read 3 7\nrefused 1 read 4 9\n",
    )
}

#[test]
fn a_number_has_nine_digits_at_most(rt: HostRuntime) -> Result<(), Fail> {
    prints(
        &rt,
        b"O 10 30000\nW 1234567890\nW 123456789\n",
        "ok\nrefused 1 read 2 22\nrefused 7 book 3 26\n",
    )
}

#[test]
fn zero_is_a_number_and_begins_no_other(rt: HostRuntime) -> Result<(), Fail> {
    prints(
        &rt,
        b"O 10 30000\nC 0 0\nC 00 1\n",
        "ok\nrefused 7 book 2 13\nrefused 1 read 3 20\n",
    )
}

#[test]
fn a_last_line_without_its_end_is_refused_at_the_end(rt: HostRuntime) -> Result<(), Fail> {
    prints(&rt, b"O 10 30000\nU", "ok\nrefused 1 read 2 12\n")?;
    prints(&rt, b"O 10 30000", "refused 1 read 1 10\n")
}

#[test]
fn empty_lines_are_lines(rt: HostRuntime) -> Result<(), Fail> {
    prints(
        &rt,
        b"\nO 10 30000\n\nU\n",
        "refused 1 read 1 0\nok\nrefused 1 read 3 12\nrefused 11 session 4 13\n",
    )
}
