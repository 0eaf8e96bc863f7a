// What is printed of inputs that are refused, and of the smallest note.
use crate::reports::report;
use std::process::Abort;
use std::test::Fail;

fn check_report(rt: &(impl Abort + AllocGlobal), input: &[u8], expected: &str) -> Result<(), Fail> {
    let text = report(rt.alloc(), input)?;
    assert!(rt; text.as_str() == expected);
    Ok(())
}

#[test]
fn a_refusal_has_its_number_and_reason(rt: HostRuntime) -> Result<(), Fail> {
    check_report(
        &rt,
        &[0x80, 0x00],
        "refused 15 number cut off, over-long or above 4294967295\n",
    )?;
    check_report(
        &rt,
        &[0x00],
        "refused 14 number out of range, or a trade of one order with itself\n",
    )?;
    check_report(
        &rt,
        &[1, 1, 1, 2, 1, 0],
        "refused 16 bytes left over after the note\n",
    )
}

#[test]
fn a_price_has_two_decimals(rt: HostRuntime) -> Result<(), Fail> {
    check_report(
        &rt,
        &[9, 1, 1, 2, 1],
        "price 9 centavos\nprice 0.09 pesos\ntrades 1\ncontracts 1\ntrade 1: buy 1, sell 2, quantity 1\n",
    )
}
