// What an intake gives out, and what a cut leaves of an order.
use crate::orders::{body, seen};
use book::Side::Sell;
use book::{BookRefusal, Intake, Live, cut_live};
use std::test::Fail;

#[test]
fn an_intake_gives_out_numbers_to_free_places(rt: HostRuntime) {
    let mut intake = Intake::new(2);
    assert_eq!(rt; intake.number(1), Ok(1));
    assert_eq!(rt; intake.number(2), Err(BookRefusal::Full));
    let spent = Intake {
        places: 2,
        last: 60_000,
    };
    intake = spent;
    assert_eq!(rt; intake.number(2), Err(BookRefusal::Full));
    assert_eq!(rt; intake.number(1), Err(BookRefusal::NumbersSpent));
    assert_eq!(rt; intake, spent);
}

#[test]
fn a_cut_leaves_an_order_or_none(rt: HostRuntime) -> Result<(), Fail> {
    let body = body(Sell, 100, 7)?;
    let live = Live { number: 3, body };
    assert_eq!(rt; cut_live(live, 0), Err(BookRefusal::CutRange));
    assert_eq!(rt; cut_live(live, 3), Ok(seen(3, Sell, 100, 4)?));
    assert_eq!(rt; cut_live(live, 7), Ok(None));
    assert_eq!(rt; cut_live(live, 8), Err(BookRefusal::CutRange));
    Ok(())
}
