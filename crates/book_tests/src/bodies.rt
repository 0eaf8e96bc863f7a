// Bodies at and past the ends of their ranges, and the numbers of the refusals.
use book::{Body, BookRefusal, Side};

/// The limit and the quantity of a body.
fn figures(body: Option<Body>) -> Option<(u32, u32)> {
    body.map(|body| (body.limit, body.quantity))
}

/// The side of a body.
fn side_of(body: Option<Body>) -> Option<Side> {
    body.map(|body| body.side)
}

#[test]
fn a_limit_is_judged_at_both_ends(rt: HostRuntime) {
    for side in [Side::Buy, Side::Sell] {
        assert_eq!(rt; figures(Body::new(side, 0, 5)), None);
        assert_eq!(rt; figures(Body::new(side, 1, 5)), Some((1, 5)));
        assert_eq!(rt;
            figures(Body::new(side, 10_000_000, 5)),
            Some((10_000_000, 5))
        );
        assert_eq!(rt; figures(Body::new(side, 10_000_001, 5)), None);
        assert_eq!(rt; figures(Body::new(side, 4_294_967_295, 5)), None);
    }
}

#[test]
fn a_quantity_is_judged_at_both_ends(rt: HostRuntime) {
    for side in [Side::Buy, Side::Sell] {
        assert_eq!(rt; figures(Body::new(side, 100, 0)), None);
        assert_eq!(rt; figures(Body::new(side, 100, 1)), Some((100, 1)));
        assert_eq!(rt; figures(Body::new(side, 100, 6_858)), Some((100, 6_858)));
        assert_eq!(rt; figures(Body::new(side, 100, 6_859)), None);
        assert_eq!(rt; figures(Body::new(side, 100, 4_294_967_295)), None);
    }
}

#[test]
fn a_body_has_the_side_it_is_given(rt: HostRuntime) {
    assert_eq!(rt; side_of(Body::new(Side::Buy, 1, 1)), Some(Side::Buy));
    assert_eq!(rt; side_of(Body::new(Side::Sell, 1, 1)), Some(Side::Sell));
    assert_eq!(rt; side_of(Body::new(Side::Sell, 0, 0)), None);
}

/// What is left of a sell of 7 contracts at 100 with so many less.
fn left(by: u32) -> Option<Body> {
    Body::new(Side::Sell, 100, 7)?.less(by)
}

#[test]
fn a_body_with_nothing_left_is_none(rt: HostRuntime) {
    assert_eq!(rt; figures(left(0)), Some((100, 7)));
    assert_eq!(rt; figures(left(1)), Some((100, 6)));
    assert_eq!(rt; figures(left(6)), Some((100, 1)));
    assert_eq!(rt; figures(left(7)), None);
    assert_eq!(rt; figures(left(8)), None);
    assert_eq!(rt; figures(left(4_294_967_295)), None);
    assert_eq!(rt; side_of(left(3)), Some(Side::Sell));
}

#[test]
fn each_refusal_has_its_number(rt: HostRuntime) {
    assert_eq!(rt; u8::from(BookRefusal::UnknownOrder), 7);
    assert_eq!(rt; u8::from(BookRefusal::CutRange), 8);
    assert_eq!(rt; u8::from(BookRefusal::Full), 9);
    assert_eq!(rt; u8::from(BookRefusal::NumbersSpent), 10);
}
