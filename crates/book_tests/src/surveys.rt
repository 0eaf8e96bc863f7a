// Survey prices: where the last of a run is placed, and whether a run is in rank.
use ranking::{SurveyPrice, is_in_rank, settle_last};

fn at(price: u32, contributor: u16) -> SurveyPrice {
    SurveyPrice { price, contributor }
}

/// Three prices in rank and one more, once that is placed.
fn settled(last: SurveyPrice) -> [SurveyPrice; 4] {
    let mut run = [at(100, 7), at(200, 3), at(200, 5), last];
    settle_last(&mut run);
    run
}

#[test]
fn a_price_is_placed_by_price(rt: HostRuntime) {
    let (a, b, c) = (at(100, 7), at(200, 3), at(200, 5));
    assert_eq!(rt; settled(at(99, 9)), [at(99, 9), a, b, c]);
    assert_eq!(rt; settled(at(150, 9)), [a, at(150, 9), b, c]);
    assert_eq!(rt; settled(at(201, 0)), [a, b, c, at(201, 0)]);
    assert_eq!(rt; settled(at(0, 65_535)), [at(0, 65_535), a, b, c]);
    assert_eq!(rt;
        settled(at(4_294_967_295, 0)),
        [a, b, c, at(4_294_967_295, 0)]
    );
}

#[test]
fn an_equal_price_is_placed_by_code(rt: HostRuntime) {
    let (a, b, c) = (at(100, 7), at(200, 3), at(200, 5));
    assert_eq!(rt; settled(at(100, 6)), [at(100, 6), a, b, c]);
    assert_eq!(rt; settled(at(100, 8)), [a, at(100, 8), b, c]);
    assert_eq!(rt; settled(at(200, 2)), [a, at(200, 2), b, c]);
    assert_eq!(rt; settled(at(200, 4)), [a, b, at(200, 4), c]);
    assert_eq!(rt; settled(at(200, 6)), [a, b, c, at(200, 6)]);
    assert_eq!(rt; settled(at(200, 3)), [a, b, at(200, 3), c]);
}

#[test]
fn a_run_of_none_or_one_stays(rt: HostRuntime) {
    let mut none: [SurveyPrice; 0] = [];
    settle_last(&mut none);
    assert!(rt; is_in_rank(&none));
    let mut one = [at(5, 5)];
    settle_last(&mut one);
    assert_eq!(rt; one, [at(5, 5)]);
    assert!(rt; is_in_rank(&one));
}

#[test]
fn the_last_goes_before_the_first_that_it_outranks(rt: HostRuntime) {
    let mut run = [at(300, 1), at(100, 1), at(200, 1)];
    settle_last(&mut run);
    assert_eq!(rt; run, [at(200, 1), at(300, 1), at(100, 1)]);
    assert!(rt; !is_in_rank(&run));
    settle_last(&mut run);
    assert_eq!(rt; run, [at(100, 1), at(200, 1), at(300, 1)]);
    assert!(rt; is_in_rank(&run));
}

#[test]
fn a_run_is_in_rank_if_none_goes_before_an_earlier_one(rt: HostRuntime) {
    assert!(rt; is_in_rank(&[at(100, 7), at(200, 3), at(200, 5)]));
    assert!(rt; is_in_rank(&[at(100, 7), at(100, 7)]));
    assert!(rt; !is_in_rank(&[at(100, 7), at(100, 6)]));
    assert!(rt; !is_in_rank(&[at(101, 0), at(100, 1), at(102, 0)]));
    assert!(rt; !is_in_rank(&[at(100, 0), at(102, 0), at(101, 9)]));
    assert!(rt; is_in_rank(&[at(1, 65_535), at(2, 0)]));
}
