// Ladders on the scripted calls.
use crate::{cutting, entering, limits, numbers, ranks, tops};
use book::Side::{Buy, Sell};
use ladder::Ladder;
use std::test::Fail;

#[test]
fn a_full_ladder_refuses_and_changes_nothing(rt: HostRuntime) -> Result<(), Fail> {
    entering::full_book::<Ladder>(&rt, rt.alloc())
}

#[test]
fn a_place_is_free_again_and_a_number_is_not(rt: HostRuntime) -> Result<(), Fail> {
    entering::places_again::<Ladder>(&rt, rt.alloc())
}

#[test]
fn a_ladder_of_no_places_refuses_the_first_entry(rt: HostRuntime) -> Result<(), Fail> {
    entering::no_places(&rt, &mut Ladder::new(rt.alloc(), 0, 0)?)?;
    entering::no_places(&rt, &mut Ladder::new(rt.alloc(), 0, 7)?)?;
    entering::no_places(&rt, &mut Ladder::new(rt.alloc(), 7, 0)?)
}

#[test]
fn a_ladder_offers_the_places_of_its_shorter_run(rt: HostRuntime) -> Result<(), Fail> {
    entering::offers(&rt, &mut Ladder::new(rt.alloc(), 3, 5)?, Sell, 3)?;
    entering::offers(&rt, &mut Ladder::new(rt.alloc(), 5, 3)?, Sell, 3)?;
    entering::offers(&rt, &mut Ladder::new(rt.alloc(), 1, 400)?, Sell, 1)?;
    entering::offers(&rt, &mut Ladder::new(rt.alloc(), 255, 256)?, Sell, 255)
}

#[test]
fn buys_can_take_each_place_of_a_ladder(rt: HostRuntime) -> Result<(), Fail> {
    entering::offers(&rt, &mut Ladder::new(rt.alloc(), 3, 5)?, Buy, 3)?;
    entering::offers(&rt, &mut Ladder::new(rt.alloc(), 5, 3)?, Buy, 3)?;
    entering::offers(&rt, &mut Ladder::new(rt.alloc(), 300, 400)?, Buy, 256)
}

#[test]
fn a_ladder_offers_at_most_256_places(rt: HostRuntime) -> Result<(), Fail> {
    entering::offers(&rt, &mut Ladder::new(rt.alloc(), 256, 256)?, Sell, 256)?;
    entering::offers(&rt, &mut Ladder::new(rt.alloc(), 257, 257)?, Sell, 256)?;
    entering::offers(&rt, &mut Ladder::new(rt.alloc(), 300, 400)?, Sell, 256)
}

#[test]
fn a_ladder_knows_only_live_numbers(rt: HostRuntime) -> Result<(), Fail> {
    cutting::unknown_numbers::<Ladder>(&rt, rt.alloc())
}

#[test]
fn a_ladder_refuses_cuts_out_of_range(rt: HostRuntime) -> Result<(), Fail> {
    cutting::bad_quantities::<Ladder>(&rt, rt.alloc())
}

#[test]
fn a_ladder_cuts_to_the_quantity_that_is_left(rt: HostRuntime) -> Result<(), Fail> {
    cutting::quantities_left::<Ladder>(&rt, rt.alloc())
}

#[test]
fn a_ladder_ranks_each_side(rt: HostRuntime) -> Result<(), Fail> {
    ranks::all::<Ladder>(&rt, rt.alloc())
}

#[test]
fn a_ladder_sums_each_side_at_a_limit(rt: HostRuntime) -> Result<(), Fail> {
    limits::all::<Ladder>(&rt, rt.alloc())
}

#[test]
fn a_ladder_gives_out_60_000_numbers(rt: HostRuntime) -> Result<(), Fail> {
    numbers::all_spent::<Ladder>(&rt, rt.alloc())
}

#[test]
fn a_full_ladder_at_its_last_number_is_full(rt: HostRuntime) -> Result<(), Fail> {
    numbers::full_at_the_last::<Ladder>(&rt, rt.alloc())
}

#[test]
fn a_ladder_shows_its_best_orders(rt: HostRuntime) -> Result<(), Fail> {
    tops::all::<Ladder>(&rt, rt.alloc())
}
