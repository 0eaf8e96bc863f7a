// Tables on the scripted calls.
use crate::{cutting, entering, limits, numbers, ranks, tops};
use book::Side::{Buy, Sell};
use std::test::Fail;
use table::Table;

#[test]
fn a_full_table_refuses_and_changes_nothing(rt: HostRuntime) -> Result<(), Fail> {
    entering::full_book::<Table>(&rt, rt.alloc())
}

#[test]
fn a_place_is_free_again_and_a_number_is_not(rt: HostRuntime) -> Result<(), Fail> {
    entering::places_again::<Table>(&rt, rt.alloc())
}

#[test]
fn a_table_of_no_places_refuses_the_first_entry(rt: HostRuntime) -> Result<(), Fail> {
    entering::no_places(&rt, &mut Table::new(rt.alloc(), 0)?)
}

#[test]
fn a_table_offers_the_places_of_its_run(rt: HostRuntime) -> Result<(), Fail> {
    entering::offers(&rt, &mut Table::new(rt.alloc(), 1)?, Sell, 1)?;
    entering::offers(&rt, &mut Table::new(rt.alloc(), 255)?, Sell, 255)
}

#[test]
fn buys_can_take_each_place_of_a_table(rt: HostRuntime) -> Result<(), Fail> {
    entering::offers(&rt, &mut Table::new(rt.alloc(), 1)?, Buy, 1)?;
    entering::offers(&rt, &mut Table::new(rt.alloc(), 300)?, Buy, 256)
}

#[test]
fn a_table_offers_at_most_256_places(rt: HostRuntime) -> Result<(), Fail> {
    entering::offers(&rt, &mut Table::new(rt.alloc(), 256)?, Sell, 256)?;
    entering::offers(&rt, &mut Table::new(rt.alloc(), 257)?, Sell, 256)?;
    entering::offers(&rt, &mut Table::new(rt.alloc(), 300)?, Sell, 256)
}

#[test]
fn a_table_knows_only_live_numbers(rt: HostRuntime) -> Result<(), Fail> {
    cutting::unknown_numbers::<Table>(&rt, rt.alloc())
}

#[test]
fn a_table_refuses_cuts_out_of_range(rt: HostRuntime) -> Result<(), Fail> {
    cutting::bad_quantities::<Table>(&rt, rt.alloc())
}

#[test]
fn a_table_cuts_to_the_quantity_that_is_left(rt: HostRuntime) -> Result<(), Fail> {
    cutting::quantities_left::<Table>(&rt, rt.alloc())
}

#[test]
fn a_table_ranks_each_side(rt: HostRuntime) -> Result<(), Fail> {
    ranks::all::<Table>(&rt, rt.alloc())
}

#[test]
fn a_table_sums_each_side_at_a_limit(rt: HostRuntime) -> Result<(), Fail> {
    limits::all::<Table>(&rt, rt.alloc())
}

#[test]
fn a_table_gives_out_60_000_numbers(rt: HostRuntime) -> Result<(), Fail> {
    numbers::all_spent::<Table>(&rt, rt.alloc())
}

#[test]
fn a_full_table_at_its_last_number_is_full(rt: HostRuntime) -> Result<(), Fail> {
    numbers::full_at_the_last::<Table>(&rt, rt.alloc())
}

#[test]
fn a_table_shows_its_best_orders(rt: HostRuntime) -> Result<(), Fail> {
    tops::all::<Table>(&rt, rt.alloc())
}
