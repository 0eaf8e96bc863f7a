// What the rows of a table count: the orders of a side that go before another, and quantities.
ghost use Rattle.std.specs.Prelude.{◌≡◌, ℕ, ◌≤◌, ◌&&◌, ◌==◌, length, map};
ghost use Rattle.book.specs.Meaning.{order_of, seen, is_side, meets, quantity_at};
ghost use Rattle.book.specs.Ranks.{ahead, counted};
ghost use Rattle.table.specs.Aheads.{shifted, first_at};
ghost use Rattle.table.specs.Tables.{orders_of, aheads_in};

use crate::row::Row;
use book::{Live, Side, outranks, trades_at};

/// Whether an order is of another's side and goes before it.
fn goes_ahead(order: &Live, other: &Live) -> bool
    ensures { result ≡ ahead (order_of order.now) (order_of other.now) }
{
    order.body.side == other.body.side && outranks(other.body.side, order, other)
}

/// How many of the rows' orders go before `live`.
pub(crate) fn count_ahead(rows: &[Row], live: &Live) -> usize
    ensures { result ≡ counted (orders_of rows.now) (order_of live.now) }
{
    rows.iter()
        .filter(|row| goes_ahead(&row.live, live))
        .count()
}

/// Moves the counts of the orders that `live` goes before.
pub(crate) fn shift_behind<F: Fn(usize) -> usize>(rows: &mut [Row], live: &Live, moved: F)
    requires { F.IsAlwaysCallable moved }
    ensures { (f : ℕ → ℕ) → ((x y : ℕ) → F.post moved x y → y ≡ f x) → rows.new ≡ map (shifted f (order_of live.now)) rows.old }
{
    for row in rows.iter_mut() {
        if goes_ahead(live, &row.live) {
            row.ahead = moved(row.ahead);
        }
    }
}

/// Whether a row is of a side and has so many ahead.
fn stands_behind(row: &Row, side: Side, ahead: usize) -> bool
    ensures { result ≡ (row.now.ahead == ahead && is_side side row.now.live.body.side) }
{
    // The count first: at most one row of each side has it, and many rows have the side.
    row.ahead == ahead && row.live.body.side == side
}

/// The first order of a side with so many ahead.
pub(crate) fn order_behind(rows: &[Row], side: Side, ahead: usize) -> Option<Live>
    ensures { seen result ≡ first_at side ahead (orders_of rows.now) (aheads_in rows.now) }
{
    // A `for`, and no `find`: with that, a rank of some sixty orders takes up to twice the time.
    for row in rows {
        if stands_behind(row, side, ahead) {
            return Some(row.live);
        }
    }
    None
}

/// Whether an order is of a side and trades at `m` ticks.
fn trades_on(order: &Live, side: Side, m: u32) -> bool
    ensures { result ≡ (is_side side (order_of order.now).side && meets side m (order_of order.now).limit) }
{
    order.body.side == side && trades_at(side, m, order.body.limit)
}

/// The quantity of a side's orders that trade at `m` ticks.
pub(crate) fn quantity_of(rows: &[Row], side: Side, m: u32) -> u32
    requires { length rows.now ≤ 256 }
    ensures { result ≡ quantity_at side m (orders_of rows.now) }
{
    // A `for`, and no chain that ends in `sum`: a price search asks for it at each price that it looks at, and with one it takes up to
    // twice the time.
    let mut sum = 0u32;
    for row in rows {
        if trades_on(&row.live, side, m) {
            sum += row.live.body.quantity;
        }
    }
    sum
}
