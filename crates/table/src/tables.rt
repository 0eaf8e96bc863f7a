// The arrival table: its memory is reserved when it is made.
ghost use Rattle.std.specs.Prelude.{◌≡◌, ◌≤◌, true, vec_len, vec_capacity};
ghost use Rattle.book.specs.Meaning.{rising};
ghost use Rattle.table.specs.Tables.{orders_of};

use crate::rows::Rows;
use book::Intake;

/// A book of one run of orders, as they came in. It never allocates once it is made.
#[derive(Drop)]
pub struct Table {
    pub(crate) intake: Intake,
    pub(crate) rows: Rows,
    ghost fits: { vec_len rows.run ≤ intake.places },
    ghost room: { intake.places ≤ vec_capacity rows.run },
    ghost rises: { rising 0 (orders_of rows.run.items) intake.last ≡ true },
}
