// The ladder: its memory is reserved when it is made.
ghost use Rattle.std.specs.Prelude.{◌≡◌, ◌+◌, ◌≤◌, true, vec_len, vec_capacity};
ghost use Rattle.book.specs.Meaning.{rising};
ghost use Rattle.ladder.specs.Ladders.{orders_of, merged};

use crate::queues::Queue;
use book::{Buys, Intake, Sells};

/// A book of two runs. It never allocates once it is made.
#[derive(Drop)]
pub struct Ladder {
    pub(crate) intake: Intake,
    pub(crate) buys: Queue<Buys>,
    pub(crate) sells: Queue<Sells>,
    ghost fits: { vec_len buys.run + vec_len sells.run ≤ intake.places },
    ghost buy_room: { intake.places ≤ vec_capacity buys.run },
    ghost sell_room: { intake.places ≤ vec_capacity sells.run },
    ghost rises: { rising 0 (merged (orders_of buys.run.items) (orders_of sells.run.items)) intake.last ≡ true },
}
