// Opening a session.
ghost use Rattle.std.specs.Prelude.{◌≡◌};
ghost use Rattle.session.specs.Openings.{Opened, ceiling};

use crate::refusals::SessionRefusal;
use crate::sessions::{MAX_PRICE, MAX_TICK, Session};

impl Session {
    /// A session of this tick and scarcity price, refused if either is out of range.
    pub fn open(tick: u32, scarcity: u32) -> Result<Session, SessionRefusal>
        ensures { Opened tick scarcity result }
    {
        if !(1..=MAX_TICK).contains(&tick) || !(1..=MAX_PRICE).contains(&scarcity) {
            return Err(SessionRefusal::SessionRange);
        }
        Ok(Session { tick, scarcity })
    }

    /// The highest admissible price, in ticks; 0 if there is none.
    // A count of ticks and no `Option`: the admissible prices are 1 to it, and up to 0 there is none.
    pub fn ceiling(self) -> u32
        ensures { result ≡ ceiling self.tick self.scarcity }
    {
        self.scarcity / self.tick
    }
}
