// Judging a price.
ghost use Rattle.std.specs.Prelude.{◌≡◌};
ghost use Rattle.session.specs.Judgements.{price_numbered, price_judged, given_judged, Judged};

use crate::sessions::{MAX_PRICE, Session};

/// A refusal of a price; each case carries its number.
#[derive(Clone, Copy, Debug, PartialEq, Eq)]
pub enum PriceRefusal {
    /// The price is not 1 to 10,000,000.
    PriceRange = 5,
    /// The price is no whole multiple of the tick.
    OffTick = 6,
}

/// The refusal's number.
impl From<PriceRefusal> for u8 {
    ghost from_gives = { λ why code. code ≡ price_numbered why };

    fn from(why: PriceRefusal) -> u8 {
        why as u8
    }
}

impl Session {
    /// A price in ticks, refused if it is out of range, then if it is off the tick.
    #[tactic(auto, unfolding(crate::specs::Judgements::price_judged))]
    pub fn judge(self, price: u32) -> Result<u32, PriceRefusal>
        ensures answer { result ≡ price_judged self.tick price }
        ensures judged { Judged self.tick price result }
    {
        if !(1..=MAX_PRICE).contains(&price) {
            return Err(PriceRefusal::PriceRange);
        }
        if !price.is_multiple_of(self.tick) {
            return Err(PriceRefusal::OffTick);
        }
        Ok(price / self.tick)
    }

    /// Judges a price that may be absent: an absent one passes.
    pub fn judge_given(self, price: Option<u32>) -> Result<(), PriceRefusal>
        ensures { result ≡ given_judged self.tick price }
    {
        if let Some(price) = price {
            self.judge(price)?;
        }
        Ok(())
    }
}
