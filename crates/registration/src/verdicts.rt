// The verdict on a registration.
ghost use Rattle.std.specs.Prelude.{◌≡◌};
ghost use Rattle.registration.specs.Acceptance.{Exactly};
ghost use Rattle.registration.specs.Verdicts.{judged_registration, decided, verdict_answer};

use crate::bands::{Band, Criterion};
use crate::refusals::RegistrationRefusal;
use crate::registrations::Registration;
use session::Session;

/// The most contracts of one registration.
pub const MAX_QUANTITY: u32 = 1_000_000;

/// Judges the quantity, each price in the order named, and the scarcity price.
fn judge(session: Session, asked: Registration) -> Result<(), RegistrationRefusal>
    ensures { result ≡ judged_registration session.tick session.scarcity asked }
{
    if !(1..=MAX_QUANTITY).contains(&asked.quantity) {
        return Err(RegistrationRefusal::QuantityRange);
    }
    session.judge(asked.price)?;
    session.judge_given(asked.best_buy.map(|best| best.price))?;
    session.judge_given(asked.best_sell.map(|best| best.price))?;
    session.judge_given(asked.last_trade)?;
    session.judge_given(asked.reference)?;
    if asked.price > session.scarcity {
        return Err(RegistrationRefusal::AboveScarcity);
    }
    Ok(())
}

/// What the band of the first criterion that applies says of a price.
fn decide(price: u32, band: Option<Band>) -> Result<Criterion, RegistrationRefusal>
    ensures { result ≡ decided price band }
{
    let band = band.ok_or(RegistrationRefusal::NoBasis)?;
    if !band.holds(price) {
        return Err(RegistrationRefusal::OutsideBand);
    }
    Ok(band.criterion)
}

/// The criterion by which the registration is accepted, or why it is refused.
pub fn verdict(session: Session, asked: Registration) -> Result<Criterion, RegistrationRefusal>
    ensures answer { result ≡ verdict_answer session.tick session.scarcity asked }
    ensures exactly { Exactly session.tick session.scarcity asked result }
{
    judge(session, asked)?;
    decide(asked.price, asked.first_band())
}
