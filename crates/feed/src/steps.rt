// What a line asks for, if it comes in its turn.
ghost use Rattle.std.specs.Prelude.{◌≡◌, true};
ghost use Rattle.lines.specs.Digits.{is_number};
ghost use Rattle.lines.specs.Forms.{Legal};
ghost use Rattle.lines.specs.Reading.{message, digits};
ghost use Rattle.feed.specs.declared.places.Places.{Places};
ghost use Rattle.feed.specs.Places.{placed, refused_at};
ghost use Rattle.feed.specs.Steps.{terms_of, judged, in_turn, step_of, line_judged, line_opened, terms_after, places_of, terms_place, Lawful, Opens};

use crate::faults::{Cause, Fault};
use crate::places::Places;
use lines::{Field, Line, MalformedLine};
use session::{MAX_TICK, Session};
use trading::{Call, Refusal};

/// What an accepted line asks for.
// Named, since an `Option` of a pair would say neither what was accepted nor what stands beside the call.
#[derive(Clone, Copy)]
pub(crate) enum Step {
    /// The session is open.
    Opening,
    /// A call in the session.
    Asking { call: Call, places: Places },
}

/// The place of the tick if that is out of range, else that of the scarcity price.
fn terms_place(tick: Field<'_>, scarcity: Field<'_>) -> usize
    requires { is_number (digits tick) ≡ true }
    ensures { result ≡ terms_place tick.entry scarcity.entry }
{
    if (1..=MAX_TICK).contains(&tick.value()) {
        scarcity.place
    } else {
        tick.place
    }
}

/// Where the parts of a line stand.
fn places_of(number: usize, start: usize, line: Line<'_>) -> Places
    requires { Legal (message line) }
    ensures { result ≡ places_of number start line.entry }
{
    let places = Places::new(number, start);
    match line {
        Line::Opening { tick, scarcity } => Places {
            terms: terms_place(tick, scarcity),
            ..places
        },
        Line::Entry {
            quantity,
            price,
            ..
        } => Places {
            quantity: quantity.place,
            price: price.place,
            ..places
        },
        Line::Cut { number, quantity } => Places {
            number: number.place,
            quantity: quantity.place,
            ..places
        },
        Line::Withdrawal { number } => Places {
            number: number.place,
            ..places
        },
        Line::Uncrossing => places,
    }
}

/// A session, whose refusal is kept as its cause.
fn open(tick: u32, scarcity: u32) -> Result<Session, Refusal>
    ensures { Opens tick scarcity result }
{
    Ok(Session::open(tick, scarcity)?)
}

/// Whether a line comes in its turn: an opening before an accepted one, any other message after it.
fn in_turn(session: Option<Session>, line: Line<'_>) -> bool
    ensures { result ≡ in_turn (terms_of session) line.entry }
{
    session.is_none() == matches!(line, Line::Opening { .. })
}

/// The call that a line asks for in its turn; an opening opens the session, and asks for none.
fn ask(session: &mut Option<Session>, line: Line<'_>) -> Result<Option<Call>, Refusal>
    requires turn { in_turn (terms_of session.old) line ≡ true }
    requires lawful { Legal (message line) }
    ensures answer { (p : Places) → step_of p (placed refused_at result p) ≡ line_judged (terms_of session.old) p line.entry }
    ensures session { terms_of session.new ≡ line_opened (terms_of session.old) line.entry }
{
    let call = match line {
        Line::Opening { tick, scarcity } => {
            *session = Some(open(tick.value(), scarcity.value())?);
            return Ok(None);
        }
        Line::Entry {
            side,
            quantity,
            price,
        } => Call::Entry {
            side,
            quantity: quantity.value(),
            price: price.value(),
        },
        Line::Cut { number, quantity } => Call::Cut {
            number: number.value(),
            quantity: quantity.value(),
        },
        Line::Withdrawal { number } => Call::Withdrawal {
            number: number.value(),
        },
        Line::Uncrossing => Call::Uncrossing,
    };
    Ok(Some(call))
}

/// What the line that begins at `start` asks for in the session that is open, if one is.
pub(crate) fn judge(
    session: &mut Option<Session>,
    number: usize,
    start: usize,
    read: Result<Line<'_>, MalformedLine>,
) -> Result<Step, Fault>
    requires { Lawful read }
    ensures answer { result ≡ judged (terms_of session.old) number start read.entry }
    ensures session { terms_of session.new ≡ terms_after (terms_of session.old) read.entry }
{
    let line = read.map_err(|malformed| Fault {
        cause: Cause::Malformed,
        line: number,
        place: malformed.place,
    })?;
    let places = places_of(number, start, line);
    if !in_turn(*session, line) {
        return Err(places.out_of_turn());
    }
    let call = ask(session, line).map_err(|why| places.refused(why))?;
    Ok(call.map_or(Step::Opening, |call| Step::Asking { call, places }))
}
