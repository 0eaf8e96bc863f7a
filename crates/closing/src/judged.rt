// What a closing price is given, once it is judged.
ghost use Rattle.std.specs.Prelude.{◌≡◌, Ok};
ghost use Rattle.closing.specs.Judging.{judged_inputs};

use crate::inputs::ClosingInputs;
use session::Session;

/// Inputs that passed in a session: no others exist.
#[derive(Clone, Copy)]
pub(crate) struct JudgedInputs<'a> {
    pub(crate) session: Session,
    pub(crate) inputs: ClosingInputs<'a>,
    ghost judged: { judged_inputs session.tick inputs ≡ Ok tt },
}
