// A whole feed, read and judged before anything is carried out.
ghost use Rattle.std.specs.Prelude.{◌≡◌, [], ◌++◌, IfOk, OnOk};
ghost use Rattle.feed.specs.Steps.{with_call};
ghost use Rattle.feed.specs.Scripts.{Scripted};

use crate::faults::Fault;
use crate::steps::{Step, judge};
use lines::LineReader;
use session::Session;
use std::alloc::{AllocError, Global};
use trading::Call;

/// What the lines of a feed ask for, the session that they open, and the calls among them.
// The calls stand by themselves as well as in their steps: the engine runs a slice of calls.
#[derive(Drop)]
pub(crate) struct Script {
    pub(crate) session: Option<Session>,
    pub(crate) steps: Vec<Result<Step, Fault>>,
    pub(crate) calls: Vec<Call>,
}

/// The call that a line asks for, if it asks for one, at the end of the calls.
fn add_call(calls: &mut Vec<Call>, step: Result<Step, Fault>) -> Result<(), AllocError>
    ensures { OnOk result (calls.new.items ≡ calls.old.items ++ with_call step []) }
{
    if let Ok(Step::Asking { call, .. }) = step {
        calls.push(call)?;
    }
    Ok(())
}

/// Reads and judges every line of a feed.
#[tactic(auto, using(crate::proofs::Scripting::in_feed, crate::proofs::Scripting::reading_next))]
pub(crate) fn read_script(heap: Global, feed: &[u8]) -> Result<Script, AllocError>
    ensures { IfOk result (λ script. Scripted feed.now script.session script.steps.items script.calls.items) }
{
    let mut session = None;
    let mut steps = Vec::new(heap);
    let mut calls = Vec::new(heap);
    let mut reader = LineReader::new(feed);
    // No `while let`: where a line begins is asked before it is read.
    loop {
        let start = reader.position();
        let Some(read) = reader.next_line() else {
            return Ok(Script {
                session,
                steps,
                calls,
            });
        };
        let step = judge(&mut session, steps.len() + 1, start, read);
        add_call(&mut calls, step)?;
        steps.push(step)?;
    }
}
