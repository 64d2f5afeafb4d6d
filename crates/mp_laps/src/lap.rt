//! One lap: a submit, and a finish where the request was sent.

ghost use Rattle.std.specs.Prelude.{◌≡◌, ◌≤◌, ◌*◌, None, IfOk};
ghost use Rattle.std.specs.List.{last_or};
ghost use Rattle.mp_words.specs.declared.trying.Outcome.TheVariants as outcome;
ghost use Rattle.mp_words.specs.Request.{outcome_of, asked_of};
ghost use Rattle.mp_laps.specs.OneLap.{OneLap};

use mp_core::gate::{Gate, NoGate};
use mp_core::steps::Steps;
use mp_submit::finish::{Finished, finish};
use mp_submit::submit::{Submitted, submit};
use mp_words::answers::Answers;
use mp_words::near::Near;
use mp_words::numbers::{Node, ReqId};
use mp_words::request::{Request, SubmitError};
use std::alloc::Global;

/// How a lap ended.
#[derive(Clone, Copy)]
pub enum LapEnd {
    /// The request is done, with this status.
    Done(u16),
    /// The request came back, and waits.
    Back,
    /// The request wasn't sent.
    Kept,
    /// Another change of the path's row came between, and the flight was ended alone.
    Moved,
}

/// Submits a request that waits, and finishes it where it was sent. At least two units are left, and no section is open.
///
/// On told words `Done` comes only of the policy's choice, whose depth is then as it was; `Kept` comes only where there
/// is no choice; and `Moved` never comes.
pub fn one_lap<S: Steps, G: Gate>(
    steps: &mut S,
    gate: &G,
    near: &Near,
    request: &mut Request,
    answers: &Answers,
) -> LapEnd
    requires left { 2 ≤ (S.core steps.old).view.left }
    requires closed { (S.core steps.old).view.inside ≡ None }
    requires spare { 1 ≤ request.old.spare }
    requires waiting { outcome_of (last_or None (asked_of request.old).tries) ≡ outcome.Waiting }
    ensures { OneLap near.now request.old.node (S.core steps.old) (S.core steps.new) result }
{
    match submit(steps, gate, near, request) {
        Submitted::Sent(flight) => match finish(steps, gate, flight, request, answers) {
            Finished::Done(status) => LapEnd::Done(status),
            Finished::Back(_) => LapEnd::Back,
            Finished::Moved(flight, _, _) => {
                steps.end(flight);
                LapEnd::Moved
            }
        },
        Submitted::Listed => LapEnd::Kept,
        Submitted::Failed => LapEnd::Kept,
    }
}

/// Submits and finishes so many requests on a node, one after another, and says how many are done. Each has room of its
/// own, and is dropped behind its lap. Two units a lap are left, and no section is open.
///
/// # Errors
///
/// `NoMemory` where memory ran out.
pub fn laps<S: Steps>(
    alloc: Global,
    steps: &mut S,
    near: &Near,
    node: Node,
    answers: &Answers,
    count: u32,
) -> Result<u32, SubmitError>
    requires left { 2 * count ≤ (S.core steps.old).view.left }
    requires closed { (S.core steps.old).view.inside ≡ None }
    ensures closed { (S.core steps.new).view.inside ≡ None }
    ensures most { IfOk result (λ done. done ≤ count) }
{
    let mut done = 0u32;
    for lap in 0..count {
        let mut request = Request::make(alloc, ReqId::make(lap % 65_536).unwrap(), node);
        request.reserve()?;
        if matches!(
            one_lap(steps, &NoGate, near, &mut request, answers),
            LapEnd::Done(_)
        ) {
            done += 1;
        }
    }
    Ok(done)
}
