//! The finish of a flight.

ghost use Rattle.std.specs.Prelude.{◌≡◌, ◌≤◌, true, length, take, None, Some};
ghost use Rattle.std.specs.List.{last_or};
ghost use Rattle.mp_words.specs.declared.trying.Outcome.TheVariants as outcome;
ghost use Rattle.mp_words.specs.Request.{outcome_of, asked_of, ended_tries};
ghost use Rattle.mp_status.specs.declared.class.Class.TheVariants as kind;
ghost use Rattle.mp_core.specs.Views.{has_flight};
ghost use Rattle.mp_core.specs.Kinds.{Lands};
ghost use Rattle.mp_status.specs.Hop.{class_of_hop};
ghost use Rattle.mp_submit.specs.Finishes.{Finishes, statuses_of, six_of};

use crate::hop::{Hop, failover_by, hop_from, last_status};
use mp_change::pending::{PendingDone, PendingEnd, drop_current, mark_pending};
use mp_core::gate::Gate;
use mp_core::steps::Steps;
use mp_words::answers::Answers;
use mp_words::flight::Flight;
use mp_words::note::Note;
use mp_words::numbered::Numbered;
use mp_words::op::Maker;
use mp_words::request::Request;
use mp_words::row::Row;
use mp_words::trying::Back;

/// How a finish ended.
pub enum Finished {
    /// The request is done, with this status.
    Done(u16),
    /// The request came back and waits, with the note of the failover's section.
    Back(Note),
    /// Another change of the path's row came between: the flight, which must be spent, the row that was found, of a
    /// greater version than the one read, and the note of the section.
    Moved(Flight, Row, Note),
}

/// Ends a flight that comes back with the statuses of its hop, after pending was set or not.
fn come_back<S: Steps>(steps: &mut S, flight: Flight, request: &mut Request, hop: &Hop, back: Back)
    requires flies { has_flight flight (S.core steps.old).view ≡ true }
    requires sent { outcome_of (last_or None (asked_of request.old).tries) ≡ outcome.Sent }
    requires low { 1 ≤ hop.now.count }
    requires high { hop.now.count ≤ 6 }
    ensures lands { Lands (S.core steps.old) (S.core steps.new) flight }
    ensures tries { request.new.tries ≡ ended_tries hop.now.statuses hop.now.count (Some back) request.old.tries }
    ensures id { request.new.id ≡ request.old.id }
    ensures node { request.new.node ≡ request.old.node }
{
    steps.end(flight);
    request.ended(hop.statuses, hop.count, Some(back));
}

/// Fails a flight over on an ANA status.
#[inline(never)]
fn fail_over<S: Steps, G: Gate>(
    steps: &mut S,
    gate: &G,
    flight: Flight,
    request: &mut Request,
    answers: &Answers,
    hop: &Hop,
) -> Finished
    requires left { 1 ≤ (S.core steps.old).view.left }
    requires closed { (S.core steps.old).view.inside ≡ None }
    requires flies { has_flight flight (S.core steps.old).view ≡ true }
    requires sent { outcome_of (last_or None (asked_of request.old).tries) ≡ outcome.Sent }
    requires six { hop.now.statuses ≡ six_of (statuses_of answers.now request.old) }
    requires count { hop.now.count ≡ length (statuses_of answers.now request.old) }
    requires low { 1 ≤ hop.now.count }
    requires high { hop.now.count ≤ 6 }
    requires class { class_of_hop (statuses_of answers.now request.old) ≡ kind.Failover true }
    ensures { Finishes answers.now (S.core steps.old) (S.core steps.new) flight request.old request.new result }
{
    let by = Maker::Hop {
        lane: steps.lane(),
        req: request.id(),
        hop: request.next() - 1,
    };
    let PendingDone { end, note } = mark_pending(steps, gate, &flight, by);
    match end {
        PendingEnd::Moved(row) => Finished::Moved(flight, row, note),
        PendingEnd::Set(entry) => {
            come_back(steps, flight, request, hop, Back::Set(entry));
            Finished::Back(note)
        }
        PendingEnd::NoAna(_) => {
            come_back(steps, flight, request, hop, Back::Unset);
            Finished::Back(note)
        }
    }
}

/// Runs the attempts of a flight's hop, at most six, through the first whose status isn't retried: the request is done, or
/// fails over and comes back. At least one unit is left, no section is open, the flight is this pass's, and the request
/// was sent by it.
///
/// - `Back` comes exactly where the last status fails over and the answer isn't `Moved`. The current paths that are this
///   one are none then, and by an ANA status pending is set, where the path's controller reports ANA.
/// - `Moved` comes only by an ANA status, exactly where the row at the change wasn't the one that was read. It changes
///   nothing, and the flight and the request are as before.
/// - `Done` enters no section.
pub fn finish<S: Steps, G: Gate>(
    steps: &mut S,
    gate: &G,
    flight: Flight,
    request: &mut Request,
    answers: &Answers,
) -> Finished
    requires left { 1 ≤ (S.core steps.old).view.left }
    requires closed { (S.core steps.old).view.inside ≡ None }
    requires flies { has_flight flight (S.core steps.old).view ≡ true }
    requires sent { outcome_of (last_or None (asked_of request.old).tries) ≡ outcome.Sent }
    ensures { Finishes answers.now (S.core steps.old) (S.core steps.new) flight request.old request.new result }
{
    let hop = hop_from(answers, request.id(), request.attempts() + 1);
    match failover_by(&hop.statuses, hop.count) {
        Some(true) => fail_over(steps, gate, flight, request, answers, &hop),
        Some(false) => {
            let note = drop_current(steps, gate, &flight);
            come_back(steps, flight, request, &hop, Back::Unset);
            Finished::Back(note)
        }
        None => {
            let status = last_status(&hop.statuses, hop.count);
            steps.end(flight);
            request.ended(hop.statuses, hop.count, None);
            Finished::Done(status)
        }
    }
}
