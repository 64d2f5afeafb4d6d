//! A submit of a request.

ghost use Rattle.std.specs.Prelude.{◌≡◌, ◌<◌, ◌≤◌, ◌+◌, ◌++◌, ◌∷◌, [], true, false, Some, None, length};
ghost use Rattle.std.specs.List.{last_or, list_any};
ghost use Rattle.mp_words.specs.declared.trying.Try.{Try};
ghost use Rattle.mp_words.specs.declared.trying.Outcome.TheVariants as outcome;
ghost use Rattle.mp_words.specs.Row.{is_available};
ghost use Rattle.mp_words.specs.Request.{outcome_of, asked_of};
ghost use Rattle.mp_core.specs.Core.{Core, Tells};
ghost use Rattle.mp_core.specs.Kinds.{Leaves};
ghost use Rattle.mp_core.specs.Memory.{current_at};
ghost use Rattle.mp_core.specs.Notes.{HasUsable};
ghost use Rattle.mp_core.specs.Reads.{IsOpen, IsNote};
ghost use Rattle.mp_words.specs.PathTable.{paths_of};
ghost use Rattle.mp_submit.specs.Choice.{end_with, has_available, keeps_choice};
ghost use Rattle.mp_submit.specs.Submits.{Submits, Dispatches, KeepsCurrent, answer_of};

use crate::select::select;
use mp_core::gate::Gate;
use mp_core::section::begin;
use mp_core::steps::Steps;
use mp_core::view::Section;
use mp_policy::listed::{count, path_at};
use mp_words::flight::Flight;
use mp_words::near::Near;
use mp_words::numbered::Numbered;
use mp_words::numbers::{Node, ReqId, Slot};
use mp_words::reading::Reading;
use mp_words::request::Request;
use mp_words::row::{Policy, Row};
use mp_words::trying::{Try, TryEnd};

/// How a submit ended.
pub enum Submitted {
    /// The request was sent. Its flight must be spent.
    Sent(Flight),
    /// The request is to be listed: no listed path is usable, and some is available.
    Listed,
    /// The request failed: no listed path is usable, and none is available.
    Failed,
}

/// Whether a row of the reading is available.
fn any_available(reading: &Reading) -> bool
    requires { reading.now.len ≤ 8 }
    ensures { result ≡ has_available (paths_of reading.now) }
{
    let mut found = false;
    for place in 0..count(reading) {
        let path = path_at(reading, place);
        found = found || path.row.available();
    }
    found
}

/// Whether the node's current path that was read is this slot.
fn is_current(current: &Option<Option<Slot>>, slot: Slot) -> bool
    ensures { (result ≡ true) → current.now ≡ Some (Some slot) }
{
    match current {
        Some(Some(read)) => read.get() == slot.get(),
        Some(None) => false,
        None => false,
    }
}

/// Stores a choice as the node's current path, where it is to be kept and differs from the one that was read.
fn keep_current<S: Steps>(steps: &mut S, section: &mut Section, keeps: bool, node: Node, slot: Slot)
    requires open { IsOpen (S.core steps.old) section.old }
    requires usable { HasUsable section.old.note slot }
    requires current { keeps ≡ true → Tells (S.core steps.old) (λ m. section.old.note.current ≡ Some (current_at m node)) }
    ensures { KeepsCurrent keeps node slot (S.core steps.old) (S.core steps.new) section.old section.new }
{
    if keeps && !is_current(&section.note.current, slot) {
        steps.store_current(section, node, Some(slot));
    }
}

/// How a try ends, and what a submit answers.
struct Dispatched {
    end: TryEnd,
    answer: Submitted,
}

/// Sends a request to the choice, if there is one. The section is then to be left.
fn dispatch<S: Steps>(
    steps: &mut S,
    section: &mut Section,
    keeps: bool,
    node: Node,
    choice: Option<Slot>,
    req: ReqId,
) -> Dispatched
    requires open { IsOpen (S.core steps.old) section.old }
    requires unsent { section.old.sent ≡ false }
    requires note { IsNote section.old.note }
    requires usable { (slot : _) → choice ≡ Some slot → HasUsable section.old.note slot }
    requires current { keeps ≡ true → Tells (S.core steps.old) (λ m. section.old.note.current ≡ Some (current_at m node)) }
    ensures open { IsOpen (S.core steps.new) section.new }
    ensures note { section.new.note ≡ section.old.note }
    ensures done { (after : Core) → Leaves (S.core steps.new) after section.new → Dispatches keeps node req (S.core steps.old) after section.old choice result.end result.answer section.new.note }
    ensures range { (slot : _) → choice ≡ Some slot → slot < 15 }
{
    match choice {
        Some(slot) => {
            keep_current(steps, section, keeps, node, slot);
            let flight = steps.send(section, slot, req);
            Dispatched {
                end: TryEnd::Sent(flight.slot, flight.version),
                answer: Submitted::Sent(flight),
            }
        }
        None => give_up(&section.note.reading),
    }
}

/// How a try without a choice ends, and what a submit answers.
#[inline(never)]
fn give_up(reading: &Reading) -> Dispatched
    requires { reading.now.len ≤ 8 }
    ensures end { result.end ≡ end_with (paths_of reading.now) None }
    ensures answer { (lane : _) (req : _) → result.answer ≡ answer_of lane req result.end }
{
    if any_available(reading) {
        Dispatched {
            end: TryEnd::Listed,
            answer: Submitted::Listed,
        }
    } else {
        Dispatched {
            end: TryEnd::Failed,
            answer: Submitted::Failed,
        }
    }
}

/// Whether a choice becomes the node's current path.
fn keeps_choice(policy: Policy) -> bool
    ensures { result ≡ keeps_choice policy }
{
    matches!(policy, Policy::RoundRobin)
}

/// Submits a request in one section: it is sent to the path that the policy chooses of all listed ones or, where none is
/// usable, to be listed where some listed path is available, else failed. The request gains this try, of which the
/// attempts are still to come. At least one unit is left, no section is open, the request has room for a try, and it
/// waits.
///
/// Under round robin the choice becomes the current path of the request's node.
pub fn submit<S: Steps, G: Gate>(
    steps: &mut S,
    gate: &G,
    near: &Near,
    request: &mut Request,
) -> Submitted
    requires left { 1 ≤ (S.core steps.old).view.left }
    requires closed { (S.core steps.old).view.inside ≡ None }
    requires spare { 1 ≤ request.old.spare }
    requires waiting { outcome_of (last_or None (asked_of request.old).tries) ≡ outcome.Waiting }
    ensures { (made : Try) × Submits near.now (S.core steps.old) (S.core steps.new) request.old request.new result made }
{
    let mut section = begin(steps, gate);
    let order = steps.load_order(&mut section);
    let node = request.node();
    let choice = select(steps, &mut section, near, node, &order);
    let keeps = keeps_choice(order.policy);
    let hop = request.next();
    let Dispatched { end, answer } = dispatch(
        steps,
        &mut section,
        keeps,
        node,
        choice,
        request.id(),
    );
    request.tried(Try {
        hop,
        end,
        note: steps.leave(section),
        statuses: [0; 6],
        count: 0,
        back: None,
    });
    answer
}
