//! The lines of a lane.

ghost use Rattle.std.specs.Prelude.{◌≡◌, ◌≤◌, ◌+◌, [], false, length, List, Some, None, OnErr, if◌then◌else◌};
ghost use Rattle.std.specs.List.{AllByRecursion};
ghost use Rattle.mp_words.specs.declared.answers.Answer.{Answer};
ghost use Rattle.mp_change.specs.Changes.{IsLineOp};
ghost use Rattle.mp_desk.specs.Calls.{change, IsWaiting, Sits};
ghost use Rattle.mp_desk.specs.Desks.{desk_of, KeepsStand, Leaves};
ghost use Rattle.mp_desk.specs.DeskView.{unended};
ghost use Rattle.mp_desk.specs.Indexed.{flying_of};
ghost use Rattle.mp_script.specs.declared.script.Line.TheVariants as kind;
ghost use Rattle.mp_script.specs.declared.script.World.{World};
ghost use Rattle.mp_lane.specs.LaneView.{submits};
ghost use Rattle.mp_lane.specs.Lines.{finishes, is_keepers, one_call, reads_of, start_of};
ghost use Rattle.mp_lane.specs.Steps.{CanRead, FitsPage, RunsBeside};

use crate::pages::{page_in, page_said};
use mp_change::log::log_op;
use mp_core::gate::Gate;
use mp_core::steps::Steps;
use mp_desk::desk::Desk;
use mp_desk::halt::Halt;
use mp_page::laws::stated_state_is_in_range;
use mp_record::event::Said;
use mp_script::script::{Line, World};
use mp_words::answers::Answers;
use mp_words::near::Near;
use mp_words::numbers::{Ctrl, Node, ReqId};
use mp_words::op::Op;
use mp_words::request::Request;
use std::alloc::Global;

/// Submits a new request.
fn submit_line<S: Steps, G: Gate>(
    alloc: Global,
    desk: &mut Desk,
    steps: &mut S,
    gate: &G,
    world: &World,
    line: u32,
    req: ReqId,
    node: Node,
) -> Result<(), Halt>
    requires sits { Sits (S.core steps.old) (desk_of desk.old) }
    ensures runs { (answers : List Answer) → RunsBeside result (reads_of world.now answers) line (start_of (reads_of world.now answers) [] desk.old.flights.flying (kind.Submit req node)) (S.core steps.old) (S.core steps.new) (desk_of desk.old) (desk_of desk.new) }
    ensures leaves { Leaves (S.core steps.old) (S.core steps.new) (desk_of desk.new) }
    ensures stands { KeepsStand (S.core steps.old) (S.core steps.new) }
    ensures weight { unended (desk_of desk.new) ≤ unended (desk_of desk.old) + 1 }
    ensures fails { OnErr result (unended (desk_of desk.new) ≤ unended (desk_of desk.old)) }
{
    if desk.say(line, Said::Submit).is_err() {
        return Err(Halt::NoMemory);
    }
    desk.submit(
        steps,
        gate,
        &world.topology.near,
        Request::make(alloc, req, node),
    )
}

/// Ends the flights of a request, where one is named, or all, by a line or, where the number is 0, at the lane's end.
pub fn finish_line<S: Steps, G: Gate>(
    desk: &mut Desk,
    steps: &mut S,
    gate: &G,
    answers: &Answers,
    line: u32,
    named: &Option<ReqId>,
) -> Result<(), Halt>
    requires sits { Sits (S.core steps.old) (desk_of desk.old) }
    ensures runs { (world : World) → RunsBeside result (reads_of world answers.now) line (finishes (flying_of named.now desk.old.flights.flying)) (S.core steps.old) (S.core steps.new) (desk_of desk.old) (desk_of desk.new) }
    ensures leaves { Leaves (S.core steps.old) (S.core steps.new) (desk_of desk.new) }
    ensures stands { KeepsStand (S.core steps.old) (S.core steps.new) }
    ensures weight { unended (desk_of desk.new) ≤ unended (desk_of desk.old) }
{
    let Ok(count) = u32::try_from(desk.flights.count(named)) else {
        return Err(Halt::NoMemory);
    };
    if desk.say(line, Said::Finish(count)).is_err() {
        return Err(Halt::NoMemory);
    }
    desk.finish(steps, gate, answers, named)
}

/// Submits the list, in order.
#[inline(never)]
fn requeue_line<S: Steps, G: Gate>(
    desk: &mut Desk,
    steps: &mut S,
    gate: &G,
    world: &World,
    line: u32,
    list: Vec<Request>,
) -> Result<(), Halt>
    requires sits { Sits (S.core steps.old) (desk_of desk.old) }
    requires waiting { AllByRecursion IsWaiting list.items }
    ensures runs { (answers : List Answer) → RunsBeside result (reads_of world.now answers) line (start_of (reads_of world.now answers) list.items desk.old.flights.flying kind.Requeue) (S.core steps.old) (S.core steps.new) (desk_of desk.old) (desk_of desk.new) }
    ensures leaves { Leaves (S.core steps.old) (S.core steps.new) (desk_of desk.new) }
    ensures stands { KeepsStand (S.core steps.old) (S.core steps.new) }
    ensures weight { unended (desk_of desk.new) ≤ unended (desk_of desk.old) + length list.items }
{
    let Ok(count) = u32::try_from(list.len()) else {
        return Err(Halt::NoMemory);
    };
    if desk.say(line, Said::Requeue(count)).is_err() {
        return Err(Halt::NoMemory);
    }
    desk.submit_each(steps, gate, &world.topology.near, list)
}

/// Changes the row of a controller's path.
#[inline(never)]
fn change_line<S: Steps, G: Gate>(
    desk: &mut Desk,
    steps: &mut S,
    gate: &G,
    line: u32,
    ctrl: Ctrl,
    op: &Op,
) -> Result<(), Halt>
    requires sits { Sits (S.core steps.old) (desk_of desk.old) }
    requires op { IsLineOp op.now }
    ensures runs { (world : World) (answers : List Answer) → RunsBeside result (reads_of world answers) line (one_call (change ctrl op.now)) (S.core steps.old) (S.core steps.new) (desk_of desk.old) (desk_of desk.new) }
    ensures leaves { Leaves (S.core steps.old) (S.core steps.new) (desk_of desk.new) }
    ensures stands { KeepsStand (S.core steps.old) (S.core steps.new) }
    ensures weight { unended (desk_of desk.new) ≤ unended (desk_of desk.old) }
{
    desk.change(steps, gate, line, ctrl, op)
}

/// Reads a log page of a controller. A refused page is what the line says, and changes nothing.
#[inline(never)]
fn log_line<S: Steps, G: Gate>(
    alloc: Global,
    desk: &mut Desk,
    steps: &mut S,
    gate: &G,
    world: &World,
    line: u32,
    ctrl: Ctrl,
    number: u32,
) -> Result<(), Halt>
    requires sits { Sits (S.core steps.old) (desk_of desk.old) }
    requires page { FitsPage world.now.pages number }
    ensures runs { (answers : List Answer) → RunsBeside result (reads_of world.now answers) line (start_of (reads_of world.now answers) [] desk.old.flights.flying (kind.Log ctrl number)) (S.core steps.old) (S.core steps.new) (desk_of desk.old) (desk_of desk.new) }
    ensures leaves { Leaves (S.core steps.old) (S.core steps.new) (desk_of desk.new) }
    ensures stands { KeepsStand (S.core steps.old) (S.core steps.new) }
    ensures weight { unended (desk_of desk.new) ≤ unended (desk_of desk.old) }
{
    stated_state_is_in_range();
    match page_in(alloc, world, number) {
        Ok(page) => {
            let op = log_op(&page, world.topology.nsid);
            change_line(desk, steps, gate, line, ctrl, &op)
        }
        Err(refusal) => match page_said(&refusal) {
            Ok(said) => match desk.say(line, said) {
                Ok(()) => Ok(()),
                Err(_) => Err(Halt::NoMemory),
            },
            Err(_) => Err(Halt::NoMemory),
        },
    }
}

/// Runs a line that isn't one of the keeper's, with the list that was given for it.
pub fn run_line<S: Steps, G: Gate>(
    alloc: Global,
    desk: &mut Desk,
    steps: &mut S,
    gate: &G,
    world: &World,
    answers: &Answers,
    list: Vec<Request>,
    line: u32,
    asked: Line,
) -> Result<(), Halt>
    requires sits { Sits (S.core steps.old) (desk_of desk.old) }
    requires page { CanRead world.now.pages asked }
    requires waiting { AllByRecursion IsWaiting list.items }
    requires lane { is_keepers asked ≡ false }
    ensures runs { RunsBeside result (reads_of world.now answers.now) line (start_of (reads_of world.now answers.now) list.items desk.old.flights.flying asked) (S.core steps.old) (S.core steps.new) (desk_of desk.old) (desk_of desk.new) }
    ensures leaves { Leaves (S.core steps.old) (S.core steps.new) (desk_of desk.new) }
    ensures stands { KeepsStand (S.core steps.old) (S.core steps.new) }
    ensures weight { unended (desk_of desk.new) ≤ unended (desk_of desk.old) + (length list.items + (if submits asked then 1 else 0)) }
    ensures fails { OnErr result (unended (desk_of desk.new) ≤ unended (desk_of desk.old) + length list.items) }
{
    match asked {
        Line::Submit(req, node) => submit_line(alloc, desk, steps, gate, world, line, req, node),
        Line::Finish(req) => finish_line(desk, steps, gate, answers, line, &Some(req)),
        Line::FinishAll => finish_line(desk, steps, gate, answers, line, &None),
        Line::Requeue => requeue_line(desk, steps, gate, world, line, list),
        Line::Log(ctrl, number) => { log_line(alloc, desk, steps, gate, world, line, ctrl, number) }
        Line::Ctrl(ctrl, cstate) => {
            change_line(desk, steps, gate, line, ctrl, &Op::Ctrl(cstate))
        }
        Line::Anatt(ctrl) => change_line(desk, steps, gate, line, ctrl, &Op::Expire),
        Line::Add(_, _) => unreachable!(),
        Line::Remove(_) => unreachable!(),
        Line::Reap => unreachable!(),
        Line::Policy(_) => unreachable!(),
    }
}
