//! The lines of the keeper's lane.

ghost use Rattle.std.specs.Prelude.{◌≡◌, ◌≤◌, ◌+◌, false, length, List, OnErr, if◌then◌else◌};
ghost use Rattle.std.specs.List.{AllByRecursion};
ghost use Rattle.mp_words.specs.declared.answers.Answer.{Answer};
ghost use Rattle.mp_words.specs.Effect.{IsState};
ghost use Rattle.mp_script.specs.declared.script.World.{World};
ghost use Rattle.mp_keep.specs.Keeper.{StandsTo};
ghost use Rattle.mp_desk.specs.Calls.{add, reap, remove, set_policy, IsWaiting, Sits};
ghost use Rattle.mp_desk.specs.Desks.{desk_of, stand, KeeperLeaves, Leaves};
ghost use Rattle.mp_script.specs.declared.script.Line.TheVariants as kind;
ghost use Rattle.mp_desk.specs.DeskView.{unended};
ghost use Rattle.mp_lane.specs.LaneView.{submits};
ghost use Rattle.mp_lane.specs.Lines.{adds, is_keepers, one_call, reads_of, start_of};
ghost use Rattle.mp_lane.specs.Steps.{CanRead, Runs};

use crate::lines::run_line;
use crate::pages::{page_gift, page_in, page_said, plain_gift};
use mp_core::gate::Gate;
use mp_core::steps::KeeperSteps;
use mp_desk::desk::Desk;
use mp_desk::halt::Halt;
use mp_keep::keeper::Keeper;
use mp_page::laws::stated_state_is_in_range;
use mp_script::script::{Line, World};
use mp_words::answers::Answers;
use mp_words::numbers::Ctrl;
use mp_words::op::Gift;
use mp_words::request::Request;
use mp_words::row::Policy;
use std::alloc::Global;

/// Adds a path that begins so.
#[inline(never)]
fn gift_line<S: KeeperSteps>(
    desk: &mut Desk,
    keeper: &mut Keeper,
    steps: &mut S,
    line: u32,
    gift: Gift,
) -> Result<(), Halt>
    requires sits { Sits (S.core steps.old) (desk_of desk.old) }
    requires stands { StandsTo keeper.old (S.core steps.old).view }
    requires state { IsState gift.state }
    ensures runs { (world : World) (answers : List Answer) → Runs result (reads_of world answers) line (one_call (add gift)) (stand (S.core steps.old) (desk_of desk.old) keeper.old) (stand (S.core steps.new) (desk_of desk.new) keeper.new) }
    ensures leaves { KeeperLeaves (S.core steps.old) (S.core steps.new) (desk_of desk.new) keeper.new }
    ensures weight { unended (desk_of desk.new) ≤ unended (desk_of desk.old) }
{
    desk.add(steps, keeper, line, gift)
}

/// Adds a path of a controller, by the page in a box where one is named. A refused page is what the line says, and
/// changes nothing.
#[inline(never)]
fn add_line<S: KeeperSteps>(
    alloc: Global,
    desk: &mut Desk,
    keeper: &mut Keeper,
    steps: &mut S,
    world: &World,
    line: u32,
    ctrl: Ctrl,
    number: Option<u32>,
) -> Result<(), Halt>
    requires sits { Sits (S.core steps.old) (desk_of desk.old) }
    requires stands { StandsTo keeper.old (S.core steps.old).view }
    requires page { CanRead world.now.pages (kind.Add ctrl number) }
    ensures runs { (answers : List Answer) → Runs result (reads_of world.now answers) line (adds (reads_of world.now answers) ctrl number) (stand (S.core steps.old) (desk_of desk.old) keeper.old) (stand (S.core steps.new) (desk_of desk.new) keeper.new) }
    ensures leaves { KeeperLeaves (S.core steps.old) (S.core steps.new) (desk_of desk.new) keeper.new }
    ensures weight { unended (desk_of desk.new) ≤ unended (desk_of desk.old) }
{
    stated_state_is_in_range();
    let Some(number) = number else {
        return gift_line(desk, keeper, steps, line, plain_gift(ctrl));
    };
    match page_in(alloc, world, number) {
        Ok(page) => {
            let gift = page_gift(ctrl, &page, world.topology.nsid);
            gift_line(desk, keeper, steps, line, gift)
        }
        Err(refusal) => match page_said(&refusal) {
            Ok(said) => match desk.say(line, said) {
                Ok(()) => Ok(()),
                Err(_) => Err(Halt::NoMemory),
            },
            Err(_) => Err(Halt::NoMemory),
        },
    }
}

/// Begins the removal of a controller's path.
#[inline(never)]
fn remove_line<S: KeeperSteps>(
    desk: &mut Desk,
    keeper: &mut Keeper,
    steps: &mut S,
    line: u32,
    ctrl: Ctrl,
) -> Result<(), Halt>
    requires sits { Sits (S.core steps.old) (desk_of desk.old) }
    requires stands { StandsTo keeper.old (S.core steps.old).view }
    ensures runs { (world : World) (answers : List Answer) → Runs result (reads_of world answers) line (one_call (remove ctrl)) (stand (S.core steps.old) (desk_of desk.old) keeper.old) (stand (S.core steps.new) (desk_of desk.new) keeper.new) }
    ensures leaves { KeeperLeaves (S.core steps.old) (S.core steps.new) (desk_of desk.new) keeper.new }
    ensures weight { unended (desk_of desk.new) ≤ unended (desk_of desk.old) }
{
    desk.remove(steps, keeper, line, ctrl)
}

/// Carries the removals as far as they go.
#[inline(never)]
fn reap_line<S: KeeperSteps>(
    desk: &mut Desk,
    keeper: &mut Keeper,
    steps: &mut S,
    line: u32,
) -> Result<(), Halt>
    requires sits { Sits (S.core steps.old) (desk_of desk.old) }
    requires stands { StandsTo keeper.old (S.core steps.old).view }
    ensures runs { (world : World) (answers : List Answer) → Runs result (reads_of world answers) line (one_call reap) (stand (S.core steps.old) (desk_of desk.old) keeper.old) (stand (S.core steps.new) (desk_of desk.new) keeper.new) }
    ensures leaves { KeeperLeaves (S.core steps.old) (S.core steps.new) (desk_of desk.new) keeper.new }
    ensures weight { unended (desk_of desk.new) ≤ unended (desk_of desk.old) }
{
    desk.reap(steps, keeper, line)
}

/// Sets the policy.
#[inline(never)]
fn policy_line<S: KeeperSteps>(
    desk: &mut Desk,
    keeper: &mut Keeper,
    steps: &mut S,
    line: u32,
    policy: Policy,
) -> Result<(), Halt>
    requires sits { Sits (S.core steps.old) (desk_of desk.old) }
    requires stands { StandsTo keeper.old (S.core steps.old).view }
    ensures runs { (world : World) (answers : List Answer) → Runs result (reads_of world answers) line (one_call (set_policy policy)) (stand (S.core steps.old) (desk_of desk.old) keeper.old) (stand (S.core steps.new) (desk_of desk.new) keeper.new) }
    ensures leaves { KeeperLeaves (S.core steps.old) (S.core steps.new) (desk_of desk.new) keeper.new }
    ensures weight { unended (desk_of desk.new) ≤ unended (desk_of desk.old) }
{
    desk.set_policy(steps, keeper, line, policy)
}

/// Runs a line that every lane may have, in the keeper's lane.
fn other_line<S: KeeperSteps, G: Gate>(
    alloc: Global,
    desk: &mut Desk,
    keeper: &Keeper,
    steps: &mut S,
    gate: &G,
    world: &World,
    answers: &Answers,
    list: Vec<Request>,
    line: u32,
    asked: Line,
) -> Result<(), Halt>
    requires sits { Sits (S.core steps.old) (desk_of desk.old) }
    requires stands { StandsTo keeper.now (S.core steps.old).view }
    requires page { CanRead world.now.pages asked }
    requires waiting { AllByRecursion IsWaiting list.items }
    requires lane { is_keepers asked ≡ false }
    ensures runs { Runs result (reads_of world.now answers.now) line (start_of (reads_of world.now answers.now) list.items desk.old.flights.flying asked) (stand (S.core steps.old) (desk_of desk.old) keeper.now) (stand (S.core steps.new) (desk_of desk.new) keeper.now) }
    ensures leaves { Leaves (S.core steps.old) (S.core steps.new) (desk_of desk.new) }
    ensures stands { StandsTo keeper.now (S.core steps.new).view }
    ensures weight { unended (desk_of desk.new) ≤ unended (desk_of desk.old) + (length list.items + (if submits asked then 1 else 0)) }
    ensures fails { OnErr result (unended (desk_of desk.new) ≤ unended (desk_of desk.old) + length list.items) }
{
    run_line(alloc, desk, steps, gate, world, answers, list, line, asked)
}

/// Runs a line of the keeper's lane, with the list that was given for it.
pub fn run_keeper_line<S: KeeperSteps, G: Gate>(
    alloc: Global,
    desk: &mut Desk,
    keeper: &mut Keeper,
    steps: &mut S,
    gate: &G,
    world: &World,
    answers: &Answers,
    list: Vec<Request>,
    line: u32,
    asked: Line,
) -> Result<(), Halt>
    requires sits { Sits (S.core steps.old) (desk_of desk.old) }
    requires stands { StandsTo keeper.old (S.core steps.old).view }
    requires page { CanRead world.now.pages asked }
    requires waiting { AllByRecursion IsWaiting list.items }
    ensures runs { Runs result (reads_of world.now answers.now) line (start_of (reads_of world.now answers.now) list.items desk.old.flights.flying asked) (stand (S.core steps.old) (desk_of desk.old) keeper.old) (stand (S.core steps.new) (desk_of desk.new) keeper.new) }
    ensures leaves { Leaves (S.core steps.old) (S.core steps.new) (desk_of desk.new) }
    ensures stands { StandsTo keeper.new (S.core steps.new).view }
    ensures weight { unended (desk_of desk.new) ≤ unended (desk_of desk.old) + (length list.items + (if submits asked then 1 else 0)) }
    ensures fails { OnErr result (unended (desk_of desk.new) ≤ unended (desk_of desk.old) + length list.items) }
{
    match asked {
        Line::Add(ctrl, number) => {
            add_line(alloc, desk, keeper, steps, world, line, ctrl, number)
        }
        Line::Remove(ctrl) => remove_line(desk, keeper, steps, line, ctrl),
        Line::Reap => reap_line(desk, keeper, steps, line),
        Line::Policy(policy) => policy_line(desk, keeper, steps, line, policy),
        _ => other_line(
            alloc, desk, keeper, steps, gate, world, answers, list, line, asked,
        ),
    }
}
