//! The lanes of a run on one thread, and their turns.

ghost use Rattle.std.specs.Prelude.{◌≡◌, ◌<◌, ◌++◌, ℕ, false, length, IfOk, IfErr, OnOk, Some, None, vec_len};
ghost use Rattle.std.specs.List.{AllByRecursion};
ghost use Rattle.mp_plain.specs.Told.{told_core};
ghost use Rattle.mp_keep.specs.Keeper.{StandsTo};
ghost use Rattle.mp_desk.specs.Calls.{IsWaiting, Sits};
ghost use Rattle.mp_lane.specs.Lines.{reads_of};
ghost use Rattle.mp_lane.specs.Steps.{MayRead};
ghost use Rattle.mp_lane.specs.LaneView.{wants_of};
ghost use Rattle.mp_legal.specs.Inputs.{inputs_for};
ghost use Rattle.mp_legal.specs.Units.{pay_turn};
ghost use Rattle.mp_run.specs.Runner.{core_for, given, is_spent, kept_list, lane_at, left_if, left_of, next_of, stand_at, state_by, IsTied, IsNew, StepsFrom, Story, Takes};

use crate::desk_laws::desk_laws;
use crate::error::RunError;
use mp_core::gate::NoGate;
use mp_desk::desk::Desk;
use mp_keep::keeper::Keeper;
use mp_lane::lane::Lane;
use mp_lane::stepped::Stepped;
use mp_lane::wants::Wants;
use mp_plain::plain::Plain;
use mp_requeue::private::Private;
use mp_script::script::{Script, World};
use mp_words::answers::Answers;
use mp_words::numbers::LaneId;
use mp_words::request::Request;

/// The words with the lanes that step over them, the one who adds and removes paths, the lanes of the script, the
/// requests that wait, and the desk of the drain.
#[derive(Drop)]
pub struct Runner {
    pub plain: Plain,
    pub keeper: Keeper,
    pub lanes: Vec<Lane>,
    pub list: Private<Request>,
    pub drain: Desk,
}

/// Puts requests to the end of the list, in order.
pub fn put_all(list: &mut Private<Request>, requests: Vec<Request>) -> Result<(), RunError>
    ensures put { OnOk result (list.new ≡ list.old ++ requests.items) }
    ensures refused { IfErr result (λ why. why ≡ RunError.NoMemory) }
{
    if requests.is_empty() {
        return Ok(());
    }
    put_each(list, requests)
}

/// Puts requests to the end of the list, one by one.
#[inline(never)]
fn put_each(list: &mut Private<Request>, requests: Vec<Request>) -> Result<(), RunError>
    ensures put { OnOk result (list.new ≡ list.old ++ requests.items) }
    ensures refused { IfErr result (λ why. why ≡ RunError.NoMemory) }
{
    for request in requests {
        if list.put(request).is_err() {
            return Err(RunError::NoMemory);
        }
    }
    Ok(())
}

/// Hands the list to a lane that wants it.
fn hand_list(lane: &mut Lane, list: &mut Private<Request>)
    requires waiting { AllByRecursion IsWaiting list.old }
    ensures lane { lane.new ≡ given (wants_of lane.old) list.old lane.old }
    ensures list { list.new ≡ kept_list (wants_of lane.old) list.old }
{
    if let Wants::List = lane.wants() {
        lane.give(list.take_all());
    }
}

/// Makes it the turn of a lane that isn't over, hands it the list where it wants it, runs its line or its end, and puts
/// what it has to list into the list.
fn step_lane(
    plain: &mut Plain,
    keeper: &mut Keeper,
    at: &mut Lane,
    list: &mut Private<Request>,
    lane: LaneId,
    world: &World,
    answers: &Answers,
) -> Result<Stepped, RunError>
    requires lane { lane ≡ at.old.id }
    requires goes_on { at.old.over ≡ false }
    requires sits { Sits (core_for lane plain.old) at.old.desk }
    requires stands { StandsTo keeper.old (told_core plain.old).view }
    requires pages { MayRead world.now.pages at.old.rest }
    requires waiting { AllByRecursion IsWaiting list.old }
    ensures steps { IfOk result (λ stepped. StepsFrom stepped (reads_of world.now answers.now) at.old at.new list.old list.new (stand_at lane at.old.desk keeper.old plain.old) (told_core plain.new) keeper.new) }
    ensures refused { IfErr result (λ why. why ≡ RunError.NoMemory) }
{
    hand_list(at, list);
    plain.turn(lane);
    let Ok(stepped) = at.step_keeper(plain, &NoGate, world, answers, keeper) else {
        return Err(RunError::NoMemory);
    };
    put_all(list, at.take_out())?;
    Ok(stepped)
}

impl Runner {
    /// Takes a turn of a lane that isn't over: its next line, or its end. Where its units aren't enough its flights are
    /// ended.
    pub fn take_turn(
        &mut self,
        world: &World,
        script: &Script,
        lane: LaneId,
    ) -> Result<Stepped, RunError>
        requires tied { (s : Story) × IsTied self.old s }
        requires lane { lane < length self.old.lanes.items }
        requires goes_on { (lane_at lane self.old).over ≡ false }
        requires pages { MayRead world.now.pages (lane_at lane self.old).rest }
        ensures takes { IfOk result (λ stepped. (s : Story) → IsTied self.old s → IsNew (next_of (lane_at lane self.old)) s → (t : Story) × Takes lane (pay_turn (inputs_for world.now script.now) lane (state_by self.old s) (next_of (lane_at lane self.old)) (Some (left_of lane self.old))) (left_if (is_spent stepped) lane self.new) self.old self.new s t) }
        ensures refused { IfErr result (λ why. why ≡ RunError.NoMemory) }
    {
        desk_laws();
        let at = &mut self.lanes[lane.get() as usize];
        let stepped = step_lane(
            &mut self.plain,
            &mut self.keeper,
            at,
            &mut self.list,
            lane,
            world,
            &script.answers,
        )?;
        Ok(stepped)
    }
}
