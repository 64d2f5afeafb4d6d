//! The turns of the lanes of a run on one thread, one after the other.

ghost use Rattle.std.specs.Prelude.{◌≡◌, ◌+◌, ◌≤◌, ◌<◌, ℕ, true, false, [], Some, None, Err, is_none, length, map, position, IfErr, OnOk, slice_index_or};
ghost use Rattle.std.specs.List.{enumerate_from};
ghost use Rattle.mp_script.specs.Facts.{IsScript};
ghost use Rattle.mp_desk.specs.Desks.{desk_of};
ghost use Rattle.mp_legal.specs.Inputs.{inputs_for};
ghost use Rattle.mp_legal.specs.Units.{pay_turn};
ghost use Rattle.mp_run.specs.LaneTurns.{turn_of, turns_submits};
ghost use Rattle.mp_run.specs.OnTurns.{AreTurnsOf, IsOn};
ghost use Rattle.mp_run.specs.Runner.{is_spent, lane_at, left_of, state_by, IsNew, IsTied, Story};
ghost use Rattle.mp_run.specs.Turning.{all_turns, left_or, often, stage_by, total_of, AreAhead, AreNew, IsReady, NoneSpent, TakesAll, TakesOr};
ghost use Rattle.mp_run.specs.Beginning.{first_lane, first_story};
ghost use Rattle.mp_run.specs.World.{IsWorld};

use crate::error::RunError;
use crate::runner::Runner;
use crate::turns::{LaneTurn, lane_of, turns};
use mp_lane::stepped::Stepped;
use mp_script::script::{Script, World};
use mp_words::numbers::LaneId;
use std::alloc::Global;

/// Whether a lane is spent by its step.
fn is_spent(stepped: &Stepped) -> bool
    ensures { result ≡ is_spent stepped.now }
{
    match stepped {
        Stepped::Ran => false,
        Stepped::Ended => false,
        Stepped::Spent => true,
    }
}

/// Takes a turn, unless its lane is spent.
fn turn(
    runner: &mut Runner,
    world: &World,
    script: &Script,
    spent: &mut [bool; 16],
    turn: &LaneTurn,
) -> Result<(), RunError>
    requires tied { (s : Story) × IsTied runner.old s }
    requires lane { turn.now.lane < length runner.old.lanes.items }
    requires ready { slice_index_or spent.old turn.now.lane false ≡ false → IsReady world.now.pages turn.now.line (lane_at turn.now.lane runner.old) }
    ensures takes { OnOk result ((s : Story) → IsTied runner.old s → IsNew turn.now.line s → (t : Story) × TakesOr turn.now.lane turn.now.line (pay_turn (inputs_for world.now script.now) turn.now.lane (state_by runner.old s) turn.now.line (left_or spent.old turn.now.lane runner.old)) spent.old spent.new runner.old runner.new s t) }
    ensures refused { IfErr result (λ why. why ≡ RunError.NoMemory) }
{
    let place = turn.lane.get() as usize;
    if spent[place] {
        return Ok(());
    }
    let stepped = runner.take_turn(world, script, turn.lane)?;
    spent[place] = is_spent(&stepped);
    Ok(())
}

/// Takes these turns.
pub fn take_turns(
    runner: &mut Runner,
    world: &World,
    script: &Script,
    spent: &mut [bool; 16],
    turns: &[LaneTurn],
) -> Result<(), RunError>
    requires tied { (s : Story) × IsTied runner.old s × AreNew (map turn_of turns.now) s }
    requires turns { AreTurnsOf (length runner.old.lanes.items) (map turn_of turns.now) }
    requires ahead { AreAhead world.now.pages spent.old (map turn_of turns.now) runner.old }
    ensures on { OnOk result ((s : Story) → IsTied runner.old s → AreNew (map turn_of turns.now) s → (t : Story) × IsTied runner.new t × IsOn (inputs_for world.now script.now) (map turn_of turns.now) [] (stage_by spent.old runner.old s) (stage_by spent.new runner.new t)) }
    ensures count { OnOk result (length runner.new.lanes.items ≡ length runner.old.lanes.items) }
    ensures desk { OnOk result (desk_of runner.new.drain ≡ desk_of runner.old.drain) }
    ensures all { OnOk result (NoneSpent spent.new → (req : ℕ) → total_of req runner.new ≡ total_of req runner.old + often req (turns_submits (map turn_of turns.now))) }
    ensures over { OnOk result ((n : ℕ) → n < length runner.new.lanes.items → slice_index_or spent.new n false ≡ false → (lane_at n runner.new).over ≡ true) }
    ensures drain { OnOk result (left_of 16 runner.new ≡ left_of 16 runner.old) }
    ensures others { OnOk result ((lane : ℕ) → length runner.old.lanes.items ≤ lane → lane < 16 → left_or spent.new lane runner.new ≡ left_or spent.old lane runner.old) }
    ensures refused { IfErr result (λ why. why ≡ RunError.NoMemory) }
{
    for each in turns {
        turn(runner, world, script, spent, each)?;
    }
    Ok(())
}

/// The first lane that is spent, if one is.
fn first_spent(spent: &[bool; 16]) -> Option<LaneId>
    ensures { result ≡ position (λ s. s) spent.now }
{
    for place in 0..16usize {
        if spent[place] {
            return Some(lane_of(place));
        }
    }
    None
}

/// Runs all lanes by turns.
pub fn run_lanes(
    runner: &mut Runner,
    alloc: Global,
    world: &World,
    script: &Script,
) -> Result<(), RunError>
    requires world { IsWorld world.now }
    requires script { IsScript script.now }
    requires tied { IsTied runner.old first_story }
    requires lanes { runner.old.lanes.items ≡ map first_lane (enumerate_from 0 script.now.lanes) }
    ensures takes { OnOk result ((t : Story) × TakesAll (inputs_for world.now script.now) script.now.lanes runner.old runner.new t) }
    ensures enough { OnOk result (position is_none (all_turns (inputs_for world.now script.now) script.now.lanes runner.old).lefts ≡ None) }
    ensures spent { (lane : ℕ) → result ≡ Err (RunError.Spent lane) → position is_none (all_turns (inputs_for world.now script.now) script.now.lanes runner.old).lefts ≡ Some lane }
{
    let turns = turns(alloc, script.lanes.as_slice())?;
    let mut spent = [false; 16];
    take_turns(runner, world, script, &mut spent, &turns)?;
    match first_spent(&spent) {
        Some(lane) => Err(RunError::Spent(lane)),
        None => Ok(()),
    }
}
