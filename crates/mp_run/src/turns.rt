//! Which lane runs what, turn by turn.

ghost use Rattle.std.specs.Prelude.{◌≡◌, ◌≤◌, ◌<◌, ◌^◌, ◌++◌, ◌∷◌, [], IfOk, IfErr, OnOk, length, map};
ghost use Rattle.mp_legal.specs.Turns as plain;
ghost use Rattle.mp_run.specs.LaneTurns.{turn_of};

use crate::error::RunError;
use mp_script::script::{LanePlan, Line, Numbered1};
use mp_words::numbers::LaneId;
use mp_words::row::{CState, Policy};
use std::alloc::Global;

/// A turn of a lane: one of its lines, or its end.
#[derive(Clone, Copy)]
pub struct LaneTurn {
    pub lane: LaneId,
    pub line: Option<Numbered1>,
}

/// How many lines the longest lane has.
fn longest(plans: &[LanePlan]) -> usize
    ensures { result ≡ plain.longest plans.now }
{
    let mut longest = 0;
    for plan in plans {
        longest = plan.lines.len().max(longest);
    }
    longest
}

/// Adds a turn.
fn push(turns: &mut Vec<LaneTurn>, turn: LaneTurn) -> Result<(), RunError>
    ensures exact { OnOk result (map turn_of turns.new.items ≡ map turn_of turns.old.items ++ turn_of turn ∷ []) }
    ensures refused { IfErr result (λ why. why ≡ RunError.NoMemory) }
{
    // The proof of a push needs each type inside a turn named here.
    let _: (Option<Numbered1>, Option<Line>) = (None, None);
    let _: (Option<CState>, Option<Policy>) = (None, None);
    turns.push(turn)?;
    Ok(())
}

/// Adds the turn that a lane has in a round, if it has one.
fn push_turn(
    turns: &mut Vec<LaneTurn>,
    lane: LaneId,
    plan: &LanePlan,
    round: usize,
) -> Result<(), RunError>
    ensures exact { OnOk result (map turn_of turns.new.items ≡ map turn_of turns.old.items ++ plain.turn_in round (lane, plan.now)) }
    ensures refused { IfErr result (λ why. why ≡ RunError.NoMemory) }
{
    let lines = plan.lines.as_slice();
    if round < lines.len() {
        let line = Some(lines[round]);
        return push(turns, LaneTurn { lane, line });
    }
    if round == lines.len() {
        return push(turns, LaneTurn { lane, line: None });
    }
    Ok(())
}

/// The lane of a place.
pub fn lane_of(place: usize) -> LaneId
    requires { place < 16 }
    ensures { result ≡ place }
{
    LaneId::make(place as u32).unwrap()
}

/// Adds the turns of one round, lane 0 first.
fn push_round(turns: &mut Vec<LaneTurn>, plans: &[LanePlan], round: usize) -> Result<(), RunError>
    requires { length plans.now ≤ 16 }
    ensures exact { OnOk result (map turn_of turns.new.items ≡ map turn_of turns.old.items ++ plain.round_of plans.now round) }
    ensures refused { IfErr result (λ why. why ≡ RunError.NoMemory) }
{
    for (lane, plan) in plans.iter().enumerate() {
        push_turn(turns, lane_of(lane), plan, round)?;
    }
    Ok(())
}

/// All turns: round after round, until the longest lane has ended.
///
/// # Errors
///
/// `NoMemory` where memory runs out.
pub fn turns(alloc: Global, plans: &[LanePlan]) -> Result<Vec<LaneTurn>, RunError>
    requires lanes { length plans.now ≤ 16 }
    requires few { plain.longest plans.now < 2 ^ 32 }
    ensures exact { IfOk result (λ turns. map turn_of turns.items ≡ plain.turns_of plans.now) }
    ensures refused { IfErr result (λ why. why ≡ RunError.NoMemory) }
{
    let mut turns = Vec::new(alloc);
    for round in 0..longest(plans) + 1 {
        push_round(&mut turns, plans, round)?;
    }
    Ok(turns)
}
