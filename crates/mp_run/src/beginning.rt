//! How a run on one thread begins.

ghost use Rattle.std.specs.Prelude.{◌≡◌, ◌≤◌, ◌<◌, ℕ, [], length, map, IfErr, IfOk};
ghost use Rattle.std.specs.List.{enumerate_from};
ghost use Rattle.mp_desk.specs.Desks.{desk_of};
ghost use Rattle.mp_legal.specs.Inputs.{inputs_of};
ghost use Rattle.mp_legal.specs.Opening as plain;
ghost use Rattle.mp_run.specs.Beginning.{empty_desk, first_lane, first_story};
ghost use Rattle.mp_run.specs.Runner.{left_of, state_by, IsTied};
ghost use Rattle.mp_run.specs.Turning.{total_of};
ghost use Rattle.mp_run.specs.World.{IsWorld};

use crate::error::RunError;
use crate::first_words::opening;
use crate::opening::{opening_order, opening_rows, owners_of};
use crate::runner::Runner;
use crate::turns::lane_of;
use mp_desk::desk::Desk;
use mp_keep::keeper::Keeper;
use mp_keep::laws::a_new_keeper_stands;
use mp_lane::lane::Lane;
use mp_page::laws::stated_state_is_in_range;
use mp_plain::plain::Plain;
use mp_requeue::private::Private;
use mp_script::script::{LanePlan, Script, World};
use std::alloc::Global;

/// The lanes of these plans, which have run nothing yet.
fn lanes_of(alloc: Global, plans: &[LanePlan]) -> Result<Vec<Lane>, RunError>
    requires { length plans.now ≤ 16 }
    ensures lanes { IfOk result (λ lanes. lanes.items ≡ map first_lane (enumerate_from 0 plans.now)) }
{
    let mut lanes = Vec::new(alloc);
    for (place, plan) in plans.iter().enumerate() {
        let Ok(copy) = plan.copy(alloc) else {
            return Err(RunError::NoMemory);
        };
        lanes.push(Lane::make_plain(alloc, lane_of(place), copy))?;
    }
    Ok(lanes)
}

/// The run before its first turn, with so many units for each lane and for the drain.
pub fn begin(
    alloc: Global,
    world: &World,
    script: &Script,
    allowance: u32,
) -> Result<Runner, RunError>
    requires world { IsWorld world.now }
    requires lanes { length script.now.lanes ≤ 16 }
    requires few { allowance ≤ 2097152 }
    ensures tied { IfOk result (λ r. IsTied r first_story) }
    ensures state { IfOk result (λ r. state_by r first_story ≡ plain.opening (inputs_of world.now)) }
    ensures lefts { IfOk result (λ r. (lane : ℕ) → lane < 17 → left_of lane r ≡ allowance) }
    ensures lanes { IfOk result (λ r. r.lanes.items ≡ map first_lane (enumerate_from 0 script.now.lanes)) }
    ensures empty { IfOk result (λ r. (req : ℕ) → total_of req r ≡ 0) }
    ensures made { IfOk result (λ r. (r.keeper.entries ≡ []) × (desk_of r.drain ≡ empty_desk)) }
{
    stated_state_is_in_range();
    a_new_keeper_stands();
    let words = opening(alloc, world)?;
    let rows = opening_rows(alloc, world)?;
    let order = opening_order(&world.topology);
    let Ok(plain) = Plain::make(alloc, &words, allowance) else {
        return Err(RunError::NoMemory);
    };
    let lanes = lanes_of(alloc, script.lanes.as_slice())?;
    Ok(Runner {
        plain,
        keeper: Keeper::make(alloc, order, owners_of(&rows)),
        lanes,
        list: Private::make(alloc),
        drain: Desk::make(alloc, false),
    })
}
