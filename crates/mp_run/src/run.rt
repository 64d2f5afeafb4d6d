//! Runs a script on one thread.

ghost use Rattle.std.specs.Prelude.{◌≡◌, ◌≤◌, ◌<◌, ℕ, [], Ok, Err, IfErr, IfOk, map, length};
ghost use Rattle.std.specs.List.{AllByRecursion};
ghost use Rattle.mp_checks.specs.Marks.{has};
ghost use Rattle.mp_words.specs.Request.{asked_of};
ghost use Rattle.mp_record.specs.RunView.{view_of};
ghost use Rattle.mp_script.specs.Facts.{IsScript, submits_in};
ghost use Rattle.mp_legal.specs.Inputs.{inputs_for};
ghost use Rattle.mp_legal.specs.Numbers.{has_req};
ghost use Rattle.mp_legal.specs.PlainRun.{run_over, reads_over};
ghost use Rattle.mp_legal.specs.Units.{pay_drain, serial_over};
ghost use Rattle.mp_run.specs.DrainAll.{Drained};
ghost use Rattle.mp_run.specs.Notes.{AreNoted};
ghost use Rattle.mp_run.specs.Runner.{left_of, state_by, IsTied, Story};
ghost use Rattle.mp_run.specs.Told.{IsOver, AreNumbered};
ghost use Rattle.mp_run.specs.World.{IsWorld};

use crate::beginning::begin;
use crate::draining::drain_lane;
use crate::error::RunError;
use crate::gathering::gathered;
use crate::runner::Runner;
use crate::turning::run_lanes;
use mp_desk::halt::Halt;
use mp_legal::gather_laws::entries_in_any_order_make_the_histories;
use mp_legal::paths::{histories_follow, worlds_are_read};
use mp_record::run::Run;
use mp_script::script::{Script, World};
use std::alloc::Global;

/// Drains the list.
fn drain(runner: &mut Runner, alloc: Global, world: &World, script: &Script) -> Result<(), RunError>
    requires tied { (s : Story) × IsTied runner.old s }
    requires quiet { runner.old.drain.flights.flying ≡ [] }
    ensures drains { (s : Story) → IsTied runner.old s → IfOk result (λ done. (left : ℕ) × ((pay_drain (inputs_for world.now script.now) (state_by runner.old s) (left_of 16 runner.old)).left ≡ Some left) × ((t : Story) × Drained (pay_drain (inputs_for world.now script.now) (state_by runner.old s) (left_of 16 runner.old)) runner.old runner.new s t)) }
    ensures spent { (s : Story) → IsTied runner.old s → (lane : ℕ) → result ≡ Err (RunError.Spent lane) → (lane ≡ 16) × ((pay_drain (inputs_for world.now script.now) (state_by runner.old s) (left_of 16 runner.old)).left ≡ None) }
{
    match runner.drain_all(alloc, world, script) {
        Ok(()) => Ok(()),
        Err(Halt::NoMemory) => Err(RunError::NoMemory),
        Err(Halt::Spent) => Err(RunError::Spent(drain_lane())),
    }
}

/// The run of a script on one thread, with so many units for each lane and for the drain.
///
/// # Errors
///
/// `NoMemory` where memory runs out, and `Spent` with the first lane, by number, that had fewer units left than its next
/// call needs, 16 for the drain.
pub fn serial(
    alloc: Global,
    world: &World,
    script: &Script,
    allowance: u32,
) -> Result<Run, RunError>
    requires world { IsWorld world.now }
    requires script { IsScript script.now }
    requires few { allowance ≤ 2097152 }

    // It is the plain run of the script, with these units.
    ensures paid { IfOk result (λ run. serial_over allowance world.now script.now ≡ Ok (view_of run)) }
    ensures spent { (lane : ℕ) → result ≡ Err (RunError.Spent lane) → serial_over allowance world.now script.now ≡ Err lane }
    ensures exact { IfOk result (λ run. view_of run ≡ run_over world.now script.now) }

    // The requests are those that the script submits. They stand by number, each once, and each is done, failed or
    // listed, and not on its way.
    ensures asked { (req : ℕ) → IfOk result (λ run. has_req req (map asked_of run.requests) ≡ has (submits_in script.now.lanes) req) }
    ensures numbered { IfOk result (λ run. AreNumbered (map asked_of run.requests)) }
    ensures over { IfOk result (λ run. AllByRecursion IsOver (map asked_of run.requests)) }

    // Each try notes its lane, the list and what it read.
    ensures noted { IfOk result (λ run. AreNoted (reads_over world.now script.now) run.requests) }
{
    worlds_are_read();
    histories_follow();
    entries_in_any_order_make_the_histories();
    let Ok(mut runner) = begin(alloc, world, script, allowance) else {
        return Err(RunError::NoMemory);
    };
    run_lanes(&mut runner, alloc, world, script)?;
    drain(&mut runner, alloc, world, script)?;
    match gathered(alloc, world, script, runner) {
        Ok(run) => Ok(run),
        Err(_) => Err(RunError::NoMemory),
    }
}
