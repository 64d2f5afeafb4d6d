//! Sixteen passes at once, each in a thread of its own.

ghost use Rattle.std.specs.Prelude.{◌≡◌, ◌+◌, ◌<◌, ◌≤◌, [], ℕ, length, slice_index_or, vec_len, vec_capacity};
ghost use Rattle.mp_core.specs.declared.view.Role.TheVariants as role;
ghost use Rattle.mp_plain.specs.Lanes.{lanes_to};
ghost use Rattle.mp_table.specs.Passes.{table_of, keeper_home, keeper_view};
ghost use Rattle.mp_table.specs.Trials.{Idle};
ghost use Rattle.mp_table.specs.Jobs.{IsReady, AllReady};

use crate::error::TableError;
use crate::keeper_pass::KeeperPass;
use crate::on::On;
use crate::pass::Pass;
use crate::shared::Shared;
use crate::tests::{enter, lane, leave, load, table};
use mp_words::words::Words;
use std::alloc::Global;
use std::test::Fail;
use std::thread::Threads;
use std::{hint, mem, thread};

/// Splits off sixteen passes with a unit each.
fn split_all(shared: &Shared, keeper: &mut KeeperPass, jobs: &mut Vec<Option<Pass>>)
    requires own { keeper_home keeper.old ≡ table_of shared.now }
    requires idle { Idle role.Keeper 100 [] (keeper_view keeper.old) }
    requires none { jobs.old.items ≡ [] }
    requires room { 16 ≤ vec_capacity jobs.old }
    ensures own { keeper_home keeper.new ≡ table_of shared.now }
    ensures idle { Idle role.Keeper 84 (lanes_to 16) (keeper_view keeper.new) }
    ensures ready { AllReady (table_of shared.now) 16 1 jobs.new.items }
{
    for n in 0..16 {
        let pass = shared.split(keeper, lane(n), 1);
        jobs.push_reserved(Some(pass));
    }
}

/// Spends some time.
fn spin(turns: usize) {
    for _ in 0..turns {
        hint::spin_loop();
    }
}

/// One section of a lane's pass, with some time before it is entered and before it is left.
fn visit(shared: &Shared, job: &mut Option<Pass>, turns: usize)
    requires { (n : ℕ) × IsReady (table_of shared.now) n 1 job.old }
    ensures { (n : ℕ) → IsReady (table_of shared.now) n 1 job.old → IsReady (table_of shared.now) n 0 job.new }
{
    let pass = job.take().unwrap();
    let mut on = On::make(shared, pass);
    let side = load(&mut on);
    spin(turns);
    let section = enter(&mut on, side);
    spin(turns);
    leave(&mut on, section);
    let none = mem::replace(job, Some(on.pass()));
    let None = none else { unreachable!() };
}

/// One section of each pass, each in a thread of its own, which spends time by a seed.
fn visit_all<R: Threads + Sync>(rt: &R, shared: &Shared, jobs: &mut [Option<Pass>], seed: usize)
    requires { AllReady (table_of shared.now) 16 1 jobs.old }
    ensures { AllReady (table_of shared.now) 16 0 jobs.new }
{
    thread::for_each_mut(
        rt,
        jobs,
        16,
        &|place, job: &mut Option<Pass>|
            requires { (n : ℕ) × IsReady (table_of shared.now) n 1 job.old }
            ensures { (n : ℕ) → IsReady (table_of shared.entry.now) n 1 job.old → IsReady (table_of shared.entry.now) n 0 job.new }
        { visit(shared, job, place % 16 * (seed % 97)) },
    );
}

/// Joins sixteen passes, the last first.
fn join_all(shared: &Shared, keeper: &mut KeeperPass, jobs: &mut Vec<Option<Pass>>)
    requires own { keeper_home keeper.old ≡ table_of shared.now }
    requires idle { Idle role.Keeper 84 (lanes_to 16) (keeper_view keeper.old) }
    requires ready { AllReady (table_of shared.now) 16 0 jobs.old.items }
    ensures own { keeper_home keeper.new ≡ table_of shared.now }
    ensures idle { Idle role.Keeper 84 [] (keeper_view keeper.new) }
    ensures none { vec_len jobs.new ≡ 0 }
{
    while let Some(job) = jobs.pop() {
        shared.join(keeper, job.unwrap());
    }
}

/// Sixteen passes make one section each, each in a thread of its own, and are joined: the words after them.
fn sixteen<R: Threads + Sync>(rt: &R, alloc: Global, seed: usize) -> Result<Words, TableError> {
    let Ok(mut jobs) = Vec::with_capacity(alloc, 16) else {
        return Err(TableError::NoMemory);
    };
    let (shared, mut keeper) = match table(alloc, 100) {
        Ok(made) => made,
        Err(error) => {
            jobs.destroy_empty();
            return Err(error);
        }
    };
    split_all(&shared, &mut keeper, &mut jobs);
    visit_all(rt, &shared, &mut jobs, seed);
    join_all(&shared, &mut keeper, &mut jobs);
    jobs.destroy_empty();
    Ok(shared.close(keeper))
}

#[test]
fn sixteen_passes(rt: HostRuntime) -> Result<(), Fail> {
    for seed in 0..8 {
        let words = sixteen(&rt, rt.alloc(), seed * 37)?;
        assert_eq!(rt; words.index, 0);
        assert_eq!(rt; words.sides[0], 0x0000_0010_0000_0000);
        assert_eq!(rt; words.sides[1], 0);
    }
    Ok(())
}
