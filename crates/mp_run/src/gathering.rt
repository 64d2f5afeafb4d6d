//! The run of what lanes, the drain, the list and the keeper leave.

ghost use Rattle.std.specs.Prelude.{◌≡◌, ◌≤◌, ◌∷◌, ◌++◌, [], true, IfOk, OnOk, length, map, position};
ghost use Rattle.std.specs.List.{AllByRecursion};
ghost use Rattle.mp_script.specs.Distinct.{IsDistinct};
ghost use Rattle.mp_legal.specs.Gathering.{AreVersions};
ghost use Rattle.mp_legal.specs.Inputs.{inputs_for};
ghost use Rattle.mp_legal.specs.ToldKeeper.{orders_in};
ghost use Rattle.mp_words.specs.declared.entry.KeepEntry.TheVariants as keep;
ghost use Rattle.mp_run.specs.Closing.{entries_of, requests_of, Gathers};
ghost use Rattle.mp_run.specs.Gathered.{first_entry};
ghost use Rattle.mp_run.specs.World.{IsWorld};

use crate::closed::close_all;
use crate::error::RunError;
use crate::first_words::opening;
use crate::opening::opening_order;
use crate::runner::Runner;
use crate::turns::lane_of;
use mp_desk::desk::Desk;
use mp_legal::gather::gather;
use mp_record::run::Run;
use mp_script::script::{LanePlan, Script, World};
use mp_words::entry::{Closing, KeepEntry, OrderEntry, RowEntry};
use mp_words::numbers::LaneId;
use mp_words::op::Maker;
use mp_words::order::Order;
use mp_words::request::Request;
use mp_words::row::Policy;
use std::alloc::Global;

/// The keeper's lane, where there is one.
fn keeper_of(plans: &[LanePlan]) -> Option<LaneId>
    requires { length plans.now ≤ 16 }
    ensures { result ≡ position (λ plan. plan.keeper) plans.now }
{
    for (place, plan) in plans.iter().enumerate() {
        if plan.keeper {
            return Some(lane_of(place));
        }
    }
    None
}

/// Adds an entry of the keeper's that is a list of paths.
fn push_order(all: &mut Vec<KeepEntry>, entry: &KeepEntry) -> Result<(), RunError>
    ensures { OnOk result (all.new.items ≡ all.old.items ++ map keep.Order (orders_in (entry.now ∷ []))) }
{
    // The proof of a push needs each type inside an entry named here.
    let _: (Option<Order>, Option<Policy>, Option<Maker>) = (None, None, None);
    let _: (Option<OrderEntry>, Option<Closing>) = (None, None);
    match entry {
        KeepEntry::Order(order) => all.push(KeepEntry::Order(*order))?,
        KeepEntry::Closing(_) => (),
    }
    Ok(())
}

/// The lists of paths of a run: that of the opening, and then those that were stored.
fn keeping(alloc: Global, order: Order, made: &[KeepEntry]) -> Result<Vec<KeepEntry>, RunError>
    ensures { IfOk result (λ all. all.items ≡ first_entry order ∷ map keep.Order (orders_in made.now)) }
{
    // The proof of a push needs each type inside an entry named here.
    let _: (Option<Order>, Option<Policy>, Option<Maker>) = (None, None, None);
    let _: Option<Closing> = None;
    let mut all = Vec::new(alloc);
    all.push(KeepEntry::Order(OrderEntry {
        order,
        by: Maker::Start,
    }))?;
    for entry in made {
        push_order(&mut all, entry)?;
    }
    Ok(all)
}

/// Requests that ended, those that wait, and those that ended in the drain.
fn requests_in(
    mut ended: Vec<Request>,
    mut waiting: Vec<Request>,
    mut drained: Vec<Request>,
) -> Result<Vec<Request>, RunError>
    ensures { IfOk result (λ all. all.items ≡ ended.items ++ (waiting.items ++ drained.items)) }
{
    waiting.append(&mut drained)?;
    ended.append(&mut waiting)?;
    Ok(ended)
}

/// The entries of rows that lanes made, and those of the drain.
fn entries_in(
    mut made: Vec<RowEntry>,
    mut drained: Vec<RowEntry>,
) -> Result<Vec<RowEntry>, RunError>
    ensures { IfOk result (λ all. all.items ≡ made.items ++ drained.items) }
{
    made.append(&mut drained)?;
    Ok(made)
}

/// The run of what lanes that are over, the drain, the list and the keeper leave.
pub fn gathered(
    alloc: Global,
    world: &World,
    script: &Script,
    runner: Runner,
) -> Result<Run, RunError>
    requires world { IsWorld world.now }
    requires lanes { length script.now.lanes ≤ 16 }
    requires over { AllByRecursion (λ v. v.over ≡ true) runner.lanes.items }
    requires versions { AreVersions (entries_of runner) }
    requires once { IsDistinct (map (λ r. r.id) (requests_of runner)) }
    ensures gathers { IfOk result (Gathers (inputs_for world.now script.now) script.now.lanes runner) }
{
    let Runner {
        plain: _,
        keeper,
        lanes,
        mut list,
        drain,
    } = runner;
    let Desk {
        flights: _,
        out: _,
        ended,
        notes,
        rows,
    } = drain;
    let closed = close_all(alloc, lanes)?;
    let Ok(drained) = notes.into_plain(alloc) else {
        return Err(RunError::NoMemory);
    };
    let requests = requests_in(closed.ended, list.take_all(), ended.into_vec())?;
    let entries = entries_in(closed.rows, rows.into_vec())?;
    let made = keeping(alloc, opening_order(&world.topology), keeper.entries())?;
    let words = opening(alloc, world)?;
    let lane = keeper_of(script.lanes.as_slice());
    match gather(
        alloc,
        world.topology.nsid,
        lane,
        &words,
        entries,
        made,
        closed.notes,
        drained,
        requests,
    ) {
        Ok(run) => Ok(run),
        Err(_) => Err(RunError::NoMemory),
    }
}
