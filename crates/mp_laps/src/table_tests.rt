//! What each call answers over a table: a removal waits for another lane's request, and the slot is given again.

ghost use Rattle.std.specs.Prelude.{◌≡◌, ◌≤◌, ◌∷◌, None, Some, true, replicate, IfOk};
ghost use Rattle.std.specs.List.{last_or};
ghost use Rattle.mp_words.specs.TwoPaths as listed;
ghost use Rattle.mp_words.specs.declared.trying.Outcome.TheVariants as outcome;
ghost use Rattle.mp_words.specs.Request.{outcome_of, asked_of};
ghost use Rattle.mp_core.specs.Views.{has_flight};
ghost use Rattle.mp_keep.specs.Keeper.{StandsTo, AtStart};
ghost use Rattle.mp_submit.specs.declared.submit.Submitted.TheVariants as submitted;
ghost use Rattle.mp_plain.specs.TwoPaths.{two_path_words};
ghost use Rattle.mp_rule.specs.Lawful.{opening_view};
ghost use Rattle.mp_table.specs.Passes.{table_of, keeper_home, keeper_view};
ghost use Rattle.mp_laps.specs.Tabled.{Goes, Comes};

use crate::bench::two_paths;
use crate::keeper_tests::{
    add, closes_at, flew, is_at, is_list, lists_at, reap, remove, two_listed, two_owners,
    was_freed, was_marked,
};
use mp_core::gate::NoGate;
use mp_core::steps::Steps;
use mp_keep::add_error::AddError;
use mp_keep::added::Added;
use mp_keep::keeper::Keeper;
use mp_keep::laws::a_new_keeper_stands;
use mp_keep::reaped::Reaped;
use mp_submit::finish::{Finished, finish};
use mp_submit::submit::{Submitted, submit};
use mp_table::error::TableError;
use mp_table::keeper_pass::KeeperPass;
use mp_table::on::On;
use mp_table::on_keeper::OnKeeper;
use mp_table::shared::Shared;
use mp_words::answers::Answers;
use mp_words::flight::Flight;
use mp_words::near::Near;
use mp_words::numbers::{Ctrl, LaneId, Node, ReqId};
use mp_words::request::Request;
use std::alloc::Global;
use std::process::Abort;
use std::test::Fail;

/// A table on the words of two paths.
pub(crate) fn table(alloc: Global) -> Result<(Shared, KeeperPass), TableError>
    ensures own { IfOk result (λ t. keeper_home t.1 ≡ table_of t.0) }
    ensures view { IfOk result (λ t. keeper_view t.1 ≡ opening_view (record { words = two_path_words; units = 200 })) }
{
    Shared::make(alloc, &two_paths(), 200)
}

/// The keeper of a table over which nobody has stepped yet.
fn keeper_of(alloc: Global, on: &OnKeeper) -> Keeper
    requires { AtStart listed.two_paths (Some 0 ∷ Some 1 ∷ replicate 13 None) (keeper_view on.now.pass) }
    ensures { StandsTo result (keeper_view on.now.pass) }
{
    a_new_keeper_stands();
    Keeper::make(alloc, two_listed(), two_owners())
}

/// Two nodes, with the first controller at the first and the second at the second.
fn two_nodes() -> Near {
    let mut distance = [[0; 8]; 8];
    distance[0][0] = 10;
    distance[0][1] = 20;
    distance[1][0] = 20;
    distance[1][1] = 10;
    let mut home = [None; 64];
    home[0] = Some(Node::make(0).unwrap());
    home[1] = Some(Node::make(1).unwrap());
    Near {
        nodes: 2,
        distance,
        home,
    }
}

/// Submits a request of a lane.
pub(crate) fn send<S: Steps>(steps: &mut S, request: &mut Request) -> Submitted
    requires left { 1 ≤ (S.core steps.old).view.left }
    requires closed { (S.core steps.old).view.inside ≡ None }
    requires spare { 1 ≤ request.old.spare }
    requires waiting { outcome_of (last_or None (asked_of request.old).tries) ≡ outcome.Waiting }
    ensures { Goes (S.core steps.old) (S.core steps.new) request.new result }
{
    submit(steps, &NoGate, &two_nodes(), request)
}

/// Finishes a lane's flight, and says whether its request is done with status 0.
pub(crate) fn is_done<S: Steps>(
    steps: &mut S,
    flight: Flight,
    request: &mut Request,
    answers: &Answers,
) -> bool
    requires left { 1 ≤ (S.core steps.old).view.left }
    requires closed { (S.core steps.old).view.inside ≡ None }
    requires flies { has_flight flight (S.core steps.old).view ≡ true }
    requires sent { outcome_of (last_or None (asked_of request.old).tries) ≡ outcome.Sent }
    ensures { result ≡ true → Comes flight (S.core steps.old) (S.core steps.new) }
{
    match finish(steps, &NoGate, flight, request, answers) {
        Finished::Done(status) => status == 0,
        Finished::Back(_) => false,
        Finished::Moved(flight, _, _) => {
            steps.end(flight);
            false
        }
    }
}

/// The flight of a request that was sent.
pub(crate) fn sent(rt: &impl Abort, end: Submitted) -> Flight
    ensures { end ≡ submitted.Sent result }
{
    match end {
        Submitted::Sent(flight) => flight,
        Submitted::Listed => panic!(rt; "listed"),
        Submitted::Failed => panic!(rt; "failed"),
    }
}

/// Whether slot 0 was given a path by a line, with this version of its row and this list of paths.
fn was_given(end: &Option<Result<Added, AddError>>, line: u32, row: u32, version: u32) -> bool {
    match end {
        Some(Ok(added)) => {
            added.row.slot.get() == 0
                && added.row.row.version == row
                && is_at(&added.row.by, line)
                && is_list(&added.order.order, version, false, &[1, 0])
        }
        _ => false,
    }
}

#[test]
fn a_removal_waits_for_another_lane(rt: HostRuntime) -> Result<(), Fail> {
    let alloc = rt.alloc();
    let first = Ctrl::make(0).unwrap();
    let answers = Answers::make(alloc);
    let mut request = Request::make(alloc, ReqId::make(0).unwrap(), Node::make(0).unwrap());
    request.reserve()?;
    let mut again = Request::make(alloc, ReqId::make(1).unwrap(), Node::make(0).unwrap());
    again.reserve()?;
    let (shared, mut pass) = table(alloc)?;
    let lane = shared.split(&mut pass, LaneId::make(0).unwrap(), 10);
    let mut lane = On::make(&shared, lane);
    let mut on = OnKeeper::make(&shared, pass, LaneId::make(1).unwrap());
    let mut keeper = keeper_of(alloc, &on);
    let flight = sent(&rt, send(&mut lane, &mut request));
    let old = (flight.slot.get(), flight.version);
    let marked = remove(&mut keeper, &mut on, first, 3);
    let stopped = reap(&mut keeper, &mut on, 4);
    let done = is_done(&mut lane, flight, &mut request, &answers);
    assert!(rt; done);
    let freed = reap(&mut keeper, &mut on, 6);
    let added = add(&mut keeper, &mut on, first, 7);
    let flight = sent(&rt, send(&mut lane, &mut again));
    let new = (flight.slot.get(), flight.version);
    let done = is_done(&mut lane, flight, &mut again, &answers);
    assert!(rt; done);
    let mut pass = on.pass();
    shared.join(&mut pass, lane.pass());
    let words = shared.close(pass);
    assert!(rt; old.0 == 0 && old.1 == 0);
    assert!(rt; was_marked(&marked, 3, 0, 1));
    assert!(rt; flew(&stopped, 0, 1));
    assert!(rt; was_freed(&freed, 6, 0, 2, 2));
    assert!(rt; was_given(&added, 7, 3, 2));
    assert!(rt; new.0 == 0 && new.1 == 3);
    assert_eq!(rt; words.index, 0);
    assert_eq!(rt; words.rows[0], 0x0000_4240_0000_0003);
    assert_eq!(rt; words.order, 0xFFFF_FF01_0000_0002);
    assert_eq!(rt; words.depths[0], 0);
    let made = keeper.entries();
    assert_eq!(rt; made.len(), 6);
    assert!(rt; closes_at(made, 0, 4, true, 1, 0, 0));
    assert!(rt; closes_at(made, 1, 4, true, 0, 1, 0));
    assert!(rt; lists_at(made, 2, 4, 1, false, &[1]));
    assert!(rt; closes_at(made, 3, 4, false, 0, 1, 1));
    assert!(rt; closes_at(made, 4, 4, false, 1, 0, 1));
    assert!(rt; lists_at(made, 5, 7, 2, false, &[1, 0]));
    Ok(())
}
