//! Which steps each call makes, one after another, and that it makes no others: a submit and a finish over a table, and
//! the other calls over plain memory.

ghost use Rattle.std.specs.Prelude.{◌≡◌, ◌∷◌, [], None, Some};
ghost use Rattle.mp_table.specs.Passes.{view_of};

use crate::bench::{one_node, two_paths};
use crate::counted::Counted;
use crate::counted::Kind::{
    self, ChangeRow, ClearCurrent, Current, EmptyCurrent, End, Enter, FlightRow, Flip, Index,
    KeepRow, KeeperDepth, KeeperRow, Leave, Order, Row, Scan, Send, StoreCurrent, StoreOrder,
};
use crate::keeper_tests::{add, go_round, keeper_of, reap, remove};
use crate::lap::one_lap;
use crate::table_tests::{is_done, send, sent, table};
use crate::tests::go;
use mp_core::gate::NoGate;
use mp_plain::plain::Plain;
use mp_table::on::On;
use mp_words::answers::Answers;
use mp_words::numbers::{Ctrl, LaneId, Node, ReqId};
use mp_words::request::Request;
use mp_words::row::CState;
use mp_words::trying::Outcome;
use std::test::Fail;

/// A submit under NUMA to one of two paths that are listed.
const SUBMIT: [Kind; 7] = [Index, Enter, Order, Row, Row, Send, Leave];

/// Current words that are cleared of a slot.
const CLEARS: [Kind; 8] = [ClearCurrent; 8];

/// Current words that are emptied by the keeper.
const EMPTIES: [Kind; 8] = [EmptyCurrent; 8];

#[test]
fn a_submit_and_a_finish_over_the_table(rt: HostRuntime) -> Result<(), Fail> {
    let alloc = rt.alloc();
    let answers = Answers::make(alloc);
    let mut request = Request::make(alloc, ReqId::make(0).unwrap(), Node::make(0).unwrap());
    request.reserve()?;
    let (shared, mut pass) = table(alloc)?;
    let lane = shared.split(&mut pass, LaneId::make(0).unwrap(), 10);
    let lane = On::make(&shared, lane);
    let mut steps = Counted::of(lane);
    let flight = sent(&rt, send(&mut steps, &mut request));
    let done = is_done(&mut steps, flight, &mut request, &answers);
    assert!(rt; done);
    let submitted = steps.next(&SUBMIT);
    let ended = steps.next(&[End]);
    let all = steps.no_more();
    let lane = steps.steps();
    shared.join(&mut pass, lane.pass());
    shared.close(pass);
    assert!(rt; submitted && ended && all);
    Ok(())
}

#[test]
fn a_submit_under_round_robin(rt: HostRuntime) -> Result<(), Fail> {
    let alloc = rt.alloc();
    let plain = Plain::make(alloc, &two_paths(), 100)?;
    let mut keeper = keeper_of(alloc, &plain);
    let mut steps = Counted::of(plain);
    go_round(&mut keeper, &mut steps, 1);
    assert!(rt; steps.next(&[StoreOrder]) && steps.next(&EMPTIES) && steps.no_more());
    let answers = Answers::make(alloc);
    let mut request = Request::make(alloc, ReqId::make(7).unwrap(), Node::make(0).unwrap());
    request.reserve()?;
    one_lap(&mut steps, &NoGate, &one_node(), &mut request, &answers);
    assert!(rt;
        steps.next(&[
            Index,
            Enter,
            Order,
            Current,
            Row,
            Row,
            StoreCurrent,
            Send,
            Leave
        ])
    );
    assert!(rt; steps.next(&[End]) && steps.no_more());
    Ok(())
}

#[test]
fn a_failover(rt: HostRuntime) -> Result<(), Fail> {
    let alloc = rt.alloc();
    let mut steps = Counted::of(Plain::make(alloc, &two_paths(), 100)?);
    let mut answers = Answers::make(alloc);
    let id = ReqId::make(7).unwrap();
    answers.add(id, 1, 0x0302)?;
    answers.add(id, 2, 0x0370)?;
    let mut request = Request::make(alloc, id, Node::make(0).unwrap());
    request.reserve()?;
    // By an ANA status the flight's row is read.
    one_lap(&mut steps, &NoGate, &one_node(), &mut request, &answers);
    assert!(rt; steps.next(&SUBMIT));
    assert!(rt; steps.next(&[Index, Enter, FlightRow]) && steps.next(&CLEARS));
    assert!(rt; steps.next(&[Leave, End]) && steps.no_more());
    if matches!(request.outcome(), Outcome::Waiting) {
        request.reserve()?;
        // By another one it isn't.
        one_lap(&mut steps, &NoGate, &one_node(), &mut request, &answers);
        assert!(rt; steps.next(&SUBMIT));
        assert!(rt; steps.next(&[Index, Enter]) && steps.next(&CLEARS));
        assert!(rt; steps.next(&[Leave, End]) && steps.no_more());
    }
    assert!(rt; matches!(request.outcome(), Outcome::Waiting));
    Ok(())
}

#[test]
fn a_change_that_does_nothing(rt: HostRuntime) -> Result<(), Fail> {
    let alloc = rt.alloc();
    let mut steps = Counted::of(Plain::make(alloc, &two_paths(), 100)?);
    // No path has the controller.
    go(&mut steps, Ctrl::make(2).unwrap(), CState::Resetting);
    assert!(rt; steps.next(&[Index, Enter, Order, Row, Row, Leave]) && steps.no_more());
    // The change is refused.
    go(&mut steps, Ctrl::make(1).unwrap(), CState::Connecting);
    assert!(rt; steps.next(&[Index, Enter, Order, Row, Row, Leave]) && steps.no_more());
    Ok(())
}

#[test]
fn a_change_of_a_row(rt: HostRuntime) -> Result<(), Fail> {
    let alloc = rt.alloc();
    let mut steps = Counted::of(Plain::make(alloc, &two_paths(), 100)?);
    let first = Ctrl::make(0).unwrap();
    // The path is no longer usable.
    go(&mut steps, first, CState::Resetting);
    assert!(rt; steps.next(&[Index, Enter, Order, Row, ChangeRow]) && steps.next(&CLEARS));
    assert!(rt; steps.next(&[Leave]) && steps.no_more());
    go(&mut steps, first, CState::Connecting);
    assert!(rt; steps.next(&[Index, Enter, Order, Row, ChangeRow]) && steps.next(&CLEARS));
    assert!(rt; steps.next(&[Leave]) && steps.no_more());
    // The path is usable again, and optimized.
    go(&mut steps, first, CState::Live);
    assert!(rt; steps.next(&[Index, Enter, Order, Row, ChangeRow]));
    assert!(rt; steps.next(&[StoreCurrent; 8]) && steps.next(&[Leave]) && steps.no_more());
    Ok(())
}

#[test]
fn the_policy_is_set(rt: HostRuntime) -> Result<(), Fail> {
    let alloc = rt.alloc();
    let plain = Plain::make(alloc, &two_paths(), 100)?;
    let mut keeper = keeper_of(alloc, &plain);
    let mut steps = Counted::of(plain);
    go_round(&mut keeper, &mut steps, 1);
    assert!(rt; steps.next(&[StoreOrder]) && steps.next(&EMPTIES) && steps.no_more());
    Ok(())
}

#[test]
fn a_path_is_added(rt: HostRuntime) -> Result<(), Fail> {
    let alloc = rt.alloc();
    let plain = Plain::make(alloc, &two_paths(), 100)?;
    let mut keeper = keeper_of(alloc, &plain);
    let mut steps = Counted::of(plain);
    // A path that is optimized may be better than each current one.
    add(&mut keeper, &mut steps, Ctrl::make(2).unwrap(), 1);
    assert!(rt; steps.next(&[KeeperRow, KeepRow, StoreOrder]));
    assert!(rt; steps.next(&EMPTIES) && steps.no_more());
    Ok(())
}

#[test]
fn a_path_is_removed(rt: HostRuntime) -> Result<(), Fail> {
    let alloc = rt.alloc();
    let plain = Plain::make(alloc, &two_paths(), 100)?;
    let mut keeper = keeper_of(alloc, &plain);
    let mut steps = Counted::of(plain);
    remove(&mut keeper, &mut steps, Ctrl::make(0).unwrap(), 1);
    reap(&mut keeper, &mut steps, 2);
    assert!(rt; steps.next(&[KeeperRow, KeepRow]));
    assert!(rt; steps.next(&[Scan, Flip, Scan]) && steps.next(&CLEARS));
    assert!(rt; steps.next(&[StoreOrder, Scan, Flip, Scan]));
    assert!(rt; steps.next(&[KeeperDepth, KeeperRow, KeepRow]) && steps.no_more());
    Ok(())
}

#[test]
fn a_refusal_makes_no_step(rt: HostRuntime) -> Result<(), Fail> {
    let alloc = rt.alloc();
    let plain = Plain::make(alloc, &two_paths(), 100)?;
    let mut keeper = keeper_of(alloc, &plain);
    let mut steps = Counted::of(plain);
    // The first controller has a path, the third has none, and no removal is under way.
    add(&mut keeper, &mut steps, Ctrl::make(0).unwrap(), 1);
    remove(&mut keeper, &mut steps, Ctrl::make(2).unwrap(), 2);
    reap(&mut keeper, &mut steps, 3);
    assert!(rt; steps.no_more());
    Ok(())
}
