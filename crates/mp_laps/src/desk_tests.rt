//! What the calls of a desk answer over the words of two paths, what they note, and what stands in the words afterwards.

ghost use Rattle.std.specs.Prelude.{◌≡◌, ◌<◌, [], IfOk, None};
ghost use Rattle.std.specs.List.{AllByRecursion};
ghost use Rattle.mp_words.specs.Effect.{IsState};
ghost use Rattle.mp_desk.specs.Calls.{IsWaiting, Sits};
ghost use Rattle.mp_desk.specs.Desks.{desk_of};
ghost use Rattle.mp_plain.specs.Told.{told_core, core_begun};
ghost use Rattle.mp_plain.specs.TwoPaths.{two_path_words};
ghost use Rattle.mp_laps.specs.Lanes.{IsKept};

use crate::bench::{one_node, two_paths};
use crate::keeper_tests::keeper_of;
use crate::telling::told;
use mp_core::gate::NoGate;
use mp_core::steps::Steps;
use mp_desk::desk::Desk;
use mp_desk::noted::Noted;
use mp_keep::keeper::Keeper;
use mp_plain::plain::Plain;
use mp_record::event::Said;
use mp_words::answers::Answers;
use mp_words::numbers::{Ctrl, Node, ReqId};
use mp_words::op::{Gift, Op};
use mp_words::request::Request;
use mp_words::row::{CState, Policy};
use std::alloc::{AllocError, Global};
use std::mem;
use std::test::Fail;

/// An empty desk, at which a pass sits that has made no step yet. It keeps the sections that it notes, or doesn't.
fn desk_at(alloc: Global, plain: &Plain, keeps: bool) -> Desk
    requires closed { (told_core plain.now).view.inside ≡ None }
    requires flights { (told_core plain.now).view.flights ≡ [] }
    ensures { Sits (told_core plain.now) (desk_of result) }
{
    Desk::make(alloc, keeps)
}

/// An empty desk, and the keeper of the words of two paths, over which nobody has stepped yet.
fn office(alloc: Global, plain: &Plain) -> (Desk, Keeper)
    requires { told_core plain.now ≡ core_begun (told_core plain.now).home (record { words = two_path_words; allowance = 100 }) }
    ensures { IsKept (desk_of result.0) result.1 (told_core plain.now) }
{
    (desk_at(alloc, plain, true), keeper_of(alloc, plain))
}

/// What a desk noted, told line by line. It is taken from the desk.
fn noted(alloc: Global, desk: &mut Desk) -> Result<String, AllocError> {
    let notes = mem::replace(&mut desk.notes, Noted::make(alloc, true));
    told(alloc, &notes.into_kept())
}

/// A new request.
fn new_request(alloc: Global, number: u32) -> Request
    requires { number < 65536 }
    ensures { IsWaiting result }
{
    Request::make(alloc, ReqId::make(number).unwrap(), Node::make(0).unwrap())
}

/// Two new requests, which may have the same number.
fn two_requests(alloc: Global, first: u32, second: u32) -> Result<Vec<Request>, AllocError>
    requires first { first < 65536 }
    requires second { second < 65536 }
    ensures { IfOk result (λ made. AllByRecursion IsWaiting made.items) }
{
    let mut made = Vec::new(alloc);
    made.push(new_request(alloc, first))?;
    made.push(new_request(alloc, second))?;
    Ok(made)
}

/// What a path of a controller begins with that is optimized.
fn gift(ctrl: u32, ana: bool) -> Gift
    requires { ctrl < 64 }
    ensures { IsState result.state }
{
    Gift {
        ctrl: Ctrl::make(ctrl).unwrap(),
        ana,
        state: 1,
        pending: false,
        armed: false,
    }
}

/// Adds a path. Answers whether it was told what came of it.
fn add(desk: &mut Desk, plain: &mut Plain, keeper: &mut Keeper, line: u32, gift: Gift) -> bool
    requires kept { IsKept (desk_of desk.old) keeper.old (told_core plain.old) }
    requires state { IsState gift.state }
    ensures { IsKept (desk_of desk.new) keeper.new (told_core plain.new) }
{
    desk.add(plain, keeper, line, gift).is_ok()
}

/// Begins the removal of a controller's path. Answers whether it was told what came of it.
fn remove(desk: &mut Desk, plain: &mut Plain, keeper: &mut Keeper, line: u32, ctrl: Ctrl) -> bool
    requires { IsKept (desk_of desk.old) keeper.old (told_core plain.old) }
    ensures { IsKept (desk_of desk.new) keeper.new (told_core plain.new) }
{
    desk.remove(plain, keeper, line, ctrl).is_ok()
}

/// Carries the removals on. Answers whether it was told what came of it.
fn reap(desk: &mut Desk, plain: &mut Plain, keeper: &mut Keeper, line: u32) -> bool
    requires { IsKept (desk_of desk.old) keeper.old (told_core plain.old) }
    ensures { IsKept (desk_of desk.new) keeper.new (told_core plain.new) }
{
    desk.reap(plain, keeper, line).is_ok()
}

/// Sets the policy. Answers whether it was told what came of it.
fn set_policy(
    desk: &mut Desk,
    plain: &mut Plain,
    keeper: &mut Keeper,
    line: u32,
    policy: Policy,
) -> bool
    requires { IsKept (desk_of desk.old) keeper.old (told_core plain.old) }
    ensures { IsKept (desk_of desk.new) keeper.new (told_core plain.new) }
{
    desk.set_policy(plain, keeper, line, policy).is_ok()
}

/// Resets a controller. Answers whether it was told what came of it.
fn reset(desk: &mut Desk, plain: &mut Plain, line: u32, ctrl: Ctrl) -> bool
    requires { Sits (told_core plain.old) (desk_of desk.old) }
    ensures { Sits (told_core plain.new) (desk_of desk.new) }
{
    desk.change(plain, &NoGate, line, ctrl, &Op::Ctrl(CState::Resetting))
        .is_ok()
}

/// Submits a request on the one node. Answers whether the try was made.
fn send(desk: &mut Desk, plain: &mut Plain, request: Request) -> bool
    requires sits { Sits (told_core plain.old) (desk_of desk.old) }
    requires waiting { IsWaiting request }
    ensures { Sits (told_core plain.new) (desk_of desk.new) }
{
    desk.submit(plain, &NoGate, &one_node(), request).is_ok()
}

/// Submits requests on the one node. Answers whether all the tries were made.
fn send_each(desk: &mut Desk, plain: &mut Plain, requests: Vec<Request>) -> bool
    requires sits { Sits (told_core plain.old) (desk_of desk.old) }
    requires waiting { AllByRecursion IsWaiting requests.items }
    ensures { Sits (told_core plain.new) (desk_of desk.new) }
{
    desk.submit_each(plain, &NoGate, &one_node(), requests)
        .is_ok()
}

/// Ends the flights of a number, or all. Answers whether all were ended by their statuses.
fn end(desk: &mut Desk, plain: &mut Plain, answers: &Answers, named: &Option<ReqId>) -> bool
    requires { Sits (told_core plain.old) (desk_of desk.old) }
    ensures { Sits (told_core plain.new) (desk_of desk.new) }
{
    desk.finish(plain, &NoGate, answers, named).is_ok()
}

#[test]
fn the_keepers_calls_are_noted(rt: HostRuntime) -> Result<(), Fail> {
    let alloc = rt.alloc();
    let mut plain = Plain::make(alloc, &two_paths(), 100)?;
    let (mut desk, mut keeper) = office(alloc, &plain);
    let first = Ctrl::make(0).unwrap();
    let robin = Policy::RoundRobin;
    assert!(rt; set_policy(&mut desk, &mut plain, &mut keeper, 1, robin));
    assert!(rt; add(&mut desk, &mut plain, &mut keeper, 2, gift(2, false)));
    assert!(rt; add(&mut desk, &mut plain, &mut keeper, 3, gift(2, false)));
    assert!(rt; remove(&mut desk, &mut plain, &mut keeper, 4, first));
    assert!(rt; remove(&mut desk, &mut plain, &mut keeper, 5, first));
    assert!(rt; reap(&mut desk, &mut plain, &mut keeper, 6));
    assert!(rt; reap(&mut desk, &mut plain, &mut keeper, 7));
    let want = "at 1 policy 1\nat 2 added 2 1 2\nat 3 already 2\nat 4 marked 0 1\n\
        at 5 no-path 2\nat 6 freed 0 2 2\nat 7 idle\n";
    assert_eq!(rt; noted(alloc, &mut desk)?.as_str(), want);
    let rows = desk.rows.into_vec();
    assert_eq!(rt; rows.len(), 3);
    Ok(())
}

#[test]
fn a_failover_sets_pending(rt: HostRuntime) -> Result<(), Fail> {
    let alloc = rt.alloc();
    let mut plain = Plain::make(alloc, &two_paths(), 100)?;
    let (mut desk, mut keeper) = office(alloc, &plain);
    let mut answers = Answers::make(alloc);
    let id = ReqId::make(7).unwrap();
    answers.add(id, 1, 0x0302)?;
    assert!(rt; add(&mut desk, &mut plain, &mut keeper, 1, gift(2, true)));
    assert!(rt; reset(&mut desk, &mut plain, 2, Ctrl::make(0).unwrap()));
    assert!(rt; reset(&mut desk, &mut plain, 3, Ctrl::make(1).unwrap()));
    assert!(rt; send(&mut desk, &mut plain, new_request(alloc, 7)));
    assert_eq!(rt; plain.words().depths[2], 1);
    assert!(rt; end(&mut desk, &mut plain, &answers, &Some(id)));
    assert_eq!(rt; plain.words().depths[2], 0);
    // Two units for the add, one for each change, and one each for the submit and for the failover.
    assert_eq!(rt; plain.left(), 94);
    let want = "at 1 added 2 1 1\nsec 0 0\nat 2 changed 0 1\nsec 0 1\nat 3 changed 1 1\n\
        sec 0 2\ntry 7 1 sent 2 1\nsec 0 3\nfin 7 1 1 0302 back 2:2\n";
    assert_eq!(rt; noted(alloc, &mut desk)?.as_str(), want);
    assert_eq!(rt; desk.out.as_slice().len(), 1);
    assert_eq!(rt; desk.ended.as_slice().len(), 0);
    let rows = desk.rows.into_vec();
    assert_eq!(rt; rows.len(), 4);
    if rows.len() == 4 {
        assert_eq!(rt; rows[3].slot.get(), 2);
        assert_eq!(rt; rows[3].row.version, 2);
        assert!(rt; rows[3].row.pending);
    }
    Ok(())
}

#[test]
fn a_desk_keeps_no_section(rt: HostRuntime) -> Result<(), Fail> {
    let alloc = rt.alloc();
    let mut plain = Plain::make(alloc, &two_paths(), 100)?;
    let mut desk = desk_at(alloc, &plain, false);
    let answers = Answers::make(alloc);
    assert!(rt; send(&mut desk, &mut plain, new_request(alloc, 7)));
    assert!(rt; end(&mut desk, &mut plain, &answers, &None));
    let want = "try 7 1 sent 0 0\nfin 7 1 1 0000 done\n";
    assert_eq!(rt; noted(alloc, &mut desk)?.as_str(), want);
    Ok(())
}

#[test]
fn a_number_flies_twice(rt: HostRuntime) -> Result<(), Fail> {
    let alloc = rt.alloc();
    let mut plain = Plain::make(alloc, &two_paths(), 100)?;
    let mut desk = desk_at(alloc, &plain, true);
    let mut answers = Answers::make(alloc);
    let id = ReqId::make(7).unwrap();
    answers.add(id, 1, 0x4302)?;
    assert!(rt; desk.reserve().is_ok());
    assert!(rt; desk.say(2, Said::Requeue(2)).is_ok());
    let requests = two_requests(alloc, 7, 7)?;
    assert!(rt; send_each(&mut desk, &mut plain, requests));
    assert!(rt; send(&mut desk, &mut plain, new_request(alloc, 6)));
    assert_eq!(rt; desk.flights.count(&Some(id)), 2);
    assert!(rt; end(&mut desk, &mut plain, &answers, &Some(id)));
    assert_eq!(rt; desk.flights.count(&Some(id)), 0);
    assert_eq!(rt; desk.flights.count(&None), 1);
    assert!(rt; end(&mut desk, &mut plain, &answers, &None));
    assert_eq!(rt; plain.words().depths[0], 0);
    assert_eq!(rt; plain.left(), 97);
    let want = "at 2 requeue 2\nsec 0 0\ntry 7 1 sent 0 0\nsec 0 1\ntry 7 1 sent 0 0\n\
        sec 0 2\ntry 6 1 sent 0 0\nfin 7 1 1 4302 done\nfin 7 1 1 4302 done\nfin 6 1 1 0000 done\n";
    assert_eq!(rt; noted(alloc, &mut desk)?.as_str(), want);
    assert_eq!(rt; desk.ended.as_slice().len(), 3);
    assert_eq!(rt; desk.out.as_slice().len(), 0);
    Ok(())
}
