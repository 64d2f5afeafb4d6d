//! What each call answers over the words of two paths, and what stands there afterwards.

ghost use Rattle.std.specs.Prelude.{◌≡◌, ◌≤◌, ◌+◌, None};
ghost use Rattle.mp_plain.specs.Told.{told_core};

use crate::bench::{bench, one_node, two_paths};
use crate::lap::{LapEnd, one_lap};
use mp_change::change::{ChangeEnd, Changing, change};
use mp_core::gate::{Gate, NoGate};
use mp_core::steps::Steps;
use mp_plain::plain::Plain;
use mp_words::answers::Answers;
use mp_words::numbers::{Ctrl, LaneId, Node, ReqId};
use mp_words::op::{Maker, Op};
use mp_words::request::Request;
use mp_words::row::CState;
use mp_words::trying::{Back, Outcome, TryEnd};
use std::sync::atomic::{AtomicU32, Ordering};
use std::test::Fail;

#[test]
fn each_lap_is_done(rt: HostRuntime) -> Result<(), Fail> {
    match bench(rt.alloc(), 1000) {
        Ok(told) => {
            assert_eq!(rt; told.done, 1000);
            assert_eq!(rt; told.side, 1000 << 32);
            assert_eq!(rt; told.depth, 0);
        }
        Err(_) => assert!(rt; false),
    }
    Ok(())
}

#[test]
fn a_request_comes_back_and_is_done(rt: HostRuntime) -> Result<(), Fail> {
    let alloc = rt.alloc();
    let mut plain = Plain::make(alloc, &two_paths(), 100)?;
    let mut answers = Answers::make(alloc);
    let id = ReqId::make(7).unwrap();
    answers.add(id, 1, 0x0006)?;
    answers.add(id, 2, 0x0302)?;
    let mut request = Request::make(alloc, id, Node::make(0).unwrap());
    request.reserve()?;
    let first = one_lap(&mut plain, &NoGate, &one_node(), &mut request, &answers);
    assert!(rt; matches!(first, LapEnd::Back));
    assert_eq!(rt; plain.words().sides[0], 2 << 32);
    assert_eq!(rt; plain.words().depths[0], 0);
    assert_eq!(rt; plain.words().rows[0], 0x0000_4240_0000_0000);
    assert_eq!(rt; request.attempts(), 2);
    if matches!(request.outcome(), Outcome::Waiting) {
        request.reserve()?;
        let second = one_lap(&mut plain, &NoGate, &one_node(), &mut request, &answers);
        assert!(rt; matches!(second, LapEnd::Done(0)));
    }
    assert_eq!(rt; plain.words().sides[0], 3 << 32);
    assert_eq!(rt; plain.words().depths[0], 0);
    assert!(rt; matches!(request.outcome(), Outcome::Done(0)));
    let tries = request.tries();
    assert_eq!(rt; tries.len(), 2);
    if tries.len() == 2 {
        let first = tries.at(0);
        assert_eq!(rt; first.count, 2);
        assert_eq!(rt; first.statuses[0], 0x0006);
        assert_eq!(rt; first.statuses[1], 0x0302);
        assert!(rt; matches!(first.back, Some(Back::Unset)));
        assert!(rt; matches!(tries.end_at(0), TryEnd::Sent(_, 0)));
        let second = tries.at(1);
        assert_eq!(rt; second.hop, 2);
        assert_eq!(rt; tries.count_at(1), 1);
        assert_eq!(rt; second.statuses[0], 0);
        assert!(rt; second.back.is_none());
    }
    Ok(())
}

/// The slot that the first try of a request was sent to, or 15.
fn sent_to(request: &Request) -> u32 {
    let tries = request.tries();
    if tries.len() == 0 {
        return 15;
    }
    match tries.end_at(0) {
        TryEnd::Sent(slot, _) => slot.get(),
        _ => 15,
    }
}

/// The controller goes to a state, by a line of lane 0.
pub(crate) fn go<S: Steps>(steps: &mut S, ctrl: Ctrl, to: CState) -> ChangeEnd
    requires left { 1 ≤ (S.core steps.old).view.left }
    requires closed { (S.core steps.old).view.inside ≡ None }
    ensures left { (S.core steps.old).view.left ≡ (S.core steps.new).view.left + 1 }
    ensures closed { (S.core steps.new).view.inside ≡ None }
{
    let by = Maker::Line {
        lane: LaneId::make(0).unwrap(),
        line: 1,
    };
    let Changing { end, note: _ } = change(steps, &NoGate, ctrl, Op::Ctrl(to), by);
    end
}

/// Both controllers go to a state, and each path is changed.
fn both_go(plain: &mut Plain, to: CState) -> bool
    requires left { 2 ≤ (told_core plain.old).view.left }
    requires closed { (told_core plain.old).view.inside ≡ None }
    ensures left { (told_core plain.old).view.left ≡ (told_core plain.new).view.left + 2 }
    ensures closed { (told_core plain.new).view.inside ≡ None }
{
    let first = go(plain, Ctrl::make(0).unwrap(), to);
    let second = go(plain, Ctrl::make(1).unwrap(), to);
    matches!(first, ChangeEnd::Changed(_)) && matches!(second, ChangeEnd::Changed(_))
}

#[test]
fn a_path_is_changed_and_passed_over(rt: HostRuntime) -> Result<(), Fail> {
    let alloc = rt.alloc();
    let mut plain = Plain::make(alloc, &two_paths(), 100)?;
    let none = go(&mut plain, Ctrl::make(2).unwrap(), CState::Resetting);
    assert!(rt; matches!(none, ChangeEnd::NoPath(_)));
    let refused = go(&mut plain, Ctrl::make(1).unwrap(), CState::Connecting);
    assert!(rt; matches!(refused, ChangeEnd::Refused(_, _)));
    let changed = go(&mut plain, Ctrl::make(0).unwrap(), CState::Resetting);
    assert!(rt; matches!(changed, ChangeEnd::Changed(_)));
    assert_eq!(rt; plain.words().rows[0], 0x0000_4280_0000_0001);
    assert_eq!(rt; plain.words().rows[1], 0x0000_4241_0000_0000);
    let mut request = Request::make(alloc, ReqId::make(1).unwrap(), Node::make(0).unwrap());
    request.reserve()?;
    let answers = Answers::make(alloc);
    let end = one_lap(&mut plain, &NoGate, &one_node(), &mut request, &answers);
    assert!(rt; matches!(end, LapEnd::Done(0)));
    assert_eq!(rt; sent_to(&request), 1);
    Ok(())
}

#[test]
fn a_request_is_listed_or_failed(rt: HostRuntime) -> Result<(), Fail> {
    let alloc = rt.alloc();
    let mut plain = Plain::make(alloc, &two_paths(), 100)?;
    let answers = Answers::make(alloc);
    assert!(rt; both_go(&mut plain, CState::Resetting));
    let mut listed = Request::make(alloc, ReqId::make(2).unwrap(), Node::make(0).unwrap());
    listed.reserve()?;
    one_lap(&mut plain, &NoGate, &one_node(), &mut listed, &answers);
    assert!(rt; matches!(listed.outcome(), Outcome::Waiting));
    assert!(rt; both_go(&mut plain, CState::Deleting));
    assert!(rt; both_go(&mut plain, CState::DeletingNoio));
    assert_eq!(rt; plain.words().rows[1], 0x0000_4341_0000_0003);
    let mut failed = Request::make(alloc, ReqId::make(3).unwrap(), Node::make(0).unwrap());
    failed.reserve()?;
    one_lap(&mut plain, &NoGate, &one_node(), &mut failed, &answers);
    assert!(rt; matches!(failed.outcome(), Outcome::Failed));
    assert_eq!(rt; plain.words().sides[0], 8 << 32);
    Ok(())
}

/// A gate that counts the sections that called it.
#[derive(Drop)]
struct Counting {
    sections: AtomicU32,
}

impl Gate for Counting {
    fn line(&self, _lane: LaneId, _line: u32) {}

    fn inside(&self, _lane: LaneId) {
        self.sections.fetch_add(1, Ordering::SeqCst);
    }
}

#[test]
fn each_section_calls_the_gate_once(rt: HostRuntime) -> Result<(), Fail> {
    let alloc = rt.alloc();
    let gate = Counting {
        sections: AtomicU32::new(0),
    };
    let mut plain = Plain::make(alloc, &two_paths(), 100)?;
    let mut answers = Answers::make(alloc);
    let id = ReqId::make(7).unwrap();
    answers.add(id, 1, 0x0302)?;
    answers.add(id, 2, 0x0370)?;
    let mut request = Request::make(alloc, id, Node::make(0).unwrap());
    request.reserve()?;
    // A submit, and a failover by an ANA status.
    one_lap(&mut plain, &gate, &one_node(), &mut request, &answers);
    assert_eq!(rt; gate.sections.load(Ordering::SeqCst), 2);
    if matches!(request.outcome(), Outcome::Waiting) {
        request.reserve()?;
        // And one by another status.
        one_lap(&mut plain, &gate, &one_node(), &mut request, &answers);
        assert_eq!(rt; gate.sections.load(Ordering::SeqCst), 4);
        if matches!(request.outcome(), Outcome::Waiting) {
            request.reserve()?;
            // A finish that completes has no section.
            one_lap(&mut plain, &gate, &one_node(), &mut request, &answers);
            assert_eq!(rt; gate.sections.load(Ordering::SeqCst), 5);
            let by = Maker::Line {
                lane: LaneId::make(0).unwrap(),
                line: 1,
            };
            change(&mut plain, &gate, Ctrl::make(0).unwrap(), Op::Expire, by);
        }
    }
    assert!(rt; matches!(request.outcome(), Outcome::Done(0)));
    assert_eq!(rt; gate.sections.load(Ordering::SeqCst), 6);
    assert_eq!(rt; plain.words().sides[0], 6 << 32);
    Ok(())
}
