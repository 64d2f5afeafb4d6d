//! Worked words, and each call that takes memory where it succeeds.

ghost use Rattle.std.specs.Prelude.{◌≡◌, None};
ghost use Rattle.mp_words.specs.TwoPaths.{first_path};
ghost use Rattle.mp_words.specs.declared.trying.TryEnd.TheVariants.{Listed, Sent};

use crate::answers::Answers;
use crate::effect::free_row;
use crate::names::put_state;
use crate::note::Note;
use crate::numbers::{Ctrl, LaneId, Node, ReqId, Slot};
use crate::order::Order;
use crate::reading::Reading;
use crate::request::Request;
use crate::row::{CState, Row};
use crate::states::OPTIMIZED;
use crate::status::{put_status, status_in};
use crate::trying::{Outcome, Try, TryEnd};
use crate::words::Side;
use std::test::Fail;

/// The row of a live, optimized and ready path.
fn path(ctrl: Ctrl) -> Row
    ensures { result ≡ record first_path { ctrl = ctrl } }
{
    Row {
        version: 0,
        ctrl,
        cstate: CState::Live,
        state: OPTIMIZED,
        pending: false,
        ready: true,
        armed: false,
        marked: false,
        ana: false,
    }
}

#[test]
fn rows_have_their_words(rt: HostRuntime) {
    let (first, second) = (Ctrl::make(0).unwrap(), Ctrl::make(1).unwrap());
    assert_eq!(rt; path(first).pack(), 0x0000_4240_0000_0000);
    assert_eq!(rt; path(second).pack(), 0x0000_4241_0000_0000);
    match Row::unpack(0x0000_4241_0000_0000) {
        Some(row) => assert_eq!(rt; row.ctrl.get(), 1),
        None => assert!(rt; false),
    }
    assert!(rt; Row::unpack(0x0004_0000_0000_0000).is_none());
}

#[test]
fn orders_have_their_words(rt: HostRuntime) {
    match Order::unpack(0xFFFF_FF10_0000_0000) {
        Some(order) => {
            assert_eq!(rt; (order.version, order.len), (0, 2));
            assert_eq!(rt; (order.slots[0].get(), order.slots[1].get()), (0, 1));
            assert_eq!(rt; order.pack(), 0xFFFF_FF10_0000_0000);
        }
        None => assert!(rt; false),
    }
    assert!(rt; Order::unpack(0xFFFF_FF00_0000_0000).is_none());
}

#[test]
fn sides_have_their_words(rt: HostRuntime) {
    let side = Side {
        entries: 1,
        inside: 1,
    };
    assert_eq!(rt; side.pack(), 0x0000_0001_0000_0001);
    assert_eq!(rt; Side::unpack(0x0000_0001_0000_0000).inside, 0);
}

#[test]
fn states_and_statuses_are_written(rt: HostRuntime) -> Result<(), Fail> {
    let mut text = String::new(rt.alloc());
    for state in [1, 2, 3, 4, 15, 9] {
        put_state(&mut text, state)?;
        text.push_str(" ")?;
    }
    for status in [0, 0x2C5, 0x7FFF] {
        put_status(&mut text, status)?;
        text.push_str(" ")?;
    }
    assert_eq!(rt;
        text.as_str(),
        "optimized non-optimized inaccessible persistent-loss change reserved-9 0000 02C5 7FFF "
    );
    assert_eq!(rt; status_in(b"02c5"), Some(0x2C5));
    assert_eq!(rt; status_in(b"2C5"), None);
    Ok(())
}

/// A try that was sent, whose attempts are still to come.
fn sent(hop: u32) -> Try
    ensures hop { result.hop ≡ hop }
    ensures end { result.end ≡ Sent 0 0 }
    ensures count { result.count ≡ 0 }
    ensures back { result.back ≡ None }
{
    let slot = Slot::make(0).unwrap();
    let reading = Reading {
        len: 0,
        slots: [slot; 8],
        rows: [free_row(0); 8],
    };
    let note = Note {
        lane: LaneId::make(0).unwrap(),
        side: 0,
        ticket: 0,
        order: None,
        reading,
        read: [false; 8],
        current: None,
        depths: [None; 8],
    };
    Try {
        hop,
        end: TryEnd::Sent(slot, 0),
        note,
        statuses: [0; 6],
        count: 0,
        back: None,
    }
}

#[test]
fn a_request_is_tried(rt: HostRuntime) -> Result<(), Fail> {
    let mut request = Request::make(rt.alloc(), ReqId::make(7).unwrap(), Node::make(0).unwrap());
    request.reserve()?;
    let hop = request.next();
    request.tried(sent(hop));
    request.ended([0x2C5, 0, 0, 0, 0, 0], 2, None);
    assert_eq!(rt; (hop, request.next(), request.attempts()), (1, 2, 2));
    match request.outcome() {
        Outcome::Done(status) => assert_eq!(rt; status, 0),
        _ => assert!(rt; false),
    }
    Ok(())
}

/// A try that is listed, whose section had this ticket.
fn listed(hop: u32, ticket: u32) -> Try
    ensures hop { result.hop ≡ hop }
    ensures end { result.end ≡ Listed }
    ensures count { result.count ≡ 0 }
    ensures back { result.back ≡ None }
{
    let mut made = sent(hop);
    made.end = TryEnd::Listed;
    made.note.ticket = ticket;
    made
}

#[test]
fn thousands_of_tries_are_read_back(rt: HostRuntime) -> Result<(), Fail> {
    let mut request = Request::make(rt.alloc(), ReqId::make(7).unwrap(), Node::make(0).unwrap());
    for ticket in 0..5_000u32 {
        request.reserve()?;
        let hop = request.next();
        if matches!(request.outcome(), Outcome::Waiting) {
            request.tried(listed(hop, ticket / 2));
        }
    }
    request.reserve()?;
    let hop = request.next();
    if matches!(request.outcome(), Outcome::Waiting) {
        request.tried(sent(hop));
    }
    if matches!(request.outcome(), Outcome::Sent) {
        request.ended([0x2C5, 0, 0, 0, 0, 0], 2, None);
    }
    let tries = request.tries();
    assert_eq!(rt; (tries.len(), request.attempts()), (5_001, 2));
    for place in 0..tries.len() {
        let made = tries.at(place);
        assert_eq!(rt; made.hop as usize, place + 1);
        if place < 5_000 {
            assert_eq!(rt; made.note.ticket as usize, place / 2);
            assert!(rt; matches!(tries.end_at(place), TryEnd::Listed));
            assert_eq!(rt; tries.count_at(place), 0);
        } else {
            assert_eq!(rt; (made.statuses[0], made.count), (0x2C5, 2));
        }
    }
    assert!(rt; matches!(tries.last(), Some(Try { hop: 5_001, .. })));
    Ok(())
}

#[test]
fn an_answer_is_added(rt: HostRuntime) -> Result<(), Fail> {
    let mut answers = Answers::make(rt.alloc());
    let (first, second) = (ReqId::make(1).unwrap(), ReqId::make(2).unwrap());
    answers.add(second, 1, 0x371)?;
    assert_eq!(rt; answers.status(second, 1), 0x371);
    assert_eq!(rt; answers.status(first, 1), 0);
    Ok(())
}
