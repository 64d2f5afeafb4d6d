//! Each kind of line, with what the format says of it.

use super::{notes, one, opened, opening_order, request, rows, slot, topology};
use crate::event::{Event, Said};
use crate::event_text::put_event;
use crate::history_text::{put_keeping, put_rows};
use crate::request_text::put_request;
use mp_words::entry::{Closing, Grace, KeepEntry, OrderEntry, RowEntry};
use mp_words::note::Note;
use mp_words::numbered::Numbered;
use mp_words::numbers::{LaneId, Node, Slot};
use mp_words::op::Maker;
use mp_words::reading::Reading;
use mp_words::request::{Request, SubmitError};
use mp_words::row::{CState, Policy};
use mp_words::trying::{Back, Outcome, Try, TryEnd};
use std::alloc::{AllocError, Global};
use std::test::Fail;

/// What a line may say, by number.
fn said(number: u8) -> Said {
    let slot = slot(3);
    match number {
        0 => Said::Submit,
        1 => Said::Finish(4),
        2 => Said::Requeue(6),
        3 => Said::Changed(slot, 2),
        4 => Said::Refused(slot, 2, CState::DeletingNoio),
        5 => Said::NotArmed(slot, 5),
        6 => Said::NoPath(4),
        7 => Said::Page(1, 0),
        8 => Said::Page(2, 16),
        9 => Said::Page(3, 20),
        10 => Said::Page(4, 24),
        11 => Said::Page(5, 28),
        12 => Said::Page(6, 32),
        13 => Said::Added(slot, 1, 7),
        14 => Said::Already(slot),
        15 => Said::NoSlot,
        16 => Said::OrderFull,
        17 => Said::Marked(slot, 4),
        18 => Said::Idle,
        19 => Said::Freed(slot, 5, 2),
        20 => Said::AgainSection(slot, Grace::A, 1, 6),
        21 => Said::AgainSection(slot, Grace::B, 0, 1),
        22 => Said::AgainDepth(slot, 2),
        _ => Said::Policy(7),
    }
}

/// What the text has of each.
const SAID: &str =
    "at 2 submit\nat 2 finish 4\nat 2 requeue 6\nat 2 changed 3 2\nat 2 refused 3 2 deleting-noio\nat 2 not-armed 3 5\nat 2 no-path 4\nat 2 page short-header 0\nat 2 page short-descriptor 16\nat 2 page group-zero 20\nat 2 page group-above 24\nat 2 page state-bad 28\nat 2 page short-list 32\nat 2 added 3 1 7\nat 2 already 3\nat 2 no-slot\nat 2 order-full\nat 2 marked 3 4\nat 2 idle\nat 2 freed 3 5 2\nat 2 again 3 a 1 6\nat 2 again 3 b 0 1\nat 2 again 3 depth 2\nat 2 policy 7\n";

#[test]
fn writes_what_a_line_says(rt: HostRuntime) -> Result<(), Fail> {
    let alloc = rt.alloc();
    let mut text = Vec::new(alloc);
    let mut line = [0; 128];
    for number in 0..24 {
        put_event(&mut text, &mut line, &super::at(2, said(number)))?;
    }
    assert_eq!(rt; text.as_slice(), SAID.as_bytes());
    Ok(())
}

/// A section in side 0 with ticket 5 that read nothing.
pub(super) fn nothing_read() -> Note {
    let none = opened(0).row;
    Note {
        lane: LaneId::make(0).unwrap(),
        side: 0,
        ticket: 5,
        order: None,
        reading: Reading {
            len: 0,
            slots: [slot(0); 8],
            rows: [none; 8],
        },
        read: [false; 8],
        current: None,
        depths: [None; 8],
    }
}

/// A section in side 1 that read the order, two of three rows, no current path, and two depths.
pub(super) fn much_read() -> Note {
    let mut note = nothing_read();
    note.side = 1;
    note.order = Some(opening_order());
    note.reading.slots[1] = slot(1);
    note.reading.slots[2] = slot(14);
    note.reading.rows[2].version = 6;
    note.read[0] = true;
    note.read[2] = true;
    note.current = Some(None);
    note.depths[1] = Some(2);
    note.depths[2] = Some(40);
    note
}

/// A section that read the current path of slot 12.
fn current_read() -> Note {
    let mut note = nothing_read();
    note.current = Some(Some(slot(12)));
    note
}

/// A section.
pub(super) fn section(note: Note, moved: Option<(Slot, u32)>) -> Event {
    Event::Sec { note, moved }
}

/// The end of the first try of request 65,535, with the first of three statuses.
pub(super) fn fin(count: u8, back: Option<Back>) -> Event {
    Event::Fin {
        req: request(65535),
        hop: 1,
        statuses: [0x302, 6, 0x7fff, 0, 0, 0],
        count,
        back,
    }
}

/// Sections, each before the event that it belongs to, by number.
pub(super) fn event(number: u8) -> Event {
    let req = request(3);
    let hop = 4;
    match number {
        0 => section(nothing_read(), Some((slot(3), 8))),
        1 => fin(3, None),
        2 => section(much_read(), None),
        3 => fin(1, Some(Back::Set(opened(11)))),
        4 => section(current_read(), None),
        5 => fin(2, Some(Back::Unset)),
        6 => Event::Try {
            req,
            hop,
            end: TryEnd::Listed,
        },
        _ => Event::Try {
            req,
            hop,
            end: TryEnd::Failed,
        },
    }
}

/// What the text has of these with the notes, and without.
const NOTED: &str =
    "sec 0 5 - - - - moved 3 8\nfin 65535 1 0302,0006,7FFF done\nsec 1 5 0 0:0,14:6 none 1:2,14:40\nfin 65535 1 0302 back 11:0\nsec 0 5 - - 12 -\nfin 65535 1 0302,0006 back -\ntry 3 4 listed\ntry 3 4 failed\n";

const PLAIN: &str =
    "fin 65535 1 0302,0006,7FFF done\nfin 65535 1 0302 back 11:0\nfin 65535 1 0302,0006 back -\ntry 3 4 listed\ntry 3 4 failed\n";

#[test]
fn writes_sections_with_the_notes(rt: HostRuntime) -> Result<(), Fail> {
    let alloc = rt.alloc();
    for (with_notes, wanted) in [(true, NOTED), (false, PLAIN)] {
        let mut text = Vec::new(alloc);
        for number in 0..8 {
            notes(alloc, &[event(number)])?.put(&mut text, with_notes)?;
        }
        assert_eq!(rt; text.as_slice(), wanted.as_bytes());
    }
    Ok(())
}

/// Line 0 of the drain.
fn drain() -> Maker {
    Maker::Line {
        lane: LaneId::make(16).unwrap(),
        line: 0,
    }
}

/// An order that lists nothing.
fn no_path_listed() -> OrderEntry {
    let mut order = opening_order();
    order.version = 4;
    order.policy = Policy::RoundRobin;
    order.len = 0;
    OrderEntry { order, by: drain() }
}

/// A look of a grace period that found nobody.
fn closing() -> Closing {
    Closing {
        slot: slot(2),
        grace: Grace::B,
        side: 1,
        entries: 12,
        order: 3,
        mark: 6,
        by: drain(),
    }
}

/// What the keeper made.
fn kept() -> [KeepEntry; 2] {
    [
        KeepEntry::Order(no_path_listed()),
        KeepEntry::Closing(closing()),
    ]
}

#[test]
fn writes_closings_with_the_notes(rt: HostRuntime) -> Result<(), Fail> {
    let alloc = rt.alloc();
    let mut text = Vec::new(alloc);
    put_keeping(&mut text, false, &kept())?;
    put_keeping(&mut text, true, &kept())?;
    let order = "order 4 16.0 round-robin -\n";
    let wanted = format!(in alloc; "{order}{order}closing 2 b 1 12 3 6 16.0\n")?;
    assert_eq!(rt; text.as_slice(), wanted.as_bytes());
    Ok(())
}

/// A version of slot 2's row, by number: each state of controller b and each kind of ANA state, and free ones.
fn version(number: u8) -> RowEntry {
    let mut entry = opened(1);
    entry.slot = slot(2);
    entry.row.version = u32::from(number);
    entry.row.ready = false;
    let (cstate, state) = match number {
        0 => (CState::New, 0),
        1 => (CState::New, 1),
        2 => (CState::Live, 2),
        3 => (CState::Resetting, 3),
        4 => (CState::Connecting, 4),
        5 => (CState::Deleting, 15),
        6 => (CState::DeletingNoio, 5),
        7 => (CState::Dead, 14),
        _ => (CState::New, 0),
    };
    entry.row.cstate = cstate;
    entry.row.state = state;
    entry.row.pending = number == 1;
    entry.row.armed = number == 1;
    entry.row.marked = number == 1;
    entry.row.ana = number == 1;
    let lane = LaneId::make(4).unwrap();
    let req = request(17);
    entry.by = Maker::Hop { lane, req, hop: 2 };
    entry
}

const VERSIONS: &str =
    "row 2 1 4/17.2 b new optimized pamn\nrow 2 2 4/17.2 b live non-optimized -\nrow 2 3 4/17.2 b resetting inaccessible -\nrow 2 4 4/17.2 b connecting persistent-loss -\nrow 2 5 4/17.2 b deleting change -\nrow 2 6 4/17.2 b deleting-noio reserved-5 -\nrow 2 7 4/17.2 b dead reserved-14 -\nrow 2 8 4/17.2 free\n";

#[test]
fn writes_each_version_of_a_row(rt: HostRuntime) -> Result<(), Fail> {
    let alloc = rt.alloc();
    let topology = topology(alloc)?;
    let mut text = Vec::new(alloc);
    for number in 0..9 {
        let rows = [one(alloc, version(number))?];
        put_rows(&mut text, &topology, &rows)?;
    }
    assert_eq!(rt; text.as_slice(), VERSIONS.as_bytes());
    Ok(())
}

/// Request 7, without tries.
fn asked(alloc: Global) -> Request {
    Request::make(alloc, request(7), Node::make(5).unwrap())
}

/// Adds a try with this end to a request that waits, and ends one that was sent with the first `count` of three
/// statuses.
fn add(asked: &mut Request, end: TryEnd, count: u8, back: Option<Back>) -> Result<(), SubmitError> {
    asked.reserve()?;
    let Outcome::Waiting = asked.outcome() else {
        return Ok(());
    };
    asked.tried(Try {
        hop: asked.next(),
        end,
        note: nothing_read(),
        statuses: [0; 6],
        count: 0,
        back: None,
    });
    let Outcome::Sent = asked.outcome() else {
        return Ok(());
    };
    if 1 <= count && count <= 6 {
        asked.ended([0x302, 6, 0x10a, 0, 0, 0], count, back);
    }
    Ok(())
}

/// A try on controller a that came back after two attempts.
fn add_lost(asked: &mut Request) -> Result<(), SubmitError> {
    add(asked, TryEnd::Sent(slot(0), 0), 2, Some(Back::Unset))
}

/// A try on controller b that was done after three attempts.
fn add_ended(asked: &mut Request) -> Result<(), SubmitError> {
    add(asked, TryEnd::Sent(slot(1), 0), 3, None)
}

fn add_listed(asked: &mut Request) -> Result<(), SubmitError> {
    add(asked, TryEnd::Listed, 0, None)
}

fn add_failed(asked: &mut Request) -> Result<(), SubmitError> {
    add(asked, TryEnd::Failed, 0, None)
}

/// The line of a request.
fn line_of(alloc: Global, asked: &Request) -> Result<Vec<u8>, AllocError> {
    let mut text = Vec::new(alloc);
    let mut line = [0; 128];
    let topology = topology(alloc)?;
    let rows = rows(alloc)?;
    put_request(
        &mut text,
        &mut line,
        &topology,
        rows.as_slice(),
        asked.id(),
        asked.node(),
        asked.tries(),
    )?;
    Ok(text)
}

#[test]
fn writes_trails_and_outcomes(rt: HostRuntime) -> Result<(), Fail> {
    let alloc = rt.alloc();
    let mut first = asked(alloc);
    assert_eq!(rt;
        line_of(alloc, &first)?.as_slice(),
        b"request 7 5 - listed 0\n".as_slice()
    );
    add_lost(&mut first)?;
    assert_eq!(rt;
        line_of(alloc, &first)?.as_slice(),
        b"request 7 5 a listed 2\n".as_slice()
    );
    add_listed(&mut first)?;
    add_listed(&mut first)?;
    add_ended(&mut first)?;
    assert_eq!(rt;
        line_of(alloc, &first)?.as_slice(),
        b"request 7 5 a,b done 010A 5\n".as_slice()
    );
    let mut second = asked(alloc);
    add_lost(&mut second)?;
    add_failed(&mut second)?;
    assert_eq!(rt;
        line_of(alloc, &second)?.as_slice(),
        b"request 7 5 a failed 2\n".as_slice()
    );
    Ok(())
}
