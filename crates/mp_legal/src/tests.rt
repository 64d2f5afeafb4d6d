//! A run gathered of parts in any order.

ghost use Rattle.std.specs.Prelude.{◌≡◌, ◌<◌, ◌≤◌, ◌+◌, ◌==◌, ℕ, IfOk, OnOk, count_by, map, cond};
ghost use Rattle.mp_script.specs.Distinct.{IsDistinct};
ghost use Rattle.mp_legal.specs.Gathering.{AreVersions, BeginAt0, count_of, is_version};

use crate::gather::gather;
use mp_record::event::{Event, Said};
use mp_record::notes::{LaneNotes, NoteError};
use mp_record::text::run_text;
use mp_topology::topology::{Controller, Topology};
use mp_words::entry::{Closing, Grace, KeepEntry, OrderEntry, RowEntry};
use mp_words::name::Name;
use mp_words::near::Near;
use mp_words::numbered::Numbered;
use mp_words::numbers::{Ctrl, LaneId, Node, ReqId, Slot};
use mp_words::op::{Gift, Maker, Op};
use mp_words::order::Order;
use mp_words::request::Request;
use mp_words::row::{CState, Policy, Row};
use mp_words::words::Words;
use sqlite_items::Items;
use std::alloc::{AllocError, Global};
use std::test::Fail;

/// The names of the controllers.
const NAMES: &str = "abcdefghijklmno";

/// What the run's text has behind its rows.
const REST: &str =
    "order 0 open numa 0,1\nclosing 0 b 1 7 5 4 open\nlane 0\nat 9 requeue 0\nkeeper 1\nat 9 requeue 1\ndrain\nat 9 requeue 31\nrequest 0 0 - listed 0\nrequest 1 1 - listed 0\nrequest 2 2 - listed 0\nend\n";

/// The words of an opening with a live path in each slot, that of the controller of the slot's number.
fn opening() -> Words
    ensures { BeginAt0 result }
{
    Words {
        index: 0,
        sides: [0; 2],
        order: 0,
        rows: [
            0x4240_0000_0000,
            0x4241_0000_0000,
            0x4242_0000_0000,
            0x4243_0000_0000,
            0x4244_0000_0000,
            0x4245_0000_0000,
            0x4246_0000_0000,
            0x4247_0000_0000,
            0x4248_0000_0000,
            0x4249_0000_0000,
            0x424A_0000_0000,
            0x424B_0000_0000,
            0x424C_0000_0000,
            0x424D_0000_0000,
            0x424E_0000_0000,
        ],
        depths: [0; 15],
        currents: [0; 8],
    }
}

fn slot(number: u32) -> Slot
    requires { number < 15 }
    ensures { result ≡ number }
{
    Slot::make(number).unwrap()
}

fn request_id(number: u32) -> ReqId
    requires { number < 65536 }
    ensures { result ≡ number }
{
    ReqId::make(number).unwrap()
}

fn lane(number: u32) -> LaneId
    requires { number < 17 }
{
    LaneId::make(number).unwrap()
}

/// A version of a slot's row that a line made of the version's number.
fn entry(number: u32, version: u32) -> RowEntry
    requires { number < 15 }
    ensures slot { result.slot ≡ number }
    ensures version { result.row.version ≡ version }
{
    RowEntry {
        slot: slot(number),
        row: Row {
            version,
            ctrl: Ctrl::make(number).unwrap(),
            cstate: CState::Live,
            state: 2,
            pending: false,
            ready: true,
            armed: false,
            marked: false,
            ana: true,
        },
        op: Op::Expire,
        by: Maker::Line {
            lane: lane(3),
            line: version,
        },
    }
}

/// Adds an entry of this version to each slot.
fn add_each(all: &mut Vec<RowEntry>, version: u32) -> Result<(), AllocError>
    ensures versions { (slot v : ℕ) → slot < 15 → OnOk result (count_by (is_version slot v) all.new.items ≡ count_by (is_version slot v) all.old.items + cond (version == v) 1 0) }
    ensures counts { (slot : ℕ) → slot < 15 → OnOk result (count_of slot all.new.items ≡ count_of slot all.old.items + 1) }
{
    // The proof of a push needs each type inside an entry named here.
    let _: (Option<Row>, Option<Op>, Option<Maker>) = (None, None, None);
    let _: (Option<CState>, Option<Gift>) = (None, None);
    for number in 0..15u32 {
        all.push(entry(number, version))?;
    }
    Ok(())
}

/// Entries of so many versions of each slot, from the last version to the first.
fn entries(alloc: Global, most: u32) -> Result<Vec<RowEntry>, AllocError>
    requires { most ≤ 1000000 }
    ensures { IfOk result (λ all. AreVersions all.items) }
{
    let mut all = Vec::new(alloc);
    for done in 0..most {
        add_each(&mut all, most - done)?;
    }
    Ok(all)
}

/// So many requests, from the last number to the first, each on the node of its number's last digit in base 8.
fn requests(alloc: Global, most: u32) -> Result<Vec<Request>, AllocError>
    requires { most ≤ 65536 }
    ensures { IfOk result (λ all. IsDistinct (map (λ r. r.id) all.items)) }
{
    let mut all = Vec::new(alloc);
    for done in 0..most {
        let number = most - 1 - done;
        let id = request_id(number);
        let node = Node::make(number % 8).unwrap();
        all.push(Request::make(alloc, id, node))?;
    }
    Ok(all)
}

/// The list of the first two paths, and the close of a grace period of the removal of the first.
fn keeping(alloc: Global) -> Result<Vec<KeepEntry>, AllocError> {
    let mut slots = [slot(0); 8];
    slots[1] = slot(1);
    let order = Order {
        version: 0,
        policy: Policy::Numa,
        len: 2,
        slots,
    };
    let closing = Closing {
        slot: slot(0),
        grace: Grace::B,
        side: 1,
        entries: 7,
        order: 5,
        mark: 4,
        by: Maker::Start,
    };
    let order = OrderEntry {
        order,
        by: Maker::Start,
    };
    Vec::from_slice(
        alloc,
        &[KeepEntry::Order(order), KeepEntry::Closing(closing)],
    )
}

/// Notes of one event, a requeue of so many requests.
fn notes(alloc: Global, count: u32) -> Result<LaneNotes, NoteError> {
    let mut notes = LaneNotes::make(alloc);
    notes.reserve(1)?;
    notes.push(Event::At {
        line: 9,
        said: Said::Requeue(count),
    });
    Ok(notes)
}

/// So many lanes, each with one event that tells its number.
fn lanes(alloc: Global, most: u32) -> Result<Vec<LaneNotes>, NoteError> {
    let mut all = Vec::new(alloc);
    for number in 0..most {
        all.push(notes(alloc, number)?)
            .map_err(|_| NoteError::NoMemory)?;
    }
    Ok(all)
}

/// Controllers a to o.
fn topology(alloc: Global) -> Result<Topology, AllocError> {
    let mut controllers = Items::new(alloc);
    for place in 0..15usize {
        let name = String::from_str(alloc, &NAMES[place..place + 1])?;
        controllers.push(Controller {
            name: Name::from_string(name),
            node: None,
            ana: false,
            state: CState::Live,
            page: None,
        })?;
    }
    Ok(Topology {
        nsid: 7,
        anagrpmax: 4,
        group: 1,
        policy: Policy::Numa,
        near: Near {
            nodes: 8,
            distance: [[0; 8]; 8],
            home: [None; 64],
        },
        controllers,
        opening: Items::new(alloc),
    })
}

/// The run's text: of each slot the version of the opening and the one that was made.
fn wanted(alloc: Global) -> Result<String, AllocError> {
    let mut text = String::from_str(alloc, "anamp 1\nhead 7 numa\n")?;
    for place in 0..15usize {
        let name = &NAMES[place..place + 1];
        let rows = format!(in alloc;
            "row {place} 0 open {name} live optimized r\nrow {place} 1 3.1 {name} live non-optimized rn\n"
        )?;
        text.push_str(&rows)?;
    }
    text.push_str(REST)?;
    Ok(text)
}

#[test]
fn gathers_parts_in_any_order(rt: HostRuntime) -> Result<(), Fail> {
    let alloc = rt.alloc();
    let run = gather(
        alloc,
        7,
        Some(lane(1)),
        &opening(),
        entries(alloc, 1)?,
        keeping(alloc)?,
        lanes(alloc, 2)?,
        notes(alloc, 31)?,
        requests(alloc, 3)?,
    )?;
    assert_eq!(rt; run.nsid, 7);
    let text = run_text(alloc, &run, &topology(alloc)?, true)?;
    assert_eq!(rt; text.as_slice(), wanted(alloc)?.as_bytes());
    Ok(())
}

/// Whether these are a slot's versions up to this one: that of the opening, and then those of the entries, in order.
fn has_versions(slot: u32, rows: &[RowEntry], most: u32) -> bool {
    let mut good = rows.len() == most as usize + 1;
    for (place, entry) in rows.iter().enumerate() {
        let row = entry.row;
        let state = if place == 0 { 1 } else { 2 };
        good = good && entry.slot.get() == slot && row.version as usize == place;
        good = good && row.ctrl.get() == slot && row.state == state && row.ana == (place != 0);
    }
    good
}

/// Whether the notes have one event, a requeue of so many requests.
fn tells(notes: &LaneNotes, count: u32) -> bool {
    notes.len() == 1
        && matches!(notes.at(0), Event::At { line: 9, said: Said::Requeue(told) } if told == count)
}

#[test]
fn gathers_all_slots_and_lanes(rt: HostRuntime) -> Result<(), Fail> {
    let alloc = rt.alloc();
    let run = gather(
        alloc,
        7,
        None,
        &opening(),
        entries(alloc, 300)?,
        keeping(alloc)?,
        lanes(alloc, 16)?,
        notes(alloc, 31)?,
        requests(alloc, 4000)?,
    )?;
    let mut slots = 0u32;
    for rows in run.rows.as_slice() {
        assert!(rt; has_versions(slots, rows.as_slice(), 300));
        slots = slots.wrapping_add(1);
    }
    assert_eq!(rt; slots, 15);
    let mut number = 0u32;
    for notes in run.lanes.as_slice() {
        assert!(rt; tells(notes, number));
        number = number.wrapping_add(1);
    }
    assert_eq!(rt; number, 16);
    assert!(rt; tells(&run.drain, 31));
    let mut next = 0u32;
    for request in run.requests.as_slice() {
        assert_eq!(rt; request.id().get(), next);
        assert_eq!(rt; request.node().get(), next % 8);
        next = next.wrapping_add(1);
    }
    assert_eq!(rt; next, 4000);
    Ok(())
}
