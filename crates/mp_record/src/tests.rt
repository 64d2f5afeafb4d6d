//! The text of a whole run.

ghost use Rattle.std.specs.Prelude.{◌<◌};

mod lines;
mod sections;

use crate::event::{Event, Said};
use crate::notes::{LaneNotes, NoteError};
use crate::run::Run;
use crate::text::run_text;
use mp_topology::topology::{Controller, Topology};
use mp_words::entry::{KeepEntry, OrderEntry, RowEntry};
use mp_words::name::Name;
use mp_words::near::Near;
use mp_words::numbers::{Ctrl, Node, ReqId, Slot};
use mp_words::op::{Gift, Maker, Op};
use mp_words::order::Order;
use mp_words::request::Request;
use mp_words::row::{CState, Policy, Row};
use mp_words::trying::TryEnd;
use sqlite_items::Items;
use std::alloc::{AllocError, Global};
use std::test::Fail;

/// The first versions of two paths, and the order that lists them.
const HEAD: &str =
    "anamp 1\nhead 1 numa\nrow 0 0 open a live optimized r\nrow 1 0 open b live optimized r\norder 0 open numa 0,1\n";

/// A lane of two submits that are finished by one line.
const LANE: &str =
    "lane 0\nat 2 submit\ntry 0 1 sent 0 0\nat 3 submit\ntry 1 1 sent 1 0\nat 4 finish 2\nfin 0 1 0000 done\nfin 1 1 0000 done\nat 0 finish 0\n";

const DRAIN: &str = "drain\nat 0 requeue 0\n";

fn controller(alloc: Global, name: &str) -> Result<Controller, AllocError> {
    Ok(Controller {
        name: Name::from_string(String::from_str(alloc, name)?),
        node: None,
        ana: false,
        state: CState::Live,
        page: None,
    })
}

/// Two controllers, a and b.
fn topology(alloc: Global) -> Result<Topology, AllocError> {
    let mut controllers = Items::new(alloc);
    controllers.push(controller(alloc, "a")?)?;
    controllers.push(controller(alloc, "b")?)?;
    Ok(Topology {
        nsid: 1,
        anagrpmax: 4,
        group: 1,
        policy: Policy::Numa,
        near: Near {
            nodes: 1,
            distance: [[0; 8]; 8],
            home: [None; 64],
        },
        controllers,
        opening: Items::new(alloc),
    })
}

fn slot(number: u32) -> Slot
    requires { number < 15 }
{
    Slot::make(number).unwrap()
}

fn request(number: u32) -> ReqId
    requires { number < 65536 }
{
    ReqId::make(number).unwrap()
}

/// The first version of a slot's row: the path of the controller of the slot's number, live and optimized.
fn opened(number: u32) -> RowEntry
    requires { number < 15 }
{
    RowEntry {
        slot: slot(number),
        row: Row {
            version: 0,
            ctrl: Ctrl::make(number).unwrap(),
            cstate: CState::Live,
            state: 1,
            pending: false,
            ready: true,
            armed: false,
            marked: false,
            ana: false,
        },
        op: Op::Pending,
        by: Maker::Start,
    }
}

/// A list of one version.
fn one(alloc: Global, entry: RowEntry) -> Result<Items<RowEntry>, AllocError> {
    Items::from_slice(alloc, &[entry])
}

fn rows(alloc: Global) -> Result<Items<Items<RowEntry>>, AllocError> {
    // The proof of a push needs each type inside an entry named here.
    let _: Option<Op> = None;
    let _: Option<Maker> = None;
    let _: Option<Gift> = None;
    let _: Option<CState> = None;
    let mut rows = Items::new(alloc);
    rows.push(one(alloc, opened(0))?)?;
    rows.push(one(alloc, opened(1))?)?;
    Ok(rows)
}

/// The first version of the order, of two paths.
fn opening_order() -> Order {
    let mut slots = [slot(0); 8];
    slots[1] = slot(1);
    Order {
        version: 0,
        policy: Policy::Numa,
        len: 2,
        slots,
    }
}

fn keeping(alloc: Global) -> Result<Items<KeepEntry>, AllocError> {
    let order = opening_order();
    let by = Maker::Start;
    Items::from_slice(alloc, &[KeepEntry::Order(OrderEntry { order, by })])
}

fn notes(alloc: Global, events: &[Event]) -> Result<LaneNotes, NoteError> {
    let mut notes = LaneNotes::make(alloc);
    for event in events {
        notes.reserve(1)?;
        notes.push(*event);
    }
    Ok(notes)
}

fn at(line: u32, said: Said) -> Event {
    Event::At { line, said }
}

/// A first try that was sent to version 0 of the row of the slot of the request's number.
fn sent(req: ReqId) -> Event {
    Event::Try {
        req,
        hop: 1,
        end: TryEnd::Sent(slot(req.get() % 15), 0),
    }
}

fn done(req: ReqId) -> Event {
    Event::Fin {
        req,
        hop: 1,
        statuses: [0; 6],
        count: 1,
        back: None,
    }
}

/// The events of a lane of two submits that are finished by one line.
fn lane(alloc: Global) -> Result<LaneNotes, NoteError> {
    let first = request(0);
    let second = request(1);
    let events = [
        at(2, Said::Submit),
        sent(first),
        at(3, Said::Submit),
        sent(second),
        at(4, Said::Finish(2)),
        done(first),
        done(second),
        at(0, Said::Finish(0)),
    ];
    notes(alloc, &events)
}

/// The one lane's events.
fn lanes(alloc: Global) -> Result<Items<LaneNotes>, NoteError> {
    let mut lanes = Items::new(alloc);
    lanes.push(lane(alloc)?).map_err(|_| NoteError::NoMemory)?;
    Ok(lanes)
}

/// A request that was submitted and never tried.
fn requests(alloc: Global) -> Result<Items<Request>, AllocError> {
    let mut requests = Items::new(alloc);
    let node = Node::make(1).unwrap();
    requests.push(Request::make(alloc, request(0), node))?;
    Ok(requests)
}

#[test]
fn writes_two_requests(rt: HostRuntime) -> Result<(), Fail> {
    let alloc = rt.alloc();
    let topology = topology(alloc)?;
    let run = Run {
        nsid: 1,
        keeper: None,
        rows: rows(alloc)?,
        keeping: keeping(alloc)?,
        lanes: lanes(alloc)?,
        drain: notes(alloc, &[at(0, Said::Requeue(0))])?,
        requests: requests(alloc)?,
    };
    let wanted = format!(in alloc; "{HEAD}{LANE}{DRAIN}request 0 1 - listed 0\nend\n")?;
    let text = run_text(alloc, &run, &topology, true)?;
    assert_eq!(rt; text.as_slice(), wanted.as_bytes());
    Ok(())
}
