//! Each kind of step of a lane: one atomic step, and what the section then has.

ghost use Rattle.std.specs.Prelude.{◌≡◌, ◌-◌, ◌<◌, ◌≤◌, true, false, Some, None};
ghost use Rattle.mp_core.specs.Views.{has_flight};
ghost use Rattle.mp_core.specs.Notes.{HasRow, HasUsable, MayStore, Lists, ReadsNothing, ReadsAlone};
ghost use Rattle.mp_core.specs.Kinds.{LoadsSide, Enters, Leaves, LoadsOrder, LoadsRow, LoadsFlight, MayReach, IsLaneOp, Changes, ChangesRow, LoadsDepth, Sends, Lands, LoadsCurrent, StoresCurrent, ClearsCurrent};
ghost use Rattle.mp_table.specs.Known.{Stays};
ghost use Rattle.mp_table.specs.Passes.{core_by, known_by, table_of};

use crate::atoms::{
    add_as, clear_as, exchange_as, keep_current_as, land_as, load_as, read_as, send_as, sub_as,
};
use crate::shared::Shared;
use crate::token::Token;
use crate::unpack::{current_of, current_word, order_of, row_of};
use mp_core::view::{RowEnd, Section};
use mp_plain::notes::{
    blank, entry_by, note_current, note_depth, note_flight, note_order, note_row, version_of,
};
use mp_words::flight::Flight;
use mp_words::note::Note;
use mp_words::numbers::{LaneId, Node, ReqId, Slot};
use mp_words::op::{Maker, Op};
use mp_words::order::Order;
use mp_words::row::Row;
use std::marker::Brand;

/// Loads the side index.
pub(crate) fn load_side(shared: &Shared, token: &mut Token, lane: LaneId) -> u8
    requires own { token.old.seat.table_id ≡ table_of shared.now }
    ensures own { token.new.seat.table_id ≡ token.old.seat.table_id }
    ensures stays { Stays (known_by token.old).left (known_by token.old) (known_by token.new) }
    ensures kind { LoadsSide (core_by shared.now lane token.old) (core_by shared.now lane token.new) result }
{
    load_as::<Brand>(shared, &mut token.seat, 0, 0, lane) as u8
}

/// Enters a side.
pub(crate) fn enter(shared: &Shared, token: &mut Token, lane: LaneId, side: u8) -> Section
    requires own { token.old.seat.table_id ≡ table_of shared.now }
    requires side { side < 2 }
    requires left { 1 ≤ (known_by token.old).left }
    requires closed { (known_by token.old).inside ≡ None }
    ensures own { token.new.seat.table_id ≡ token.old.seat.table_id }
    ensures stays { Stays ((known_by token.old).left - 1) (known_by token.old) (known_by token.new) }
    ensures kind { Enters (core_by shared.now lane token.old) (core_by shared.now lane token.new) side result }
{
    let seat = &mut token.seat;
    let found = add_as::<Brand>(shared, seat, 1, side as usize, 0x1_0000_0001, lane);
    token.left -= 1;
    Section {
        note: blank(lane, side, (found >> 32) as u32),
        sent: false,
        tried: false,
    }
}

/// Leaves the side of a section.
pub(crate) fn leave(shared: &Shared, token: &mut Token, lane: LaneId, section: Section) -> Note
    requires own { token.old.seat.table_id ≡ table_of shared.now }
    requires open { (known_by token.old).inside ≡ Some section }
    ensures own { token.new.seat.table_id ≡ token.old.seat.table_id }
    ensures stays { Stays (known_by token.old).left (known_by token.old) (known_by token.new) }
    ensures note { result ≡ section.note }
    ensures kind { Leaves (core_by shared.now lane token.old) (core_by shared.now lane token.new) section }
{
    let side = section.note.side as usize;
    sub_as::<Brand>(shared, &mut token.seat, 1, side, 1, lane, &section);
    let Section {
        note,
        sent: _,
        tried: _,
    } = section;
    note
}

/// Loads the list of paths.
pub(crate) fn load_order(
    shared: &Shared,
    token: &mut Token,
    lane: LaneId,
    section: &mut Section,
) -> Order
    requires own { token.old.seat.table_id ≡ table_of shared.now }
    requires open { (known_by token.old).inside ≡ Some section.old }
    requires first { ReadsNothing section.old.note }
    ensures own { token.new.seat.table_id ≡ token.old.seat.table_id }
    ensures stays { Stays (known_by token.old).left (known_by token.old) (known_by token.new) }
    ensures kind { LoadsOrder (core_by shared.now lane token.old) (core_by shared.now lane token.new) section.old section.new result }
{
    let found = read_as::<Brand>(shared, &mut token.seat, 3, 0, lane, section);
    let order = order_of(found);
    note_order(&mut section.note, &order);
    order
}

/// Loads the row of a slot that the section's list of paths has.
pub(crate) fn load_row(
    shared: &Shared,
    token: &mut Token,
    lane: LaneId,
    section: &mut Section,
    slot: Slot,
) -> Row
    requires own { token.old.seat.table_id ≡ table_of shared.now }
    requires open { (known_by token.old).inside ≡ Some section.old }
    requires listed { Lists section.old.note slot }
    requires reached { MayReach section.old.note slot (known_by token.old) }
    ensures own { token.new.seat.table_id ≡ token.old.seat.table_id }
    ensures stays { Stays (known_by token.old).left (known_by token.old) (known_by token.new) }
    ensures kind { LoadsRow (core_by shared.now lane token.old) (core_by shared.now lane token.new) section.old section.new slot result }
{
    let place = slot.get() as usize;
    let word = read_as::<Brand>(shared, &mut token.seat, 4, place, lane, section);
    let row = row_of(word);
    note_row(&mut section.note, slot, &row);
    row
}

/// Loads the row of a flight's slot.
pub(crate) fn flight_row(
    shared: &Shared,
    token: &mut Token,
    lane: LaneId,
    section: &mut Section,
    flight: &Flight,
) -> Row
    requires own { token.old.seat.table_id ≡ table_of shared.now }
    requires open { (known_by token.old).inside ≡ Some section.old }
    requires flies { has_flight flight.now (known_by token.old) ≡ true }
    requires alone { ReadsAlone flight.now.slot section.old.note }
    ensures own { token.new.seat.table_id ≡ token.old.seat.table_id }
    ensures stays { Stays (known_by token.old).left (known_by token.old) (known_by token.new) }
    ensures kind { LoadsFlight (core_by shared.now lane token.old) (core_by shared.now lane token.new) section.old section.new flight.now.slot result }
{
    let place = flight.slot.get() as usize;
    let found = read_as::<Brand>(shared, &mut token.seat, 4, place, lane, section);
    let row = row_of(found);
    note_flight(&mut section.note, flight.slot, &row);
    row
}

/// Changes a row from one that the section loaded.
pub(crate) fn change_row(
    shared: &Shared,
    token: &mut Token,
    lane: LaneId,
    section: &mut Section,
    slot: Slot,
    old: &Row,
    op: &Op,
    by: &Maker,
) -> RowEnd
    requires own { token.old.seat.table_id ≡ table_of shared.now }
    requires open { (known_by token.old).inside ≡ Some section.old }
    requires old { HasRow section.old.note slot old.now }
    requires reached { MayReach section.old.note slot (known_by token.old) }
    requires op { IsLaneOp op.now }
    requires changes { Changes old.now op.now }
    requires once { section.old.tried ≡ false }
    ensures own { token.new.seat.table_id ≡ token.old.seat.table_id }
    ensures stays { Stays (known_by token.old).left (known_by token.old) (known_by token.new) }
    ensures kind { ChangesRow (core_by shared.now lane token.old) (core_by shared.now lane token.new) section.old section.new slot old.now op.now by.now result }
{
    let place = slot.get() as usize;
    let entry = entry_by(slot, old, op, by);
    let from = old.pack();
    let to = entry.row.pack();
    let seat = &mut token.seat;
    let found = exchange_as::<Brand>(shared, seat, 4, place, from, to, lane, section, old, op, by);
    section.tried = true;
    if found == from {
        RowEnd::Done(entry)
    } else {
        RowEnd::Moved(row_of(found))
    }
}

/// Loads the depth of a slot that the section's list of paths has.
pub(crate) fn load_depth(
    shared: &Shared,
    token: &mut Token,
    lane: LaneId,
    section: &mut Section,
    slot: Slot,
) -> u32
    requires own { token.old.seat.table_id ≡ table_of shared.now }
    requires open { (known_by token.old).inside ≡ Some section.old }
    requires listed { Lists section.old.note slot }
    ensures own { token.new.seat.table_id ≡ token.old.seat.table_id }
    ensures stays { Stays (known_by token.old).left (known_by token.old) (known_by token.new) }
    ensures kind { LoadsDepth (core_by shared.now lane token.old) (core_by shared.now lane token.new) section.old section.new slot result }
{
    let place = slot.get() as usize;
    let depth = read_as::<Brand>(shared, &mut token.seat, 19, place, lane, section) as u32;
    note_depth(&mut section.note, slot, depth);
    depth
}

/// Sends a request to a slot whose usable row the section loaded.
pub(crate) fn send(
    shared: &Shared,
    token: &mut Token,
    lane: LaneId,
    section: &mut Section,
    slot: Slot,
    req: ReqId,
) -> Flight
    requires own { token.old.seat.table_id ≡ table_of shared.now }
    requires open { (known_by token.old).inside ≡ Some section.old }
    requires usable { HasUsable section.old.note slot }
    requires once { section.old.sent ≡ false }
    ensures own { token.new.seat.table_id ≡ token.old.seat.table_id }
    ensures stays { Stays (known_by token.old).left (known_by token.old) (known_by token.new) }
    ensures kind { Sends (core_by shared.now lane token.old) (core_by shared.now lane token.new) section.old section.new slot req result }
{
    let place = slot.get() as usize;
    let version = version_of(&section.note, slot);
    send_as::<Brand>(shared, &mut token.seat, 19, place, 1, lane, section, req);
    section.sent = true;
    Flight {
        slot,
        version,
        req,
        lane,
    }
}

/// Ends a flight.
pub(crate) fn end(shared: &Shared, token: &mut Token, lane: LaneId, flight: Flight)
    requires own { token.old.seat.table_id ≡ table_of shared.now }
    requires flies { has_flight flight (known_by token.old) ≡ true }
    ensures own { token.new.seat.table_id ≡ token.old.seat.table_id }
    ensures stays { Stays (known_by token.old).left (known_by token.old) (known_by token.new) }
    ensures kind { Lands (core_by shared.now lane token.old) (core_by shared.now lane token.new) flight }
{
    let place = flight.slot.get() as usize;
    land_as::<Brand>(shared, &mut token.seat, 19, place, 1, lane, &flight);
    let Flight {
        slot: _,
        version: _,
        req: _,
        lane: _,
    } = flight;
}

/// Loads a node's current word.
pub(crate) fn load_current(
    shared: &Shared,
    token: &mut Token,
    lane: LaneId,
    section: &mut Section,
    node: Node,
) -> Option<Slot>
    requires own { token.old.seat.table_id ≡ table_of shared.now }
    requires open { (known_by token.old).inside ≡ Some section.old }
    ensures own { token.new.seat.table_id ≡ token.old.seat.table_id }
    ensures stays { Stays (known_by token.old).left (known_by token.old) (known_by token.new) }
    ensures kind { LoadsCurrent (core_by shared.now lane token.old) (core_by shared.now lane token.new) section.old section.new node result }
{
    let place = node.get() as usize;
    let found = read_as::<Brand>(shared, &mut token.seat, 34, place, lane, section);
    let current = current_of(found);
    note_current(&mut section.note, &current);
    current
}

/// Stores a node's current word: none, or a slot whose enabled row the section loaded.
pub(crate) fn store_current(
    shared: &Shared,
    token: &mut Token,
    lane: LaneId,
    section: &Section,
    node: Node,
    slot: &Option<Slot>,
)
    requires own { token.old.seat.table_id ≡ table_of shared.now }
    requires open { (known_by token.old).inside ≡ Some section.now }
    requires enabled { MayStore section.now.note slot.now }
    ensures own { token.new.seat.table_id ≡ token.old.seat.table_id }
    ensures stays { Stays (known_by token.old).left (known_by token.old) (known_by token.new) }
    ensures kind { StoresCurrent (core_by shared.now lane token.old) (core_by shared.now lane token.new) section.now section.now node slot.now }
{
    let place = node.get() as usize;
    let word = current_word(slot);
    let seat = &mut token.seat;
    keep_current_as::<Brand>(shared, seat, 34, place, word, lane, section, slot);
}

/// Makes a node's current word none where it names the slot.
pub(crate) fn clear_current(
    shared: &Shared,
    token: &mut Token,
    lane: LaneId,
    node: Node,
    slot: Slot,
)
    requires own { token.old.seat.table_id ≡ table_of shared.now }
    ensures own { token.new.seat.table_id ≡ token.old.seat.table_id }
    ensures stays { Stays (known_by token.old).left (known_by token.old) (known_by token.new) }
    ensures kind { ClearsCurrent (core_by shared.now lane token.old) (core_by shared.now lane token.new) node slot }
{
    let place = node.get() as usize;
    let from = u64::from(slot.get()) + 1;
    clear_as::<Brand>(shared, &mut token.seat, 34, place, from, 0, lane, slot);
}
