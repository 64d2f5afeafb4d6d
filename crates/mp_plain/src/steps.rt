//! The steps of the lane whose turn it is.

ghost use Rattle.std.specs.Prelude.{◌≡◌, ◌<◌, ◌≤◌, ◌+◌, ◌-◌, ◌^◌, ℕ, true, Some, None};
ghost use Rattle.mp_words.specs.Facts.{IsRow};
ghost use Rattle.mp_words.specs.Effect.{unless_slot};
ghost use Rattle.mp_core.specs.Memory.{side_at, depth_at, current_at, entered_in, left_in, row_in, sent_in, landed_in, current_in, cleared_in};
ghost use Rattle.mp_core.specs.Seats.{view_of};
ghost use Rattle.mp_core.specs.Unpacked.{unpacked};
ghost use Rattle.mp_core.specs.Views as view;
ghost use Rattle.mp_core.specs.Views.{opened};
ghost use Rattle.mp_plain.specs.Packed.{IsPacked, IsUnpacked};
ghost use Rattle.mp_plain.specs.Lanes.{lane_turn, keeper_turn};

use crate::cells::{
    current_in, depth_in, order_in, put_current, put_depth, put_row, put_side, row_in, side_in,
};
use crate::ledger::Ledger;
use crate::notes::{
    blank, entry_by, note_current, note_depth, note_flight, note_order, note_row, version_of,
};
use crate::plain::Plain;
use crate::turns::{
    turn_cleared, turn_entered, turn_finished, turn_flown, turn_landed, turn_noted,
    turn_order_read, turn_passed, turn_row_changed, turn_row_moved, turn_row_read,
};
use crate::unpacked::Unpacked;
use mp_core::steps::Steps;
use mp_core::view::{RowEnd, Section};
use mp_words::entry::RowEntry;
use mp_words::flight::Flight;
use mp_words::note::Note;
use mp_words::numbers::{LaneId, Node, ReqId, Slot};
use mp_words::op::{Maker, Op};
use mp_words::order::Order;
use mp_words::row::Row;
use mp_words::words::{Side, Words};
use std::marker::Brand;

/// Counts one more in a side: the entries before it are its ticket.
fn count_in(words: &mut Words, side: u8) -> u32
    requires side { side < 2 }
    requires entries { (side_at (unpacked words.old) side).entries + 1 < 2 ^ 32 }
    requires inside { (side_at (unpacked words.old) side).inside + 1 < 2 ^ 32 }
    ensures ticket { result ≡ (side_at (unpacked words.old) side).entries }
    ensures words { unpacked words.new ≡ entered_in side (unpacked words.old) }
    ensures packed { IsPacked words.old → IsPacked words.new }
{
    let found = side_in(words, side);
    let to = Side {
        entries: found.entries + 1,
        inside: found.inside + 1,
    };
    put_side(words, side, to);
    found.entries
}

/// Counts one less in a side.
fn count_out(words: &mut Words, side: u8)
    requires side { side < 2 }
    requires inside { 1 ≤ (side_at (unpacked words.old) side).inside }
    ensures words { unpacked words.new ≡ left_in side (unpacked words.old) }
    ensures packed { IsPacked words.old → IsPacked words.new }
{
    let found = side_in(words, side);
    let to = Side {
        entries: found.entries,
        inside: found.inside - 1,
    };
    put_side(words, side, to);
}

/// Stores the row of an entry.
fn change(
    words: &mut Words,
    said: &mut Unpacked,
    ledger: &mut Ledger,
    lane: LaneId,
    section: &Section,
    entry: &RowEntry,
)
    requires { IsRow entry.now.row }
    ensures words { unpacked words.new ≡ row_in entry.now.slot entry.now.row (unpacked words.old) }
    ensures packed { IsPacked words.old → IsPacked words.new }
    ensures same { IsUnpacked words.old said.old → IsUnpacked words.new said.new }
    ensures home { ledger.new.seat.table_id ≡ ledger.old.seat.table_id }
    ensures view { ledger.new.seat.me.0 ≡ lane_turn lane (view.row_changed entry.now section.now) ledger.old.seat.me.0 }
{
    put_row(words, said, entry.slot, &entry.row);
    turn_row_changed::<Brand>(ledger, lane, section, entry);
}

/// Counts a flight on its slot.
fn send(words: &mut Words, ledger: &mut Ledger, lane: LaneId, section: &Section, flight: &Flight)
    requires { depth_at (unpacked words.old) flight.now.slot + 1 < 2 ^ 32 }
    ensures below { flight.now.slot < 15 }
    ensures words { unpacked words.new ≡ sent_in flight.now.slot (unpacked words.old) }
    ensures packed { IsPacked words.old → IsPacked words.new }
    ensures home { ledger.new.seat.table_id ≡ ledger.old.seat.table_id }
    ensures view { ledger.new.seat.me.0 ≡ lane_turn lane (view.flown flight.now section.now) ledger.old.seat.me.0 }
{
    let depth = depth_in(words, flight.slot);
    put_depth(words, flight.slot, depth + 1);
    turn_flown::<Brand>(ledger, lane, section, flight);
}

/// Ends a flight.
fn land(words: &mut Words, ledger: &mut Ledger, lane: LaneId, flight: Flight)
    requires most { depth_at (unpacked words.old) flight.slot < 2 ^ 32 }
    requires some { 1 ≤ depth_at (unpacked words.old) flight.slot }
    ensures below { flight.slot < 15 }
    ensures words { unpacked words.new ≡ landed_in flight.slot (unpacked words.old) }
    ensures packed { IsPacked words.old → IsPacked words.new }
    ensures home { ledger.new.seat.table_id ≡ ledger.old.seat.table_id }
    ensures view { ledger.new.seat.me.0 ≡ lane_turn lane (view.landed flight) ledger.old.seat.me.0 }
{
    let depth = depth_in(words, flight.slot);
    put_depth(words, flight.slot, depth - 1);
    turn_landed::<Brand>(ledger, lane, &flight);
    let Flight {
        slot: _,
        version: _,
        req: _,
        lane: _,
    } = flight;
}

/// Stores a current word.
fn store(
    words: &mut Words,
    ledger: &mut Ledger,
    lane: LaneId,
    section: &Section,
    node: Node,
    slot: Option<Slot>,
)
    ensures below { node < 8 }
    ensures words { unpacked words.new ≡ current_in node slot (unpacked words.old) }
    ensures packed { IsPacked words.old → IsPacked words.new }
    ensures home { ledger.new.seat.table_id ≡ ledger.old.seat.table_id }
    ensures view { ledger.new.seat.me.0 ≡ lane_turn lane (view.noted section.now) ledger.old.seat.me.0 }
{
    put_current(words, node, slot);
    turn_noted::<Brand>(ledger, lane, section);
}

/// Clears a current word of a slot.
fn clear(words: &mut Words, ledger: &mut Ledger, lane: LaneId, node: Node, slot: Slot)
    requires { (s : ℕ) → current_at (unpacked words.old) node ≡ Some s → s < 15 }
    ensures below { node < 8 }
    ensures words { unpacked words.new ≡ cleared_in node slot (unpacked words.old) }
    ensures packed { IsPacked words.old → IsPacked words.new }
    ensures home { ledger.new.seat.table_id ≡ ledger.old.seat.table_id }
    ensures view { ledger.new.seat.me.0 ≡ keeper_turn lane (view.cleared node slot) ledger.old.seat.me.0 }
{
    let current = current_in(words, node);
    put_current(words, node, unless(current, slot));
    turn_cleared::<Brand>(ledger, lane, node, slot);
}

/// The current path, unless it is the slot.
fn unless(current: Option<Slot>, slot: Slot) -> Option<Slot>
    ensures { result ≡ unless_slot slot current }
{
    match current {
        Some(named) => {
            if named.get() == slot.get() {
                None
            } else {
                Some(named)
            }
        }
        None => None,
    }
}

impl Steps for Plain {
    ghost use Rattle.mp_plain.specs.Told.{told_core};

    ghost core = { told_core };

    fn left(&self) -> u32 {
        self.left[self.lane.get() as usize]
    }

    fn lane(&self) -> LaneId {
        self.lane
    }

    fn load_side(&mut self) -> u8 {
        turn_passed::<Brand>(&mut self.ledger, self.lane);
        self.words.index as u8
    }

    fn enter(&mut self, side: u8) -> Section {
        let ticket = count_in(&mut self.words, side);
        self.left[self.lane.get() as usize] -= 1;
        let section = Section {
            note: blank(self.lane, side, ticket),
            sent: false,
            tried: false,
        };
        turn_entered::<Brand>(&mut self.ledger, self.lane, &section);
        section
    }

    fn leave(&mut self, section: Section) -> Note {
        turn_finished::<Brand>(&mut self.ledger, self.lane, &section);
        let Section {
            note,
            sent: _,
            tried: _,
        } = section;
        count_out(&mut self.words, note.side);
        note
    }

    fn load_order(&mut self, section: &mut Section) -> Order {
        let order = order_in(&self.words, &self.said);
        note_order(&mut section.note, &order);
        turn_order_read::<Brand>(&mut self.ledger, self.lane, section, &order);
        order
    }

    fn load_row(&mut self, section: &mut Section, slot: Slot) -> Row {
        let row = row_in(&self.words, &self.said, slot);
        note_row(&mut section.note, slot, &row);
        turn_row_read::<Brand>(&mut self.ledger, self.lane, section, slot, &row);
        row
    }

    #[inline(never)]
    fn flight_row(&mut self, section: &mut Section, flight: &Flight) -> Row {
        let row = row_in(&self.words, &self.said, flight.slot);
        note_flight(&mut section.note, flight.slot, &row);
        turn_row_read::<Brand>(&mut self.ledger, self.lane, section, flight.slot, &row);
        row
    }

    #[inline(never)]
    fn change_row(
        &mut self,
        section: &mut Section,
        slot: Slot,
        old: Row,
        op: Op,
        by: Maker,
    ) -> RowEnd {
        let row = row_in(&self.words, &self.said, slot);
        section.tried = true;
        if row.version != old.version {
            turn_row_moved::<Brand>(&mut self.ledger, self.lane, section, slot, &row);
            return RowEnd::Moved(row);
        }
        let entry = entry_by(slot, &row, &op, &by);
        change(
            &mut self.words,
            &mut self.said,
            &mut self.ledger,
            self.lane,
            section,
            &entry,
        );
        RowEnd::Done(entry)
    }

    fn load_depth(&mut self, section: &mut Section, slot: Slot) -> u32 {
        let depth = depth_in(&self.words, slot);
        note_depth(&mut section.note, slot, depth);
        turn_noted::<Brand>(&mut self.ledger, self.lane, section);
        depth
    }

    fn send(&mut self, section: &mut Section, slot: Slot, req: ReqId) -> Flight {
        let version = version_of(&section.note, slot);
        let flight = Flight {
            slot,
            version,
            req,
            lane: self.lane,
        };
        section.sent = true;
        send(
            &mut self.words,
            &mut self.ledger,
            self.lane,
            section,
            &flight,
        );
        flight
    }

    fn end(&mut self, flight: Flight) {
        land(&mut self.words, &mut self.ledger, self.lane, flight);
    }

    fn load_current(&mut self, section: &mut Section, node: Node) -> Option<Slot> {
        let current = current_in(&self.words, node);
        note_current(&mut section.note, &current);
        turn_noted::<Brand>(&mut self.ledger, self.lane, section);
        current
    }

    fn store_current(&mut self, section: &mut Section, node: Node, slot: Option<Slot>) {
        store(
            &mut self.words,
            &mut self.ledger,
            self.lane,
            section,
            node,
            slot,
        );
    }

    #[inline(never)]
    fn clear_current(&mut self, node: Node, slot: Slot) {
        clear(&mut self.words, &mut self.ledger, self.lane, node, slot);
    }
}
