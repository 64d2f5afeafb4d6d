//! What each load adds to a note.

ghost use Rattle.std.specs.Prelude.{◌≡◌, ◌≤◌, ◌<◌};
ghost use Rattle.mp_words.specs.Places.{place_in};
ghost use Rattle.mp_words.specs.Effect.{row_after};
ghost use Rattle.mp_core.specs.Kinds.{Changes, entry_of};
ghost use Rattle.mp_core.specs.Notes.{row_of, blank_note, order_noted, row_noted, flight_noted, depth_noted, current_noted};

use mp_words::effect::{effect, free_row};
use mp_words::entry::RowEntry;
use mp_words::note::Note;
use mp_words::numbers::{LaneId, Slot};
use mp_words::op::{Effect, Maker, Op};
use mp_words::order::Order;
use mp_words::reading::Reading;
use mp_words::row::Row;
use mp_words::slots::place_at;

/// The note of a section as it is entered.
pub fn blank(lane: LaneId, side: u8, ticket: u32) -> Note
    ensures { result ≡ blank_note lane side ticket }
{
    let zero = Slot::make(0).unwrap();
    Note {
        lane,
        side,
        ticket,
        order: None,
        reading: Reading {
            len: 0,
            slots: [zero; 8],
            rows: [free_row(0); 8],
        },
        read: [false; 8],
        current: None,
        depths: [None; 8],
    }
}

/// The order was loaded.
pub fn note_order(note: &mut Note, order: &Order)
    ensures { note.new ≡ order_noted order.now note.old }
{
    note.order = Some(*order);
    note.reading = Reading {
        len: order.len,
        slots: order.slots,
        rows: [free_row(0); 8],
    };
    note.read = [false; 8];
}

/// The row of a slot was loaded.
pub fn note_row(note: &mut Note, slot: Slot, row: &Row)
    requires within { note.old.reading.len ≤ 8 }
    requires listed { place_in slot note.old.reading < note.old.reading.len }
    ensures { note.new ≡ row_noted slot row.now note.old }
{
    let place = place_at(&note.reading.slots, note.reading.len, slot);
    note.reading.rows[place] = *row;
    note.read[place] = true;
}

/// The row of a flight's slot was loaded.
pub fn note_flight(note: &mut Note, slot: Slot, row: &Row)
    ensures { note.new ≡ flight_noted slot row.now note.old }
{
    let mut slots = [Slot::make(0).unwrap(); 8];
    slots[0] = slot;
    let mut rows = [free_row(0); 8];
    rows[0] = *row;
    let mut read = [false; 8];
    read[0] = true;
    note.reading = Reading {
        len: 1,
        slots,
        rows,
    };
    note.read = read;
}

/// A depth was loaded.
pub fn note_depth(note: &mut Note, slot: Slot, depth: u32)
    requires within { note.old.reading.len ≤ 8 }
    requires listed { place_in slot note.old.reading < note.old.reading.len }
    ensures { note.new ≡ depth_noted slot depth note.old }
{
    let place = place_at(&note.reading.slots, note.reading.len, slot);
    note.depths[place] = Some(depth);
}

/// A current word was loaded.
pub fn note_current(note: &mut Note, current: &Option<Slot>)
    ensures { note.new ≡ current_noted current.now note.old }
{
    note.current = Some(*current);
}

/// The version of the row that the note has of a listed slot.
pub fn version_of(note: &Note, slot: Slot) -> u32
    requires within { note.now.reading.len ≤ 8 }
    requires listed { place_in slot note.now.reading < note.now.reading.len }
    ensures { result ≡ (row_of slot note.now).version }
{
    let place = place_at(&note.reading.slots, note.reading.len, slot);
    note.reading.rows[place].version
}

/// What a changing operation makes of a row.
fn changed_row(old: &Row, op: &Op) -> Row
    requires changes { Changes old.now op.now }
    requires below { old.now.version < 1073741824 }
    ensures { result ≡ row_after old.now op.now }
{
    match effect(*old, *op) {
        Effect::Changed(row) => row,
        Effect::Refused(_) => *old,
        Effect::NotArmed => *old,
    }
}

/// The entry of a changing operation.
pub fn entry_by(slot: Slot, old: &Row, op: &Op, by: &Maker) -> RowEntry
    requires changes { Changes old.now op.now }
    requires below { old.now.version < 1073741824 }
    ensures { result ≡ entry_of slot old.now op.now by.now }
{
    RowEntry {
        slot,
        row: changed_row(old, op),
        op: *op,
        by: *by,
    }
}
