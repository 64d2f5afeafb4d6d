//! The text of a section, and of a look of a grace period.

ghost use Rattle.std.specs.Prelude.{◌≡◌, ◌++◌, OnOk, zip, filter_map};
ghost use Rattle.std.specs.List.{items_where_true};
ghost use Rattle.mp_line.specs.Words.{list_word};
ghost use Rattle.mp_record.specs.NoteText.{order_word, row_word, current_word, depth_word, loaded_depth, moved_word, read_words, section_line, closing_line};

use crate::words::{
    grace_name, put_comma, put_dash, put_maker, put_one, put_pair, put_three, put_two,
};
use mp_line::digits::put_number;
use mp_words::entry::Closing;
use mp_words::note::Note;
use mp_words::numbers::Slot;
use mp_words::order::Order;
use mp_words::row::Row;
use std::alloc::AllocError;

/// The version of the order that was read, or a dash.
fn put_order_version(text: &mut Vec<u8>, order: Option<Order>) -> Result<(), AllocError>
    ensures { OnOk result (text.new.items ≡ text.old.items ++ order_word order) }
{
    match order {
        None => text.extend_from_slice(b"-"),
        Some(order) => put_number(text, order.version),
    }
}

/// The slots whose rows were loaded, with the versions, or a dash.
fn put_rows(
    text: &mut Vec<u8>,
    read: &[bool; 8],
    slots: &[Slot; 8],
    rows: &[Row; 8],
) -> Result<(), AllocError>
    ensures { OnOk result (text.new.items ≡ text.old.items ++ list_word row_word (items_where_true read.now (zip slots.now rows.now))) }
{
    let mut further = false;
    for (i, on) in read.iter().enumerate() {
        let slot = slots[i].get();
        let row = rows[i];
        if *on {
            put_comma(text, further)?;
            put_pair(text, slot, row.version)?;
            further = true;
        }
    }
    put_dash(text, further)
}

/// The current path that was read, or a dash.
fn put_current(text: &mut Vec<u8>, current: Option<Option<Slot>>) -> Result<(), AllocError>
    ensures { OnOk result (text.new.items ≡ text.old.items ++ current_word current) }
{
    match current {
        None => text.extend_from_slice(b"-"),
        Some(None) => text.extend_from_slice(b"none"),
        Some(Some(slot)) => put_number(text, slot.get()),
    }
}

/// The slots whose depths were loaded, with the depths, or a dash.
fn put_depths(
    text: &mut Vec<u8>,
    slots: &[Slot; 8],
    depths: &[Option<u32>; 8],
) -> Result<(), AllocError>
    ensures { OnOk result (text.new.items ≡ text.old.items ++ list_word depth_word (filter_map loaded_depth (zip slots.now depths.now))) }
{
    let mut further = false;
    for (i, slot) in slots.iter().enumerate() {
        let slot = slot.get();
        if let Some(depth) = depths[i] {
            put_comma(text, further)?;
            put_pair(text, slot, depth)?;
            further = true;
        }
    }
    put_dash(text, further)
}

/// The slot and the version of another row that was met, where one was.
fn put_moved(text: &mut Vec<u8>, moved: Option<(Slot, u32)>) -> Result<(), AllocError>
    ensures { OnOk result (text.new.items ≡ text.old.items ++ moved_word moved) }
{
    match moved {
        None => Ok(()),
        Some((slot, version)) => put_two(text, " moved", slot.get(), version),
    }
}

/// What a section read: the order's version, the rows, the current path and the depths.
fn put_read(text: &mut Vec<u8>, note: &Note) -> Result<(), AllocError>
    ensures { OnOk result (text.new.items ≡ text.old.items ++ read_words note.now) }
{
    let reading = note.reading;
    put_order_version(text, note.order)?;
    text.extend_from_slice(b" ")?;
    put_rows(text, &note.read, &reading.slots, &reading.rows)?;
    text.extend_from_slice(b" ")?;
    put_current(text, note.current)?;
    text.extend_from_slice(b" ")?;
    put_depths(text, &reading.slots, &note.depths)
}

/// The line of a section.
pub(crate) fn put_section(
    text: &mut Vec<u8>,
    note: &Note,
    moved: Option<(Slot, u32)>,
) -> Result<(), AllocError>
    ensures { OnOk result (text.new.items ≡ text.old.items ++ section_line note.now moved) }
{
    put_two(text, "sec", u32::from(note.side), note.ticket)?;
    text.extend_from_slice(b" ")?;
    put_read(text, note)?;
    put_moved(text, moved)?;
    text.extend_from_slice(b"\n")
}

/// The line of a look of a grace period that found nobody.
pub(crate) fn put_closing(text: &mut Vec<u8>, closing: Closing) -> Result<(), AllocError>
    ensures { OnOk result (text.new.items ≡ text.old.items ++ closing_line closing) }
{
    let grace = grace_name(closing.grace);
    let side = u32::from(closing.side);
    put_one(text, "closing", closing.slot.get())?;
    text.extend_from_slice(b" ")?;
    put_three(text, grace, side, closing.entries, closing.order)?;
    text.extend_from_slice(b" ")?;
    put_number(text, closing.mark)?;
    text.extend_from_slice(b" ")?;
    put_maker(text, closing.by)?;
    text.extend_from_slice(b"\n")
}
