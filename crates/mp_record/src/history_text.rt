//! The text of the rows' and the order's versions.

ghost use Rattle.std.specs.Prelude.{◌≡◌, ◌++◌, OnOk};
ghost use Rattle.std.specs.List.{flat_map};
ghost use Rattle.mp_words.specs.Order.{slots_of};
ghost use Rattle.mp_record.specs.RunText.{head_line, row_line, is_written, order_line};
ghost use Rattle.mp_record.specs.NotedText.{written_row, written_rows, noted_keep};

use crate::note_text::put_closing;
use crate::words::{put_maker, put_one, put_path, put_slots, put_two};
use mp_topology::topology::Topology;
use mp_words::entry::{KeepEntry, OrderEntry, RowEntry};
use mp_words::names::policy_name;
use mp_words::numbers::Slot;
use mp_words::order::Order;
use sqlite_items::Items;
use std::alloc::AllocError;

/// The line of the namespace and the opening policy.
pub(crate) fn put_head(text: &mut Vec<u8>, topology: &Topology) -> Result<(), AllocError>
    ensures { OnOk result (text.new.items ≡ text.old.items ++ head_line topology.now) }
{
    put_one(text, "head", topology.nsid)?;
    text.extend_from_slice(b" ")?;
    text.extend_from_slice(policy_name(topology.policy).as_bytes())?;
    text.extend_from_slice(b"\n")
}

/// The line of a version of a row.
fn put_row(text: &mut Vec<u8>, topology: &Topology, entry: &RowEntry) -> Result<(), AllocError>
    ensures { OnOk result (text.new.items ≡ text.old.items ++ row_line topology.now entry.now) }
{
    put_two(text, "row", entry.slot.get(), entry.row.version)?;
    text.extend_from_slice(b" ")?;
    put_maker(text, entry.by)?;
    text.extend_from_slice(b" ")?;
    put_path(text, topology, entry.row)?;
    text.extend_from_slice(b"\n")
}

/// Whether a version of a row is written: each is, but a free one of the opening.
fn is_shown(entry: &RowEntry) -> bool
    ensures { result ≡ is_written entry.now }
{
    !(entry.row.state == 0 && entry.row.version == 0)
}

/// The line of a version of a row, where it is written.
fn put_version(text: &mut Vec<u8>, topology: &Topology, entry: &RowEntry) -> Result<(), AllocError>
    ensures { OnOk result (text.new.items ≡ text.old.items ++ written_row topology.now entry.now) }
{
    if is_shown(entry) {
        return put_row(text, topology, entry);
    }
    Ok(())
}

/// The lines of the versions of one slot's row.
fn put_slot(text: &mut Vec<u8>, topology: &Topology, entries: &[RowEntry]) -> Result<(), AllocError>
    ensures { OnOk result (text.new.items ≡ text.old.items ++ written_rows topology.now entries.now) }
{
    for entry in entries {
        put_version(text, topology, entry)?;
    }
    Ok(())
}

/// The lines of the versions of all rows.
pub(crate) fn put_rows(
    text: &mut Vec<u8>,
    topology: &Topology,
    rows: &[Items<RowEntry>],
) -> Result<(), AllocError>
    ensures { OnOk result (text.new.items ≡ text.old.items ++ flat_map (written_rows topology.now) rows.now) }
{
    for entries in rows {
        put_slot(text, topology, entries.as_slice())?;
    }
    Ok(())
}

/// The slots that an order lists.
fn listed(order: &Order) -> &[Slot]
    ensures { result.now ≡ slots_of order.now }
{
    if order.len < 8 {
        &order.slots[..order.len as usize]
    } else {
        &order.slots[..]
    }
}

/// The line of a version of the order.
fn put_order(text: &mut Vec<u8>, entry: &OrderEntry) -> Result<(), AllocError>
    ensures { OnOk result (text.new.items ≡ text.old.items ++ order_line entry.now) }
{
    put_one(text, "order", entry.order.version)?;
    text.extend_from_slice(b" ")?;
    put_maker(text, entry.by)?;
    text.extend_from_slice(b" ")?;
    text.extend_from_slice(policy_name(entry.order.policy).as_bytes())?;
    text.extend_from_slice(b" ")?;
    put_slots(text, listed(&entry.order))?;
    text.extend_from_slice(b"\n")
}

/// The line of what the keeper made; a closing has one only with the notes.
fn put_kept(text: &mut Vec<u8>, notes: bool, entry: &KeepEntry) -> Result<(), AllocError>
    ensures { OnOk result (text.new.items ≡ text.old.items ++ noted_keep notes entry.now) }
{
    match entry {
        KeepEntry::Order(entry) => put_order(text, entry),
        KeepEntry::Closing(closing) => {
            if notes {
                return put_closing(text, *closing);
            }
            Ok(())
        }
    }
}

/// The lines of what the keeper made.
pub(crate) fn put_keeping(
    text: &mut Vec<u8>,
    notes: bool,
    keeping: &[KeepEntry],
) -> Result<(), AllocError>
    ensures { OnOk result (text.new.items ≡ text.old.items ++ flat_map (noted_keep notes) keeping.now) }
{
    for entry in keeping {
        put_kept(text, notes, entry)?;
    }
    Ok(())
}
