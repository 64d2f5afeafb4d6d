//! Each kind of step of the keeper: one atomic step.

ghost use Rattle.std.specs.Prelude.{◌≡◌, ◌-◌, ◌<◌, ◌≤◌, Some};
ghost use Rattle.mp_core.specs.declared.view.Role.TheVariants as role;
ghost use Rattle.mp_core.specs.Kinds.{Looks, Flips, LoadsHeld, MayKeep, KeepsRow, StoresOrder, IsNext, LooksDepth, EmptiesCurrent, status_at};
ghost use Rattle.mp_table.specs.Known.{Stays};
ghost use Rattle.mp_table.specs.Passes.{core_by, known_by, table_of};

use crate::atoms::{keep_as, list_as, load_as, store_as};
use crate::shared::Shared;
use crate::token::Token;
use crate::unpack::row_of;
use mp_core::view::RowEnd;
use mp_plain::notes::entry_by;
use mp_words::entry::OrderEntry;
use mp_words::numbers::{LaneId, Node, Slot};
use mp_words::op::{Maker, Op};
use mp_words::row::Row;
use mp_words::words::Side;
use std::marker::Brand;

/// Looks at a side.
pub(crate) fn scan(shared: &Shared, token: &mut Token, lane: LaneId, side: u8) -> Side
    requires own { token.old.seat.table_id ≡ table_of shared.now }
    requires keeper { (known_by token.old).role ≡ role.Keeper }
    requires side { side < 2 }
    ensures own { token.new.seat.table_id ≡ token.old.seat.table_id }
    ensures stays { Stays (known_by token.old).left (known_by token.old) (known_by token.new) }
    ensures kind { Looks (core_by shared.now lane token.old) (core_by shared.now lane token.new) side result }
{
    let found = load_as::<Brand>(shared, &mut token.seat, 1, side as usize, lane);
    Side::unpack(found)
}

/// Stores a side in the side index, which is the other one.
pub(crate) fn flip(shared: &Shared, token: &mut Token, lane: LaneId, index: u8)
    requires own { token.old.seat.table_id ≡ table_of shared.now }
    requires keeper { (known_by token.old).role ≡ role.Keeper }
    requires other { index ≡ 1 - (known_by token.old).keeping.index }
    ensures own { token.new.seat.table_id ≡ token.old.seat.table_id }
    ensures role { (known_by token.new).role ≡ role.Keeper }
    ensures index { (known_by token.new).keeping.index ≡ index }
    ensures kind { Flips (core_by shared.now lane token.old) (core_by shared.now lane token.new) }
{
    store_as::<Brand>(shared, &mut token.seat, 0, 0, u64::from(index), lane);
}

/// Loads any row.
pub(crate) fn keeper_row(shared: &Shared, token: &mut Token, lane: LaneId, slot: Slot) -> Row
    requires own { token.old.seat.table_id ≡ table_of shared.now }
    requires keeper { (known_by token.old).role ≡ role.Keeper }
    ensures own { token.new.seat.table_id ≡ token.old.seat.table_id }
    ensures stays { Stays (known_by token.old).left (known_by token.old) (known_by token.new) }
    ensures kind { LoadsHeld (core_by shared.now lane token.old) (core_by shared.now lane token.new) slot result }
{
    let place = slot.get() as usize;
    row_of(load_as::<Brand>(shared, &mut token.seat, 4, place, lane))
}

/// Gives a free slot a path, marks a path for removal, or frees its slot, from the row that the last step loaded.
pub(crate) fn keep_row(
    shared: &Shared,
    token: &mut Token,
    lane: LaneId,
    slot: Slot,
    old: &Row,
    op: &Op,
    by: &Maker,
) -> RowEnd
    requires own { token.old.seat.table_id ≡ table_of shared.now }
    requires keeper { (known_by token.old).role ≡ role.Keeper }
    requires left { 1 ≤ (known_by token.old).left }
    requires held { (known_by token.old).keeping.last ≡ Some (record { slot = slot; row = old.now }) }
    requires may { MayKeep op.now (status_at slot (known_by token.old)) }
    ensures own { token.new.seat.table_id ≡ token.old.seat.table_id }
    ensures stays { Stays ((known_by token.old).left - 1) (known_by token.old) (known_by token.new) }
    ensures kind { KeepsRow (core_by shared.now lane token.old) (core_by shared.now lane token.new) slot old.now op.now by.now result }
{
    let place = slot.get() as usize;
    let entry = entry_by(slot, old, op, by);
    let from = old.pack();
    let to = entry.row.pack();
    let seat = &mut token.seat;
    let found = keep_as::<Brand>(shared, seat, 4, place, from, to, lane, old, op, by);
    token.left -= 1;
    if found == from {
        RowEnd::Done(entry)
    } else {
        RowEnd::Moved(row_of(found))
    }
}

/// Stores the next list of paths.
pub(crate) fn store_order(shared: &Shared, token: &mut Token, lane: LaneId, entry: &OrderEntry)
    requires own { token.old.seat.table_id ≡ table_of shared.now }
    requires keeper { (known_by token.old).role ≡ role.Keeper }
    requires left { 1 ≤ (known_by token.old).left }
    requires next { IsNext (known_by token.old) entry.now.order }
    ensures own { token.new.seat.table_id ≡ token.old.seat.table_id }
    ensures stays { Stays ((known_by token.old).left - 1) (known_by token.old) (known_by token.new) }
    ensures kind { StoresOrder (core_by shared.now lane token.old) (core_by shared.now lane token.new) entry.now }
{
    let to = entry.order.pack();
    list_as::<Brand>(shared, &mut token.seat, 3, 0, to, lane, entry);
    token.left -= 1;
}

/// Looks at the depth of a slot.
pub(crate) fn keeper_depth(shared: &Shared, token: &mut Token, lane: LaneId, slot: Slot) -> u32
    requires own { token.old.seat.table_id ≡ table_of shared.now }
    requires keeper { (known_by token.old).role ≡ role.Keeper }
    ensures own { token.new.seat.table_id ≡ token.old.seat.table_id }
    ensures stays { Stays (known_by token.old).left (known_by token.old) (known_by token.new) }
    ensures kind { LooksDepth (core_by shared.now lane token.old) (core_by shared.now lane token.new) slot result }
{
    let place = slot.get() as usize;
    load_as::<Brand>(shared, &mut token.seat, 19, place, lane) as u32
}

/// Makes a node's current word none.
pub(crate) fn keeper_current(shared: &Shared, token: &mut Token, lane: LaneId, node: Node)
    requires own { token.old.seat.table_id ≡ table_of shared.now }
    ensures own { token.new.seat.table_id ≡ token.old.seat.table_id }
    ensures stays { Stays (known_by token.old).left (known_by token.old) (known_by token.new) }
    ensures kind { EmptiesCurrent (core_by shared.now lane token.old) (core_by shared.now lane token.new) node }
{
    let place = node.get() as usize;
    store_as::<Brand>(shared, &mut token.seat, 34, place, 0, lane);
}
