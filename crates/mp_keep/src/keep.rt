//! One row that the keeper changes.

ghost use Rattle.std.specs.Prelude.{◌≡◌, ◌≤◌};
ghost use Rattle.mp_words.specs.declared.op.Op.TheVariants as kind;
ghost use Rattle.mp_words.specs.Effect.{clears_of};
ghost use Rattle.mp_core.specs.Core.{stepped};
ghost use Rattle.mp_core.specs.Kinds.{MayKeep, IsNext, StoresOrder, status_at};
ghost use Rattle.mp_change.specs.Clears.{clears_in, clears_view};
ghost use Rattle.mp_keep.specs.Keeps.{KeepsOne, IsGive};

use crate::clear::{clear_all, clear_slot};
use mp_core::steps::KeeperSteps;
use mp_core::view::RowEnd;
use mp_words::entry::{OrderEntry, RowEntry};
use mp_words::numbers::Slot;
use mp_words::op::{Maker, Op};
use mp_words::order::Order;
use mp_words::states::OPTIMIZED;

/// Gives a free slot a path, or frees one: it loads the row, which nobody else can change, and changes it.
pub(crate) fn keep<S: KeeperSteps>(steps: &mut S, slot: Slot, op: Op, by: &Maker) -> RowEntry
    requires left { 1 ≤ (S.core steps.old).view.left }
    requires may { MayKeep op (status_at slot (S.core steps.old).view) }
    requires own { op ≡ kind.Mark → ⊥ }
    ensures { KeepsOne (S.core steps.old) (S.core steps.new) slot op by.now result }
{
    let old = steps.keeper_row(slot);
    match steps.keep_row(slot, old, op, *by) {
        RowEnd::Done(entry) => entry,
        RowEnd::Moved(_) => unreachable!(),
    }
}

/// Clears the current words that the keeper's gift of a path clears.
pub(crate) fn clear_given<S: KeeperSteps>(steps: &mut S, entry: &RowEntry)
    requires { IsGive entry.now.op }
    ensures { S.core steps.new ≡ stepped (clears_view (clears_of entry.now.op entry.now.row) entry.now.slot) (clears_in (clears_of entry.now.op entry.now.row) entry.now.slot) (S.core steps.old) }
{
    let state = entry.row.state;
    if entry.row.enabled() && state == OPTIMIZED {
        clear_all(steps);
    } else {
        clear_slot(steps, entry.slot);
    }
}

/// Stores the next list of paths.
pub(crate) fn store<S: KeeperSteps>(steps: &mut S, entry: &OrderEntry)
    requires left { 1 ≤ (S.core steps.old).view.left }
    requires next { IsNext (S.core steps.old).view entry.now.order }
    ensures { StoresOrder (S.core steps.old) (S.core steps.new) entry.now }
{
    steps.store_order(copied(entry));
}

/// The same entry.
pub(crate) fn copied(entry: &OrderEntry) -> OrderEntry
    ensures { result ≡ entry.now }
{
    let _: Option<Slot> = None;
    *entry
}

/// The entry of a list of paths.
pub(crate) fn made_by(order: &Order, by: &Maker) -> OrderEntry
    ensures { result ≡ record { order = order.now; by = by.now } }
{
    let _: Option<Slot> = None;
    OrderEntry {
        order: *order,
        by: *by,
    }
}
