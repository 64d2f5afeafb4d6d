//! A path is added.

ghost use Rattle.std.specs.Prelude.{◌≡◌, ◌≤◌, ◌<◌, None, Some};
ghost use Rattle.mp_words.specs.Effect.{IsState};
ghost use Rattle.mp_keep.specs.Keeper.{StandsTo};
ghost use Rattle.mp_keep.specs.Keeps.{Adds, AddsIn, free_slot};

use crate::add_error::AddError;
use crate::added::Added;
use crate::keep::{clear_given, keep, made_by, store};
use crate::keeper::Keeper;
use crate::orders::with_slot;
use mp_core::steps::KeeperSteps;
use mp_words::entry::{OrderEntry, RowEntry};
use mp_words::numbers::Slot;
use mp_words::op::{Gift, Maker, Op};

impl Keeper {
    /// Adds a path: the least free slot is given its row, and is listed last. No section is open, at least 2 units are
    /// left, and there is room for 80 entries. The ANA state is from 1 to 15. It takes no memory.
    ///
    /// # Errors
    ///
    /// In this order, and each exactly where it says; nothing is done then.
    ///
    /// - `Already` where the controller has a slot, which isn't freed yet.
    /// - `NoSlot` where no slot is free.
    /// - `OrderFull` where eight paths are listed.
    pub fn add<S: KeeperSteps>(
        &mut self,
        steps: &mut S,
        gift: Gift,
        by: Maker,
    ) -> Result<Added, AddError>
        requires left { 2 ≤ (S.core steps.old).view.left }
        requires closed { (S.core steps.old).view.inside ≡ None }
        requires spare { 80 ≤ self.old.spare }
        requires stands { StandsTo self.old (S.core steps.old).view }
        requires state { IsState gift.state }
        ensures { Adds self.old self.new (S.core steps.old) (S.core steps.new) gift by result }
    {
        match self.slot_with(gift.ctrl) {
            Some(slot) => Err(AddError::Already(slot)),
            None => match self.free_slot() {
                None => Err(AddError::NoSlot),
                Some(slot) => {
                    if self.is_full() {
                        Err(AddError::OrderFull)
                    } else {
                        Ok(self.give(steps, slot, gift, by))
                    }
                }
            },
        }
    }

    /// Gives the path to a free slot, and lists it last.
    fn give<S: KeeperSteps>(&mut self, steps: &mut S, slot: Slot, gift: Gift, by: Maker) -> Added
        requires left { 2 ≤ (S.core steps.old).view.left }
        requires spare { 80 ≤ self.old.spare }
        requires stands { StandsTo self.old (S.core steps.old).view }
        requires state { IsState gift.state }
        requires free { free_slot self.old ≡ Some slot }
        requires room { self.old.order.len < 8 }
        ensures { AddsIn self.old self.new (S.core steps.old) (S.core steps.new) gift by slot result }
    {
        let order = self.list();
        let ctrl = gift.ctrl;
        let row = keep(steps, slot, Op::Give(gift), &by);
        let order = with_slot(&order, slot);
        let entry = made_by(&order, &by);
        store(steps, &entry);
        clear_given(steps, &row);
        self.own(slot, Some(ctrl));
        self.take_order(&entry);
        added(&row, &entry)
    }
}

/// A path that was added, with this row and this list of paths.
fn added(row: &RowEntry, order: &OrderEntry) -> Added
    ensures { result ≡ record { row = row.now; order = order.now } }
{
    let _: Option<Slot> = None;
    Added {
        row: *row,
        order: *order,
    }
}
