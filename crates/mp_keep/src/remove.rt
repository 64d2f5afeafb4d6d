//! A path's removal begins.

ghost use Rattle.std.specs.Prelude.{◌≡◌, ◌≤◌, None, Some};
ghost use Rattle.mp_keep.specs.Keeper.{StandsTo};
ghost use Rattle.mp_keep.specs.Keeps.{Removes, MarksTo, IsPath};

use crate::keeper::Keeper;
use crate::remove_error::RemoveError;
use mp_core::steps::KeeperSteps;
use mp_core::view::RowEnd;
use mp_words::entry::RowEntry;
use mp_words::numbers::{Ctrl, Slot};
use mp_words::op::{Maker, Op};

impl Keeper {
    /// Begins the removal of a controller's path: its row is marked. No section is open, at least one unit is left, and
    /// there is room for 80 entries. It takes no memory.
    ///
    /// # Errors
    ///
    /// - `NoPath`, with the list of paths, exactly where the controller has no path that isn't under removal; nothing
    ///   is done then.
    /// - `Moved` exactly where the row changed between its load and the mark, which then does nothing. Where no lane is
    ///   out it doesn't.
    pub fn remove<S: KeeperSteps>(
        &mut self,
        steps: &mut S,
        ctrl: Ctrl,
        by: Maker,
    ) -> Result<RowEntry, RemoveError>
        requires left { 1 ≤ (S.core steps.old).view.left }
        requires closed { (S.core steps.old).view.inside ≡ None }
        requires spare { 80 ≤ self.old.spare }
        requires stands { StandsTo self.old (S.core steps.old).view }
        ensures { Removes self.old self.new (S.core steps.old) (S.core steps.new) ctrl by result }
    {
        match self.path_slot(ctrl) {
            None => Err(RemoveError::NoPath(self.list())),
            Some(slot) => self.mark(steps, slot, by),
        }
    }

    /// Marks a listed slot.
    fn mark<S: KeeperSteps>(
        &mut self,
        steps: &mut S,
        slot: Slot,
        by: Maker,
    ) -> Result<RowEntry, RemoveError>
        requires left { 1 ≤ (S.core steps.old).view.left }
        requires spare { 80 ≤ self.old.spare }
        requires stands { StandsTo self.old (S.core steps.old).view }
        requires path { IsPath self.old slot }
        ensures { MarksTo self.old self.new (S.core steps.old) (S.core steps.new) slot by result }
    {
        let old = steps.keeper_row(slot);
        match steps.keep_row(slot, old, Op::Mark, by) {
            RowEnd::Done(entry) => {
                self.begin(slot, entry.row.version);
                Ok(entry)
            }
            RowEnd::Moved(row) => Err(RemoveError::Moved(row)),
        }
    }
}
