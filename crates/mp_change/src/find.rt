//! The first listed path of a controller.

ghost use Rattle.std.specs.Prelude.{◌≡◌, ◌≢◌, None};
ghost use Rattle.mp_core.specs.Reads.{IsOpen, IsNote};
ghost use Rattle.mp_change.specs.Finds.{Finds, is_of};

use mp_core::section::slot_at;
use mp_core::steps::Steps;
use mp_core::view::Section;
use mp_words::numbers::{Ctrl, Slot};
use mp_words::row::Row;

/// A slot with its row.
#[derive(Clone, Copy)]
pub struct Found {
    pub slot: Slot,
    pub row: Row,
}

/// Whether the row is the controller's.
fn is_of(row: &Row, ctrl: Ctrl) -> bool
    ensures { result ≡ is_of ctrl row.now }
{
    row.ctrl.get() == ctrl.get()
}

/// Loads rows in list order, up to the first that is the controller's.
pub(crate) fn find_path<S: Steps>(steps: &mut S, section: &mut Section, ctrl: Ctrl) -> Option<Found>
    requires open { IsOpen (S.core steps.old) section.old }
    requires note { IsNote section.old.note }
    requires ordered { section.old.note.order ≢ None }
    ensures { Finds ctrl (S.core steps.old) (S.core steps.new) section.old section.new result }
{
    for place in 0..usize::from(section.note.reading.len) {
        let slot = slot_at(&section.note.reading.slots, place);
        let row = steps.load_row(section, slot);
        if is_of(&row, ctrl) {
            return Some(Found { slot, row });
        }
    }
    None
}
