//! How a section begins, and how it reads all rows.

ghost use Rattle.std.specs.Prelude.{◌≡◌, ◌≢◌, ◌≤◌, ◌<◌, None, slice_index};
ghost use Rattle.mp_core.specs.Reads.{Begins, IsOpen, IsNote, LoadsRows};

use crate::gate::Gate;
use crate::steps::Steps;
use crate::view::Section;
use mp_words::numbers::Slot;

/// Enters a section on the side of the index.
pub fn begin<S: Steps, G: Gate>(steps: &mut S, gate: &G) -> Section
    requires left { 1 ≤ (S.core steps.old).view.left }
    requires closed { (S.core steps.old).view.inside ≡ None }
    ensures { Begins (S.core steps.old) (S.core steps.new) result }
{
    let side = steps.load_side();
    let section = steps.enter(side);
    let lane = steps.lane();
    gate.inside(lane);
    section
}

/// The slot at a place.
pub fn slot_at(slots: &[Slot; 8], place: usize) -> Slot
    requires { place < 8 }
    ensures { result ≡ slice_index slots.now place }
{
    slots[place]
}

/// Loads the rows of all listed slots, in list order.
pub fn load_rows<S: Steps>(steps: &mut S, section: &mut Section)
    requires open { IsOpen (S.core steps.old) section.old }
    requires note { IsNote section.old.note }
    requires ordered { section.old.note.order ≢ None }
    ensures { LoadsRows section.old.note.reading.len (S.core steps.old) (S.core steps.new) section.old section.new }
{
    for place in 0..usize::from(section.note.reading.len) {
        let slot = slot_at(&section.note.reading.slots, place);
        steps.load_row(section, slot);
    }
}
