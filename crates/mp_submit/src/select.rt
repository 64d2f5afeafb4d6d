//! How a section that has read the order selects a path.

ghost use Rattle.std.specs.Prelude.{◌≡◌, ◌<◌, ◌≤◌, Some, None, false, replicate, slice_index_or};
ghost use Rattle.mp_words.specs.Effect.{free_row};
ghost use Rattle.mp_core.specs.Reads.{IsOpen, IsNote, IsOrdered};
ghost use Rattle.mp_submit.specs.Choice.{ReadsFor};
ghost use Rattle.mp_submit.specs.Selects.{LoadsDepths, ReadsAll, Selects};

use crate::choose::choose;
use mp_core::section::{load_rows, slot_at};
use mp_core::steps::Steps;
use mp_core::view::Section;
use mp_words::near::Near;
use mp_words::numbers::{Node, Slot};
use mp_words::order::Order;
use mp_words::row::{Policy, Row};

/// The row at a place.
fn row_at(rows: &[Row; 8], place: usize) -> Row
    requires { place < 8 }
    ensures { result ≡ slice_index_or rows.now place (free_row 0) }
{
    rows[place]
}

/// Loads the depths of the slots whose rows are usable, in list order.
fn load_depths<S: Steps>(steps: &mut S, section: &mut Section)
    requires open { IsOpen (S.core steps.old) section.old }
    requires note { IsNote section.old.note }
    requires depths { section.old.note.depths ≡ replicate 8 None }
    ensures { LoadsDepths section.old.note.reading.len (S.core steps.old) (S.core steps.new) section.old section.new }
{
    for place in 0..usize::from(section.note.reading.len) {
        let row = row_at(&section.note.reading.rows, place);
        let is_usable = row.usable();
        if is_usable {
            let slot = slot_at(&section.note.reading.slots, place);
            steps.load_depth(section, slot);
        }
    }
}

/// Loads all that a policy looks at.
fn read_all<S: Steps>(steps: &mut S, section: &mut Section, node: Node, order: &Order)
    requires open { IsOpen (S.core steps.old) section.old }
    requires ordered { IsOrdered section.old order.now }
    ensures all { ReadsAll order.now.policy node (S.core steps.old) (S.core steps.new) section.old section.new }
    ensures just { ReadsFor order.now.policy section.new.note }
{
    match order.policy {
        Policy::Numa => load_rows(steps, section),
        Policy::RoundRobin => {
            steps.load_current(section, node);
            load_rows(steps, section);
        }
        Policy::QueueDepth => {
            load_rows(steps, section);
            load_depths(steps, section);
        }
    }
}

/// Selects a path by the policy, from all listed rows.
pub(crate) fn select<S: Steps>(
    steps: &mut S,
    section: &mut Section,
    near: &Near,
    node: Node,
    order: &Order,
) -> Option<Slot>
    requires open { IsOpen (S.core steps.old) section.old }
    requires ordered { IsOrdered section.old order.now }
    ensures { Selects near.now node order.now (S.core steps.old) (S.core steps.new) section.old section.new result }
{
    read_all(steps, section, node, order);
    choose(near, node, order.policy, &section.note)
}
