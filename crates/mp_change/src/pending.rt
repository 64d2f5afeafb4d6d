//! What a failover does to its path.

ghost use Rattle.std.specs.Prelude.{◌≡◌, ◌≤◌, ◌<◌, true, false, length, None, Some};
ghost use Rattle.mp_core.specs.Notes.{ReadsAlone};
ghost use Rattle.mp_core.specs.Views.{has_flight};
ghost use Rattle.mp_core.specs.Reads.{IsOpen};
ghost use Rattle.mp_change.specs.Pending.{MarksPending, DropsCurrent, Pends};

use crate::change::make_change;
use crate::clear::clear_slot;
use mp_core::gate::Gate;
use mp_core::section::begin;
use mp_core::steps::Steps;
use mp_core::view::{RowEnd, Section};
use mp_words::entry::RowEntry;
use mp_words::flight::Flight;
use mp_words::note::Note;
use mp_words::op::{Maker, Op};
use mp_words::row::Row;

/// How setting pending ended.
#[derive(Clone, Copy)]
pub enum PendingEnd {
    /// Pending was set.
    Set(RowEntry),
    /// The controller of the row that was read doesn't report ANA.
    NoAna(Row),
    /// Another change came between: the row that was found in place of the one read, of a greater version.
    Moved(Row),
}

/// How setting pending ended, with the note of its section.
#[derive(Clone, Copy)]
pub struct PendingDone {
    pub end: PendingEnd,
    pub note: Note,
}

/// Sets pending where the path has ANA, and clears the current words that name it.
fn pend<S: Steps>(steps: &mut S, section: &mut Section, flight: &Flight, by: Maker) -> PendingEnd
    requires open { IsOpen (S.core steps.old) section.old }
    requires flies { has_flight flight.now (S.core steps.old).view ≡ true }
    requires alone { ReadsAlone flight.now.slot section.old.note }
    requires places { length section.old.note.read ≡ 8 }
    requires once { section.old.tried ≡ false }
    ensures { Pends flight.now.slot by (S.core steps.old) (S.core steps.new) section.old section.new result }
{
    let row = steps.flight_row(section, flight);
    let ana = row.ana;
    if ana {
        match make_change(steps, section, flight.slot, row, Op::Pending, by) {
            RowEnd::Done(entry) => PendingEnd::Set(entry),
            RowEnd::Moved(found) => PendingEnd::Moved(found),
        }
    } else {
        clear_slot(steps, flight.slot);
        PendingEnd::NoAna(row)
    }
}

/// Sets pending on a flight's path, where its controller reports ANA, in a section of its own, and makes none of each
/// node's current path that is this one. At least one unit is left, no section is open, and the flight is this pass's.
///
/// - `NoAna` comes exactly where the row that was read has ana off; the current paths are cleared all the same.
/// - `Moved` comes exactly where the row at the change wasn't the one that was read, and changes nothing.
pub fn mark_pending<S: Steps, G: Gate>(
    steps: &mut S,
    gate: &G,
    flight: &Flight,
    by: Maker,
) -> PendingDone
    requires left { 1 ≤ (S.core steps.old).view.left }
    requires closed { (S.core steps.old).view.inside ≡ None }
    requires flies { has_flight flight.now (S.core steps.old).view ≡ true }
    ensures { MarksPending flight.now.slot by (S.core steps.old) (S.core steps.new) result.end result.note }
{
    let mut section = begin(steps, gate);
    let end = pend(steps, &mut section, flight, by);
    let note = steps.leave(section);
    PendingDone { end, note }
}

/// Makes none of each node's current path that is a flight's path, in a section of its own, and changes no row. At least
/// one unit is left, and no section is open.
pub fn drop_current<S: Steps, G: Gate>(steps: &mut S, gate: &G, flight: &Flight) -> Note
    requires left { 1 ≤ (S.core steps.old).view.left }
    requires closed { (S.core steps.old).view.inside ≡ None }
    ensures { DropsCurrent flight.now.slot (S.core steps.old) (S.core steps.new) result }
{
    let section = begin(steps, gate);
    clear_slot(steps, flight.slot);
    steps.leave(section)
}
