//! A row change of a controller's path.

ghost use Rattle.std.specs.Prelude.{◌≡◌, ◌≤◌, ◌<◌, true, false, None, option_map};
ghost use Rattle.mp_words.specs.Effect.{clears_of, effect_of};
ghost use Rattle.mp_core.specs.declared.view.Seen.{Seen};
ghost use Rattle.mp_core.specs.Notes.{HasRow};
ghost use Rattle.mp_core.specs.Kinds.{IsLaneOp, Changes, MayReach};
ghost use Rattle.mp_core.specs.Reads.{IsOpen, IsOrdered};
ghost use Rattle.mp_change.specs.Clears.{clears_view, clears_in};
ghost use Rattle.mp_change.specs.Changes.{MakesChange, ChangesPath, ChangesFound, ChangesOne, IsLineOp};

use crate::clear::{clear_all, clear_slot};
use crate::find::find_path;
use mp_core::gate::Gate;
use mp_core::section::begin;
use mp_core::steps::Steps;
use mp_core::view::{RowEnd, Section};
use mp_words::effect::effect;
use mp_words::entry::RowEntry;
use mp_words::note::Note;
use mp_words::numbers::{Ctrl, Slot};
use mp_words::op::{Effect, Maker, Op};
use mp_words::order::Order;
use mp_words::row::Row;
use mp_words::states::OPTIMIZED;

/// How a row change ended.
#[derive(Clone, Copy)]
pub enum ChangeEnd {
    /// The row was changed.
    Changed(RowEntry),
    /// The controller may not go where the operation takes it: the slot, and the row that was read.
    Refused(Slot, Row),
    /// No transition timeout was armed: the slot, and the row that was read.
    NotArmed(Slot, Row),
    /// No listed path is the controller's, by the list that was read.
    NoPath(Order),
    /// Another change came between: the slot, and the row that was found in place of the one read, of a greater version.
    Moved(Slot, Row),
}

/// How a row change ended, with the note of its section.
#[derive(Clone, Copy)]
pub struct Changing {
    pub end: ChangeEnd,
    pub note: Note,
}

/// Clears the current words that a lane's row change clears.
fn clear<S: Steps>(steps: &mut S, section: &mut Section, entry: &RowEntry)
    requires open { IsOpen (S.core steps.old) section.old }
    requires op { IsLaneOp entry.now.op }
    ensures section { section.new ≡ section.old }
    ensures core { S.core steps.new ≡ record (S.core steps.old) { view = clears_view (clears_of entry.now.op entry.now.row) entry.now.slot (S.core steps.old).view; told = option_map (clears_in (clears_of entry.now.op entry.now.row) entry.now.slot) (S.core steps.old).told } }
{
    let state = entry.row.state;
    if entry.row.enabled() && state == OPTIMIZED {
        clear_all(steps, section);
    } else {
        clear_slot(steps, entry.slot);
    }
}

/// Makes a row change from a row that the section loaded, and clears the current words that it clears.
pub(crate) fn make_change<S: Steps>(
    steps: &mut S,
    section: &mut Section,
    slot: Slot,
    old: Row,
    op: Op,
    by: Maker,
) -> RowEnd
    requires open { IsOpen (S.core steps.old) section.old }
    requires old { HasRow section.old.note slot old }
    requires reached { MayReach section.old.note slot (S.core steps.old).view }
    requires op { IsLaneOp op }
    requires changes { Changes old op }
    requires once { section.old.tried ≡ false }
    ensures { MakesChange (S.core steps.old) (S.core steps.new) section.old section.new slot old op by result }
{
    let end = steps.change_row(section, slot, old, op, by);
    match &end {
        RowEnd::Done(entry) => clear(steps, section, entry),
        RowEnd::Moved(_) => (),
    }
    end
}

/// What an operation makes of a row.
fn effect_on(row: &Row, op: &Op) -> Effect
    requires { row.now.version < 1073741824 }
    ensures { result ≡ effect_of row.now op.now }
{
    effect(*row, *op)
}

/// Changes the row that was found.
fn change_found<S: Steps>(
    steps: &mut S,
    section: &mut Section,
    slot: Slot,
    row: Row,
    op: Op,
    by: Maker,
) -> ChangeEnd
    requires open { IsOpen (S.core steps.old) section.old }
    requires old { HasRow section.old.note slot row }
    requires reached { MayReach section.old.note slot (S.core steps.old).view }
    requires below { row.version < 1073741824 }
    requires op { IsLaneOp op }
    requires once { section.old.tried ≡ false }
    ensures { ChangesFound (S.core steps.old) (S.core steps.new) section.old section.new slot row op by result }
{
    match effect_on(&row, &op) {
        Effect::Changed(_) => match make_change(steps, section, slot, row, op, by) {
            RowEnd::Done(entry) => ChangeEnd::Changed(entry),
            RowEnd::Moved(found) => ChangeEnd::Moved(slot, found),
        },
        Effect::Refused(_) => ChangeEnd::Refused(slot, row),
        Effect::NotArmed => ChangeEnd::NotArmed(slot, row),
    }
}

/// Changes the row of the controller's first listed path, once the order is loaded.
fn change_path<S: Steps>(
    steps: &mut S,
    section: &mut Section,
    order: &Order,
    ctrl: Ctrl,
    op: Op,
    by: Maker,
) -> ChangeEnd
    requires open { IsOpen (S.core steps.old) section.old }
    requires ordered { IsOrdered section.old order.now }
    requires op { IsLaneOp op }
    ensures { ChangesOne ctrl op by order.now (S.core steps.old) (S.core steps.new) section.old section.new result }
{
    match find_path(steps, section, ctrl) {
        None => ChangeEnd::NoPath(*order),
        Some(found) => change_found(steps, section, found.slot, found.row, op, by),
    }
}

/// Changes the row of the controller's first listed path, in a section of its own: it loads the list of paths, and then
/// rows in list order up to the first that is the controller's. At least one unit is left, no section is open, and the
/// operation is Log, with a stated ANA state from 1 to 15, Ctrl or Expire.
///
/// - `NoPath` comes exactly where the rows of all listed slots were loaded in this section and none is the controller's.
/// - `Refused` and `NotArmed` are what the operation makes of the row that was read.
/// - `Moved` comes exactly where the row at the change wasn't the one that was read.
///
/// Only `Changed` changes a row. It clears the current path of every node where the path is enabled and optimized now,
/// else of those nodes whose current path it is.
pub fn change<S: Steps, G: Gate>(steps: &mut S, gate: &G, ctrl: Ctrl, op: Op, by: Maker) -> Changing
    requires left { 1 ≤ (S.core steps.old).view.left }
    requires closed { (S.core steps.old).view.inside ≡ None }
    requires op { IsLineOp op }
    ensures { (seen : Seen) × ChangesPath ctrl op by (S.core steps.old) (S.core steps.new) result.end result.note seen }
{
    let mut section = begin(steps, gate);
    let order = steps.load_order(&mut section);
    let end = change_path(steps, &mut section, &order, ctrl, op, by);
    let note = steps.leave(section);
    Changing { end, note }
}
