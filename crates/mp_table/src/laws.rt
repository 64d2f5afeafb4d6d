//! What the table means for those who step over it. The functions without a body do nothing: each one's contract is a
//! law of every moment of the table, whatever the other passes have done and do.

ghost use Rattle.std.specs.Prelude.{◌≡◌, ◌<◌, ◌≤◌, ◌↔◌, [], true, Some, false};
ghost use Rattle.mp_words.specs.declared.op.Gift.{Gift};
ghost use Rattle.mp_words.specs.declared.op.Op.TheVariants as op;
ghost use Rattle.mp_words.specs.declared.row.Row.{Row};
ghost use Rattle.mp_core.specs.declared.view.RowEnd.TheVariants as ends;
ghost use Rattle.mp_core.specs.Kinds.{IsLaneOp, Changes, MayKeep, MayReach, status_at};
ghost use Rattle.mp_core.specs.Notes.{HasRow, HasUsable, Lists};
ghost use Rattle.mp_core.specs.Status.{lists};
ghost use Rattle.mp_rule.specs.Laws.{GiveIsSafe};
ghost use Rattle.mp_table.specs.Known.{is_alone};
ghost use Rattle.mp_table.specs.Passes.{view_of, keeper_view};
ghost use Rattle.mp_table.specs.Table.{AtEach, NoRequestOn};

use crate::on::On;
use crate::on_keeper::OnKeeper;
use mp_core::steps::Steps;
use mp_core::view::{RowEnd, Section};
use mp_words::numbers::Slot;
use mp_words::op::{Maker, Op};
use mp_words::row::Row;

/// A slot is given again only when it isn't listed, no open section lists it, no request is on it, and every section
/// that was open when it was scanned in its removal is over.
pub fn a_slot_is_given_again_safely(on: &OnKeeper, slot: Slot)
    ensures { (gift : Gift) → MayKeep (op.Give gift) (status_at slot (keeper_view on.now.pass)) → AtEach (keeper_view on.now.pass) (GiveIsSafe slot) }
{}

/// No path is freed under a request: where the keeper may free a slot, no pass has a request on it.
pub fn no_path_is_freed_under_a_request(on: &OnKeeper, slot: Slot)
    ensures { MayKeep op.Free (status_at slot (keeper_view on.now.pass)) → AtEach (keeper_view on.now.pass) (NoRequestOn slot) }
{}

/// A request is sent to a listed path: where a section has a usable row of a slot, the list of paths has the slot.
pub fn a_request_goes_to_a_listed_path(on: &On, section: &Section, slot: Slot)
    requires open { (view_of on.now.pass).inside ≡ Some section.now }
    requires usable { HasUsable section.now.note slot }
    ensures { AtEach (view_of on.now.pass) (λ m _. lists slot m.order ≡ true) }
{}

/// To a lane another lane always counts as out.
pub fn a_lane_is_never_alone(on: &On)
    ensures { is_alone (view_of on.now.pass) ≡ false }
{}

/// To the keeper no lane counts as out exactly where every other pass is joined.
pub fn the_keeper_is_alone_where_all_are_joined(on: &OnKeeper)
    ensures { (is_alone (keeper_view on.now.pass) ≡ true) ↔ ((keeper_view on.now.pass).keeping.out ≡ []) }
{}

/// A load never goes back behind what its pass has seen: of two loads of a row the second isn't older.
pub fn two_loads_of_a_row(on: &mut On, section: &mut Section, slot: Slot) -> (Row, Row)
    requires open { (view_of on.old.pass).inside ≡ Some section.old }
    requires listed { Lists section.old.note slot }
    requires reached { MayReach section.old.note slot (view_of on.old.pass) }
    ensures { result.0.version ≤ result.1.version }
{
    let first = on.load_row(section, slot);
    let second = on.load_row(section, slot);
    (first, second)
}

/// A lost exchange means a newer version.
pub fn a_lost_exchange(
    on: &mut On,
    section: &mut Section,
    slot: Slot,
    old: Row,
    op: Op,
    by: Maker,
) -> RowEnd
    requires open { (view_of on.old.pass).inside ≡ Some section.old }
    requires old { HasRow section.old.note slot old }
    requires reached { MayReach section.old.note slot (view_of on.old.pass) }
    requires op { IsLaneOp op }
    requires changes { Changes old op }
    requires once { section.old.tried ≡ false }
    ensures { (row : Row) → result ≡ ends.Moved row → old.version < row.version }
{
    on.change_row(section, slot, old, op, by)
}
