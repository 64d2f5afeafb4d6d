//! Each kind of step as what all lanes know after it: one load of the one word.

ghost use Rattle.std.specs.Prelude.{◌≡◌};

use crate::ledger::{Becomes, Ledger, Next};
use mp_core::view::Section;
use mp_words::entry::{OrderEntry, RowEntry};
use mp_words::flight::Flight;
use mp_words::numbers::{LaneId, Node, Slot};
use mp_words::order::Order;
use mp_words::row::Row;
use mp_words::words::Side;

/// A lane made a step by which nothing is known.
pub(crate) fn turn_passed<N: Next>(ledger: &mut Ledger, _lane: LaneId)
    ensures home { ledger.new.seat.table_id ≡ ledger.old.seat.table_id }
    ensures view { ledger.new.seat.me ≡ (N.view, ledger.old.seat.me.1) }
{
    let table = &ledger.table;
    table.shared.load::<Becomes<N>>(&mut ledger.seat, 0);
}

/// A lane entered a section.
pub(crate) fn turn_entered<N: Next>(ledger: &mut Ledger, _lane: LaneId, _section: &Section)
    ensures home { ledger.new.seat.table_id ≡ ledger.old.seat.table_id }
    ensures view { ledger.new.seat.me ≡ (N.view, ledger.old.seat.me.1) }
{
    let table = &ledger.table;
    table.shared.load::<Becomes<N>>(&mut ledger.seat, 0);
}

/// A lane left its section.
pub(crate) fn turn_finished<N: Next>(ledger: &mut Ledger, _lane: LaneId, _section: &Section)
    ensures home { ledger.new.seat.table_id ≡ ledger.old.seat.table_id }
    ensures view { ledger.new.seat.me ≡ (N.view, ledger.old.seat.me.1) }
{
    let table = &ledger.table;
    table.shared.load::<Becomes<N>>(&mut ledger.seat, 0);
}

/// A lane's section has a new note.
pub(crate) fn turn_noted<N: Next>(ledger: &mut Ledger, _lane: LaneId, _section: &Section)
    ensures home { ledger.new.seat.table_id ≡ ledger.old.seat.table_id }
    ensures view { ledger.new.seat.me ≡ (N.view, ledger.old.seat.me.1) }
{
    let table = &ledger.table;
    table.shared.load::<Becomes<N>>(&mut ledger.seat, 0);
}

/// A lane's section read the list of paths.
pub(crate) fn turn_order_read<N: Next>(
    ledger: &mut Ledger,
    _lane: LaneId,
    _section: &Section,
    _order: &Order,
)
    ensures home { ledger.new.seat.table_id ≡ ledger.old.seat.table_id }
    ensures view { ledger.new.seat.me ≡ (N.view, ledger.old.seat.me.1) }
{
    let table = &ledger.table;
    table.shared.load::<Becomes<N>>(&mut ledger.seat, 0);
}

/// A lane's section read a row.
pub(crate) fn turn_row_read<N: Next>(
    ledger: &mut Ledger,
    _lane: LaneId,
    _section: &Section,
    _slot: Slot,
    _row: &Row,
)
    ensures home { ledger.new.seat.table_id ≡ ledger.old.seat.table_id }
    ensures view { ledger.new.seat.me ≡ (N.view, ledger.old.seat.me.1) }
{
    let table = &ledger.table;
    table.shared.load::<Becomes<N>>(&mut ledger.seat, 0);
}

/// A lane's section changed a row.
pub(crate) fn turn_row_changed<N: Next>(
    ledger: &mut Ledger,
    _lane: LaneId,
    _section: &Section,
    _entry: &RowEntry,
)
    ensures home { ledger.new.seat.table_id ≡ ledger.old.seat.table_id }
    ensures view { ledger.new.seat.me ≡ (N.view, ledger.old.seat.me.1) }
{
    let table = &ledger.table;
    table.shared.load::<Becomes<N>>(&mut ledger.seat, 0);
}

/// A lane's section met another row.
pub(crate) fn turn_row_moved<N: Next>(
    ledger: &mut Ledger,
    _lane: LaneId,
    _section: &Section,
    _slot: Slot,
    _row: &Row,
)
    ensures home { ledger.new.seat.table_id ≡ ledger.old.seat.table_id }
    ensures view { ledger.new.seat.me ≡ (N.view, ledger.old.seat.me.1) }
{
    let table = &ledger.table;
    table.shared.load::<Becomes<N>>(&mut ledger.seat, 0);
}

/// A lane's section sent a request.
pub(crate) fn turn_flown<N: Next>(
    ledger: &mut Ledger,
    _lane: LaneId,
    _section: &Section,
    _flight: &Flight,
)
    ensures home { ledger.new.seat.table_id ≡ ledger.old.seat.table_id }
    ensures view { ledger.new.seat.me ≡ (N.view, ledger.old.seat.me.1) }
{
    let table = &ledger.table;
    table.shared.load::<Becomes<N>>(&mut ledger.seat, 0);
}

/// A lane's flight ended.
pub(crate) fn turn_landed<N: Next>(ledger: &mut Ledger, _lane: LaneId, _flight: &Flight)
    ensures home { ledger.new.seat.table_id ≡ ledger.old.seat.table_id }
    ensures view { ledger.new.seat.me ≡ (N.view, ledger.old.seat.me.1) }
{
    let table = &ledger.table;
    table.shared.load::<Becomes<N>>(&mut ledger.seat, 0);
}

/// A lane cleared a current word.
pub(crate) fn turn_cleared<N: Next>(ledger: &mut Ledger, _lane: LaneId, _node: Node, _slot: Slot)
    ensures home { ledger.new.seat.table_id ≡ ledger.old.seat.table_id }
    ensures view { ledger.new.seat.me ≡ (N.view, ledger.old.seat.me.1) }
{
    let table = &ledger.table;
    table.shared.load::<Becomes<N>>(&mut ledger.seat, 0);
}

/// A lane looked at a side for the keeper.
pub(crate) fn turn_scanned<N: Next>(ledger: &mut Ledger, _lane: LaneId, _side: u8, _found: Side)
    ensures home { ledger.new.seat.table_id ≡ ledger.old.seat.table_id }
    ensures view { ledger.new.seat.me ≡ (N.view, ledger.old.seat.me.1) }
{
    let table = &ledger.table;
    table.shared.load::<Becomes<N>>(&mut ledger.seat, 0);
}

/// A lane flipped the side index for the keeper.
pub(crate) fn turn_flipped<N: Next>(ledger: &mut Ledger, _lane: LaneId)
    ensures home { ledger.new.seat.table_id ≡ ledger.old.seat.table_id }
    ensures view { ledger.new.seat.me ≡ (N.view, ledger.old.seat.me.1) }
{
    let table = &ledger.table;
    table.shared.load::<Becomes<N>>(&mut ledger.seat, 0);
}

/// A lane read a row for the keeper.
pub(crate) fn turn_row_held<N: Next>(ledger: &mut Ledger, _lane: LaneId, _slot: Slot, _row: &Row)
    ensures home { ledger.new.seat.table_id ≡ ledger.old.seat.table_id }
    ensures view { ledger.new.seat.me ≡ (N.view, ledger.old.seat.me.1) }
{
    let table = &ledger.table;
    table.shared.load::<Becomes<N>>(&mut ledger.seat, 0);
}

/// A lane gave, marked or freed a slot for the keeper.
pub(crate) fn turn_row_kept<N: Next>(ledger: &mut Ledger, _lane: LaneId, _entry: &RowEntry)
    ensures home { ledger.new.seat.table_id ≡ ledger.old.seat.table_id }
    ensures view { ledger.new.seat.me ≡ (N.view, ledger.old.seat.me.1) }
{
    let table = &ledger.table;
    table.shared.load::<Becomes<N>>(&mut ledger.seat, 0);
}

/// A lane's change for the keeper met another row.
pub(crate) fn turn_keep_moved<N: Next>(ledger: &mut Ledger, _lane: LaneId, _slot: Slot, _row: &Row)
    ensures home { ledger.new.seat.table_id ≡ ledger.old.seat.table_id }
    ensures view { ledger.new.seat.me ≡ (N.view, ledger.old.seat.me.1) }
{
    let table = &ledger.table;
    table.shared.load::<Becomes<N>>(&mut ledger.seat, 0);
}

/// A lane stored the list of paths for the keeper.
pub(crate) fn turn_order_stored<N: Next>(ledger: &mut Ledger, _lane: LaneId, _entry: &OrderEntry)
    ensures home { ledger.new.seat.table_id ≡ ledger.old.seat.table_id }
    ensures view { ledger.new.seat.me ≡ (N.view, ledger.old.seat.me.1) }
{
    let table = &ledger.table;
    table.shared.load::<Becomes<N>>(&mut ledger.seat, 0);
}

/// A lane looked at a depth for the keeper.
pub(crate) fn turn_depth_looked<N: Next>(
    ledger: &mut Ledger,
    _lane: LaneId,
    _slot: Slot,
    _depth: u32,
)
    ensures home { ledger.new.seat.table_id ≡ ledger.old.seat.table_id }
    ensures view { ledger.new.seat.me ≡ (N.view, ledger.old.seat.me.1) }
{
    let table = &ledger.table;
    table.shared.load::<Becomes<N>>(&mut ledger.seat, 0);
}
