//! The atomic steps: each is one operation on one word, and tells what its caller picked.

ghost use Rattle.std.specs.Prelude.{◌≡◌, ◌+◌, ◌-◌, ◌^◌, ◌%◌, ◌<◌, ◌==◌};
ghost use Rattle.mp_table.specs.Known.{Fits};
ghost use Rattle.mp_table.specs.Passes.{table_of};
ghost use Rattle.mp_table.specs.Table.{Keeps};
ghost use prog.Atomic.{either};

use crate::moves::{Made, Move};
use crate::shared::Shared;
use atomic_table::Seat;
use mp_core::view::{Section, View};
use mp_words::entry::OrderEntry;
use mp_words::flight::Flight;
use mp_words::numbers::{LaneId, ReqId, Slot};
use mp_words::op::{Maker, Op};
use mp_words::row::Row;

// What begins with an underscore is for what the caller picks.

/// A load outside a section.
pub(crate) fn load_as<M: Move>(
    shared: &Shared,
    seat: &mut Seat<(), View>,
    from: usize,
    place: usize,
    _lane: LaneId,
) -> u64
    requires own { seat.old.table_id ≡ table_of shared.now }
    requires word { from + place < 42 }
    requires rule { Keeps seat.old.id seat.old.me.0 (from + place) (λ n. n) M.tells }
    ensures own { (seat.new.table_id ≡ seat.old.table_id) × (seat.new.me.1 ≡ seat.old.me.1) }
    ensures fits { Fits seat.new.me.0 }
    ensures tells { M.tells result seat.new.me.0 }
{
    shared.table.shared.load::<Made<M>>(seat, from + place)
}

/// A load in a section.
pub(crate) fn read_as<M: Move>(
    shared: &Shared,
    seat: &mut Seat<(), View>,
    from: usize,
    place: usize,
    _lane: LaneId,
    _section: &Section,
) -> u64
    requires own { seat.old.table_id ≡ table_of shared.now }
    requires word { from + place < 42 }
    requires rule { Keeps seat.old.id seat.old.me.0 (from + place) (λ n. n) M.tells }
    ensures own { (seat.new.table_id ≡ seat.old.table_id) × (seat.new.me.1 ≡ seat.old.me.1) }
    ensures fits { Fits seat.new.me.0 }
    ensures tells { M.tells result seat.new.me.0 }
{
    shared.table.shared.load::<Made<M>>(seat, from + place)
}

/// An addition by which a section is entered.
pub(crate) fn add_as<M: Move>(
    shared: &Shared,
    seat: &mut Seat<(), View>,
    from: usize,
    place: usize,
    more: u64,
    _lane: LaneId,
) -> u64
    requires own { seat.old.table_id ≡ table_of shared.now }
    requires word { from + place < 42 }
    requires rule { Keeps seat.old.id seat.old.me.0 (from + place) (λ n. (n + more) % 2 ^ 64) M.tells }
    ensures own { (seat.new.table_id ≡ seat.old.table_id) × (seat.new.me.1 ≡ seat.old.me.1) }
    ensures fits { Fits seat.new.me.0 }
    ensures tells { M.tells result seat.new.me.0 }
{
    shared
        .table
        .shared
        .fetch_add::<Made<M>>(seat, from + place, more)
}

/// An addition by which a request is sent.
pub(crate) fn send_as<M: Move>(
    shared: &Shared,
    seat: &mut Seat<(), View>,
    from: usize,
    place: usize,
    more: u64,
    _lane: LaneId,
    _section: &Section,
    _req: ReqId,
) -> u64
    requires own { seat.old.table_id ≡ table_of shared.now }
    requires word { from + place < 42 }
    requires rule { Keeps seat.old.id seat.old.me.0 (from + place) (λ n. (n + more) % 2 ^ 64) M.tells }
    ensures own { (seat.new.table_id ≡ seat.old.table_id) × (seat.new.me.1 ≡ seat.old.me.1) }
    ensures fits { Fits seat.new.me.0 }
    ensures tells { M.tells result seat.new.me.0 }
{
    shared
        .table
        .shared
        .fetch_add::<Made<M>>(seat, from + place, more)
}

/// A subtraction by which a section is left.
pub(crate) fn sub_as<M: Move>(
    shared: &Shared,
    seat: &mut Seat<(), View>,
    from: usize,
    place: usize,
    less: u64,
    _lane: LaneId,
    _section: &Section,
) -> u64
    requires own { seat.old.table_id ≡ table_of shared.now }
    requires word { from + place < 42 }
    requires rule { Keeps seat.old.id seat.old.me.0 (from + place) (λ n. (n + (2 ^ 64 - less)) % 2 ^ 64) M.tells }
    ensures own { (seat.new.table_id ≡ seat.old.table_id) × (seat.new.me.1 ≡ seat.old.me.1) }
    ensures fits { Fits seat.new.me.0 }
    ensures tells { M.tells result seat.new.me.0 }
{
    shared
        .table
        .shared
        .fetch_sub::<Made<M>>(seat, from + place, less)
}

/// A subtraction by which a flight ends.
pub(crate) fn land_as<M: Move>(
    shared: &Shared,
    seat: &mut Seat<(), View>,
    from: usize,
    place: usize,
    less: u64,
    _lane: LaneId,
    _flight: &Flight,
) -> u64
    requires own { seat.old.table_id ≡ table_of shared.now }
    requires word { from + place < 42 }
    requires rule { Keeps seat.old.id seat.old.me.0 (from + place) (λ n. (n + (2 ^ 64 - less)) % 2 ^ 64) M.tells }
    ensures own { (seat.new.table_id ≡ seat.old.table_id) × (seat.new.me.1 ≡ seat.old.me.1) }
    ensures fits { Fits seat.new.me.0 }
    ensures tells { M.tells result seat.new.me.0 }
{
    shared
        .table
        .shared
        .fetch_sub::<Made<M>>(seat, from + place, less)
}

/// A store outside a section.
pub(crate) fn store_as<M: Move>(
    shared: &Shared,
    seat: &mut Seat<(), View>,
    from: usize,
    place: usize,
    new: u64,
    _lane: LaneId,
)
    requires own { seat.old.table_id ≡ table_of shared.now }
    requires word { from + place < 42 }
    requires rule { Keeps seat.old.id seat.old.me.0 (from + place) (λ _. new) (λ _. M.tells new) }
    ensures own { (seat.new.table_id ≡ seat.old.table_id) × (seat.new.me.1 ≡ seat.old.me.1) }
    ensures fits { Fits seat.new.me.0 }
    ensures tells { M.tells new seat.new.me.0 }
{
    shared
        .table
        .shared
        .store::<Made<M>>(seat, from + place, new);
}

/// A store of a list of paths.
pub(crate) fn list_as<M: Move>(
    shared: &Shared,
    seat: &mut Seat<(), View>,
    from: usize,
    place: usize,
    new: u64,
    _lane: LaneId,
    _entry: &OrderEntry,
)
    requires own { seat.old.table_id ≡ table_of shared.now }
    requires word { from + place < 42 }
    requires rule { Keeps seat.old.id seat.old.me.0 (from + place) (λ _. new) (λ _. M.tells new) }
    ensures own { (seat.new.table_id ≡ seat.old.table_id) × (seat.new.me.1 ≡ seat.old.me.1) }
    ensures fits { Fits seat.new.me.0 }
    ensures tells { M.tells new seat.new.me.0 }
{
    shared
        .table
        .shared
        .store::<Made<M>>(seat, from + place, new);
}

/// A store of a current word in a section.
pub(crate) fn keep_current_as<M: Move>(
    shared: &Shared,
    seat: &mut Seat<(), View>,
    from: usize,
    place: usize,
    new: u64,
    _lane: LaneId,
    _section: &Section,
    _slot: &Option<Slot>,
)
    requires own { seat.old.table_id ≡ table_of shared.now }
    requires word { from + place < 42 }
    requires rule { Keeps seat.old.id seat.old.me.0 (from + place) (λ _. new) (λ _. M.tells new) }
    ensures own { (seat.new.table_id ≡ seat.old.table_id) × (seat.new.me.1 ≡ seat.old.me.1) }
    ensures fits { Fits seat.new.me.0 }
    ensures tells { M.tells new seat.new.me.0 }
{
    shared
        .table
        .shared
        .store::<Made<M>>(seat, from + place, new);
}

/// A compare-and-exchange of a row in a section.
pub(crate) fn exchange_as<M: Move>(
    shared: &Shared,
    seat: &mut Seat<(), View>,
    from: usize,
    place: usize,
    old: u64,
    new: u64,
    _lane: LaneId,
    _section: &Section,
    _row: &Row,
    _op: &Op,
    _by: &Maker,
) -> u64
    requires own { seat.old.table_id ≡ table_of shared.now }
    requires word { from + place < 42 }
    requires rule { Keeps seat.old.id seat.old.me.0 (from + place) (λ n. either (n == old) new n) M.tells }
    ensures own { (seat.new.table_id ≡ seat.old.table_id) × (seat.new.me.1 ≡ seat.old.me.1) }
    ensures fits { Fits seat.new.me.0 }
    ensures tells { M.tells result seat.new.me.0 }
{
    shared
        .table
        .shared
        .compare_exchange::<Made<M>>(seat, from + place, old, new)
}

/// A compare-and-exchange of a row by the keeper.
pub(crate) fn keep_as<M: Move>(
    shared: &Shared,
    seat: &mut Seat<(), View>,
    from: usize,
    place: usize,
    old: u64,
    new: u64,
    _lane: LaneId,
    _row: &Row,
    _op: &Op,
    _by: &Maker,
) -> u64
    requires own { seat.old.table_id ≡ table_of shared.now }
    requires word { from + place < 42 }
    requires rule { Keeps seat.old.id seat.old.me.0 (from + place) (λ n. either (n == old) new n) M.tells }
    ensures own { (seat.new.table_id ≡ seat.old.table_id) × (seat.new.me.1 ≡ seat.old.me.1) }
    ensures fits { Fits seat.new.me.0 }
    ensures tells { M.tells result seat.new.me.0 }
{
    shared
        .table
        .shared
        .compare_exchange::<Made<M>>(seat, from + place, old, new)
}

/// A compare-and-exchange of a current word.
pub(crate) fn clear_as<M: Move>(
    shared: &Shared,
    seat: &mut Seat<(), View>,
    from: usize,
    place: usize,
    old: u64,
    new: u64,
    _lane: LaneId,
    _slot: Slot,
) -> u64
    requires own { seat.old.table_id ≡ table_of shared.now }
    requires word { from + place < 42 }
    requires rule { Keeps seat.old.id seat.old.me.0 (from + place) (λ n. either (n == old) new n) M.tells }
    ensures own { (seat.new.table_id ≡ seat.old.table_id) × (seat.new.me.1 ≡ seat.old.me.1) }
    ensures fits { Fits seat.new.me.0 }
    ensures tells { M.tells result seat.new.me.0 }
{
    shared
        .table
        .shared
        .compare_exchange::<Made<M>>(seat, from + place, old, new)
}
