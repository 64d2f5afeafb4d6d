//! What all lanes know: it exists for proofs alone, as the view of the one seat of a table of its own.

ghost use Rattle.std.specs.Prelude.{◌≡◌, [], IfOk};
ghost use Rattle.mp_plain.specs.Lanes.{ruled_begun};

use atomic_table::{Play, Seat, Table, TableRule};
use mp_core::view::{Seats, Seen, View};
use mp_words::entry::RowEntry;
use mp_words::words::Words;
use std::alloc::{AllocError, Global};
use std::collections::LinkedList;
use std::marker::{Brand, PhantomData};

/// With what all lanes begin: the words, and the units of each lane.
#[derive(Clone, Copy)]
pub struct Opening {
    pub words: Words,
    pub allowance: u32,
}

/// What all lanes know, and what the table's rule is told beside it: it is told that each lane was split off, so that
/// the entries by which slots were given, marked and freed are the keeper's, and all others their lanes'. No value of
/// it is made.
pub struct Ruled {
    pub seats: Seats,
    pub entries: LinkedList<RowEntry>,
    pub seen: Seen,
    pub lanes: LinkedList<View>,
}

/// The table of one word asks for nothing: what holds is said beside it.
pub(crate) struct Free;

impl TableRule<(), Ruled, Opening> for Free {
    ghost use Rattle.mp_plain.specs.Lanes.{ruled_begun};

    ghost holds = { λ _ _. Unit {0} };

    ghost first = { ruled_begun };
}

/// What is known next. A call picks it.
pub(crate) trait Next {
    ghost use Rattle.mp_plain.specs.declared.ledger.Ruled.{Ruled};

    ghost view: { Ruled };
}

impl Next for Brand {
    ghost use Rattle.mp_plain.specs.Lanes.{nothing_known};

    ghost view = { nothing_known };
}

pub(crate) struct Becomes<N: Next> {
    of: PhantomData<N>,
}

impl<N: Next> Play<(), Ruled> for Becomes<N> {
    ghost use Rattle.std.specs.Prelude.{◌≡◌};

    ghost then = { λ _ me _ me'. me' ≡ (N.view, me.1) };
}

/// One seat of a table with one word.
#[derive(Drop)]
pub(crate) struct Ledger {
    pub(crate) table: Table<(), Ruled, Opening, Free, Global>,
    pub(crate) seat: Seat<(), Ruled>,
    pub ghost empty: { seat.me.1 ≡ [] },
    pub ghost own: { seat.table_id ≡ table.shared.table_id },
    pub ghost wide: { table.shared.table_id.words ≡ 1 },
}

impl Ledger {
    /// The ledger of lanes that begin so.
    pub(crate) fn make(alloc: Global, opening: &Opening) -> Result<Ledger, AllocError>
        ensures { IfOk result (λ l. l.seat.me.0 ≡ ruled_begun opening.now) }
    {
        let (table, seat) = Table::of_words(alloc, &[0], opening)?;
        Ok(Ledger { table, seat })
    }
}
