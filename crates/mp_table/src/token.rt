//! What every pass has.

ghost use Rattle.std.specs.Prelude.{◌≡◌, []};
ghost use Rattle.std.proofs.Props.{props};
ghost use Rattle.mp_table.specs.Known.{Fits};

use atomic_table::Seat;
use mp_core::view::View;

/// A seat at the table, and the units that are left. What the seat knows fits the words.
pub(crate) struct Token {
    pub(crate) seat: Seat<(), View>,
    pub(crate) left: u32,
    pub ghost units: { seat.me.0.left ≡ left },
    pub ghost empty: { seat.me.1 ≡ [] },
    pub ghost fits: { Fits seat.me.0 } by { Prim.hlevel props },
}
