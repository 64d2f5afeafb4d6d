//! The words of the table in plain memory, with the seventeen lanes that step over them.

ghost use Rattle.std.specs.Prelude.{◌≡◌, ◌<◌};
ghost use Rattle.std.proofs.Props.{props};
ghost use Rattle.mp_rule.proofs.Prop.{holds_prop};
ghost use Rattle.mp_core.specs.Unpacked.{unpacked};
ghost use Rattle.mp_plain.specs.Packed.{IsPacked, IsUnpacked};
ghost use Rattle.mp_plain.specs.Stands.{Stands, units_of};

use crate::ledger::Ledger;
use crate::unpacked::Unpacked;
use mp_words::numbers::LaneId;
use mp_words::words::Words;
use thiserror::Error;

/// Why no core was made.
#[derive(Clone, Copy, Debug, Error)]
pub enum PlainError {
    #[error("no memory")]
    NoMemory,
}

/// Words of plain memory, and the seventeen lanes that step over them, of which one steps.
#[derive(Drop)]
pub struct Plain {
    pub(crate) words: Words,
    pub(crate) said: Unpacked,
    pub(crate) lane: LaneId,
    pub(crate) left: [u32; 17],
    pub(crate) ledger: Ledger,
    pub ghost range: { lane < 17 },
    pub ghost units: { units_of ledger.seat.me.0.seats ≡ left },
    pub ghost packed: { IsPacked words },
    pub ghost same: { IsUnpacked words said },
    pub ghost rule: { Stands (unpacked words) ledger.seat.me.0 } by { Prim.hlevel (props, holds_prop) },
}
