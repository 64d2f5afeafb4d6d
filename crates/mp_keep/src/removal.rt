//! A removal under way.

use crate::stage::Stage;
use mp_words::numbers::Slot;

/// A removal under way: its slot, the version of the marked row, and how far it has come.
#[derive(Clone, Copy)]
pub struct Removal {
    pub slot: Slot,
    pub mark: u32,
    pub stage: Stage,
}
