//! A depth that wasn't 0.

use mp_words::numbers::Slot;

/// A slot whose depth wasn't 0, and that depth.
#[derive(Clone, Copy)]
pub struct Deep {
    pub slot: Slot,
    pub depth: u32,
}
