//! Why no path was added.

use mp_words::numbers::Slot;

/// Why no path was added.
#[derive(Clone, Copy)]
pub enum AddError {
    /// The controller has this slot, which isn't freed yet.
    Already(Slot),
    /// No slot is free.
    NoSlot,
    /// Eight paths are listed.
    OrderFull,
}
