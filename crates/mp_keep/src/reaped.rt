//! How a reap ended.

use crate::stop::Stop;
use mp_words::entry::RowEntry;
use mp_words::numbers::Slot;

/// How a reap ended.
#[derive(Clone, Copy)]
pub enum Reaped {
    /// No removal is under way.
    Idle,
    /// A slot was freed: the row that it has now, and the number of flips so far.
    Freed(RowEntry, u32),
    /// No slot was freed: the slot whose removal stopped first, and where.
    Again(Slot, Stop),
}
