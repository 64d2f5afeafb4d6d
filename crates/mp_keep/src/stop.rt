//! Where a reap stopped.

use mp_words::entry::Grace;

/// Where a reap stopped.
#[derive(Clone, Copy)]
pub enum Stop {
    /// Somebody is inside a side: the grace period, the side, 0 or 1, and how many are inside.
    Section { grace: Grace, side: u8, inside: u32 },
    /// Flights are on the slot, so many.
    Depth(u32),
}
