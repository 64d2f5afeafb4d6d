//! A path that was added.

use mp_words::entry::{OrderEntry, RowEntry};

/// A path that was added: the row that its slot was given, and the list of paths with the slot last.
#[derive(Clone, Copy)]
pub struct Added {
    pub row: RowEntry,
    pub order: OrderEntry,
}
