//! A path as a choice sees it.

use crate::numbers::Slot;
use crate::row::Row;

/// A listed slot with its row.
#[derive(Clone, Copy)]
pub struct Path {
    pub slot: Slot,
    pub row: Row,
}
