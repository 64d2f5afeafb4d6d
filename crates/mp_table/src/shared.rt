//! The table.

ghost use Rattle.std.specs.Prelude.{◌≡◌};

use crate::moves::Rule;
use atomic_table::Table;
use mp_core::view::{Start, View};
use std::alloc::Global;

/// A table of 42 words that threads share.
pub struct Shared {
    pub(crate) table: Table<(), View, Start, Rule, Global>,
    pub ghost wide: { table.shared.table_id.words ≡ 42 },
    pub ghost no_slots: { table.shared.table_id.slots ≡ 0 },
}
