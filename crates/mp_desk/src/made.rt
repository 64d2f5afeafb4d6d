//! The entries of rows that a lane makes.

ghost use Rattle.std.specs.Prelude.{◌≡◌, ◌≤◌, ◌++◌, ◌∷◌, [], OnOk};

use crate::full::Full;
use mp_words::entry::RowEntry;
use mp_words::op::{Gift, Maker, Op};
use mp_words::row::{CState, Row};
use std::alloc::Global;
use std::marker::Model;

/// The entries of rows that a lane makes, in order, and room for more.
#[derive(Drop)]
pub struct Made {
    rows: Vec<RowEntry>,
}

impl Model for Made {
    ghost use Rattle.std.specs.Prelude.{vec_len, vec_capacity, ◌-◌};
    ghost use Rattle.mp_words.specs.declared.entry.RowEntry.{RowEntry};
    ghost use Rattle.mp_desk.specs.Roomy.{RoomyView};

    ghost Value = { RoomyView RowEntry };

    ghost view = { λ m. record { items = m.rows.items; spare = vec_capacity m.rows - vec_len m.rows } };
}

impl Made {
    /// No entry. It takes no memory.
    pub fn make(alloc: Global) -> Made
        ensures { result.items ≡ [] }
    {
        Made {
            rows: Vec::new(alloc),
        }
    }

    /// Makes room for one more.
    ///
    /// # Errors
    ///
    /// `NoMemory` where memory runs out. The entries are as they were.
    pub fn reserve(&mut self) -> Result<(), Full>
        ensures room { OnOk result (1 ≤ self.new.spare) }
        ensures items { self.new.items ≡ self.old.items }
    {
        self.rows.reserve(1).map_err(|_| Full::NoMemory)
    }

    /// Adds an entry, for which there is room.
    pub fn push(&mut self, entry: RowEntry)
        requires { 1 ≤ self.old.spare }
        ensures { self.new.items ≡ self.old.items ++ entry ∷ [] }
    {
        // The proof of a push needs each type inside an entry named here.
        let _: (Option<Row>, Option<Op>, Option<Maker>) = (None, None, None);
        let _: (Option<CState>, Option<Gift>) = (None, None);
        self.rows.push_reserved(entry);
    }

    /// The entries, in order.
    pub fn into_vec(self) -> Vec<RowEntry>
        ensures { result.items ≡ self.items }
    {
        self.rows
    }
}
