//! The last places of an order's word.

/// The last places of an order's word, as they are read from the last on, which stand in order: a bit for each slot
/// that they list, and how many they list.
#[derive(Clone, Copy)]
pub(crate) struct Later {
    pub(crate) marks: u32,
    pub(crate) len: u8,
}

impl Later {
    ghost use Rattle.std.specs.Prelude.{◌<◌, ◌+◌, ◌≤◌, IfSome, ℕ, List, ◌∷◌};
    ghost use Rattle.mp_words.specs.Later.{Tells, Behind};

    /// These places behind one more, or `None` where they don't stand in order then.
    pub(crate) fn behind(self, place: u64) -> Option<Later>
        requires place { place < 16 }
        requires few { self.len < 8 }
        ensures told { (ps : List ℕ) → Tells self ps → Behind result (place ∷ ps) }
        ensures few { IfSome result (λ later. later.len ≤ self.len + 1) }
    {
        if place == 15 {
            if self.len == 0 { Some(self) } else { None }
        } else if self.marks >> place & 1 == 1 {
            None
        } else {
            Some(Later {
                marks: self.marks | 1 << place,
                len: self.len + 1,
            })
        }
    }
}
