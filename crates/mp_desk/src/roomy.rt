//! A list with room.

ghost use Rattle.std.specs.Prelude.{◌≡◌, ◌≤◌, ◌<◌, ◌+◌, ◌++◌, ◌∷◌, [], ◌==◌, length, OnOk, OnErr};

use crate::full::Full;
use std::alloc::Global;
use std::marker::Model;

/// A list, and room for more.
#[derive(Drop)]
pub struct Roomy<T> {
    items: Vec<T>,
}

impl<T> Model for Roomy<T> {
    ghost use Rattle.std.specs.Prelude.{vec_len, vec_capacity, ◌-◌};
    ghost use Rattle.mp_desk.specs.Roomy.{RoomyView};

    ghost Value = { RoomyView T };

    ghost view = { λ r. record { items = r.items.items; spare = vec_capacity r.items - vec_len r.items } };
}

impl<T> Roomy<T> {
    /// No item. It takes no memory.
    pub fn make(alloc: Global) -> Roomy<T>
        ensures { result.items ≡ [] }
    {
        Roomy {
            items: Vec::new(alloc),
        }
    }

    /// Makes room for one more.
    ///
    /// # Errors
    ///
    /// `NoMemory` where memory runs out, and never where there was room. The items are as they were.
    pub fn reserve(&mut self) -> Result<(), Full>
        ensures room { OnOk result (1 ≤ self.new.spare) }
        ensures items { self.new.items ≡ self.old.items }
        ensures cause { OnErr result (self.old.spare < 1) }
    {
        self.items.reserve(1).map_err(|_| Full::NoMemory)
    }

    /// Adds an item, for which there is room.
    pub fn push(&mut self, item: T)
        requires { 1 ≤ self.old.spare }
        ensures { self.new.items ≡ self.old.items ++ item ∷ [] }
    {
        self.items.push_reserved(item);
    }

    /// Whether there is no item.
    pub fn is_empty(&self) -> bool
        ensures { result ≡ (length self.now.items == 0) }
    {
        self.items.is_empty()
    }

    /// The items, in order.
    pub fn as_slice(&self) -> &[T]
        ensures { result.now ≡ self.now.items }
    {
        self.items.as_slice()
    }

    /// The items, in order.
    pub fn into_vec(self) -> Vec<T>
        ensures { result.items ≡ self.items }
    {
        self.items
    }
}
