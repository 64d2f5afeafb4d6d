//! A requeue list that one thread has for itself.

ghost use Rattle.std.specs.Prelude.{◌≡◌, ◌++◌, ◌∷◌, [], OnOk, OnErr, IfErr};

use std::alloc::Global;
use std::marker::Model;
use std::mem;

/// A requeue list of one thread: items in the order in which they were put. Contracts see it as the list of its items.
#[derive(Drop)]
pub struct Private<T> {
    alloc: Global,
    items: Vec<T>,
}

impl<T> Model for Private<T> {
    ghost use Rattle.std.specs.Prelude.{List};

    ghost Value = { List T };

    ghost view = { λ p. p.items.items };
}

impl<T> Private<T> {
    /// A list without items. It takes no memory.
    pub fn make(alloc: Global) -> Private<T>
        ensures { result ≡ [] }
    {
        Private {
            alloc,
            items: Vec::new(alloc),
        }
    }

    /// Puts an item to the end.
    ///
    /// # Errors
    ///
    /// The item, where memory runs out; the list is as it was.
    pub fn put(&mut self, item: T) -> Result<(), T>
        ensures put { OnOk result (self.new ≡ self.old ++ item ∷ []) }
        ensures kept { OnErr result (self.new ≡ self.old) }
        ensures handed { IfErr result (λ back. back ≡ item) }
    {
        self.items.push(item).map_err(|refused| refused.value)
    }

    /// Takes all items, in order, and leaves none. It takes no memory.
    pub fn take_all(&mut self) -> Vec<T>
        ensures taken { result.items ≡ self.old }
        ensures left { self.new ≡ [] }
    {
        mem::replace(&mut self.items, Vec::new(self.alloc))
    }
}
