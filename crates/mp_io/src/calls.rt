//! The calls that something took, for contracts alone.

ghost use Rattle.std.specs.Prelude.{◌≡◌, ℕ, List, [], ◌∷◌, ◌++◌};
ghost use Rattle.std.specs.Borrow.{ftrue};

use std::marker::Model;

/// Calls in their order, each by its bytes. They take no memory, and nothing reads them at run time.
#[derive(Drop)]
pub(crate) struct Calls {
    pub ghost made: { List (List ℕ) },
}

impl Model for Calls {
    ghost also_owns = { λ _. ftrue };
}

impl Calls {
    /// No call yet.
    pub(crate) fn none() -> Calls
        ensures { result.made ≡ [] }
    {
        Calls {}
    }

    /// One call more, of these bytes.
    pub(crate) fn note(&mut self, _bytes: &[u8])
        ensures { self.new.made ≡ self.old.made ++ _bytes.now ∷ [] }
    {}
}
