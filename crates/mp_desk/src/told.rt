//! What was told, for contracts alone.

ghost use Rattle.std.specs.Prelude.{◌≡◌, List, [], ◌∷◌, ◌++◌};
ghost use Rattle.std.specs.Borrow.{ftrue};
ghost use Rattle.mp_record.specs.declared.event.Event.{Event};

use mp_record::event::Event;
use std::marker::Model;

/// Events in their order. They take no memory, and nothing reads them at run time.
#[derive(Drop)]
pub(crate) struct Told {
    pub ghost events: { List Event },
}

impl Model for Told {
    ghost also_owns = { λ _. ftrue };
}

impl Told {
    /// No event yet.
    pub(crate) fn none() -> Told
        ensures { result.events ≡ [] }
    {
        Told {}
    }

    /// One event more.
    pub(crate) fn note(&mut self, _event: &Event)
        ensures { self.new.events ≡ self.old.events ++ _event.now ∷ [] }
    {}
}
