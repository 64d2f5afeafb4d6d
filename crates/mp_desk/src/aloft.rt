//! A flight, as a desk keeps it.

ghost use Rattle.std.specs.Prelude.{◌≡◌};

use mp_words::flight::Flight;
use mp_words::numbers::{LaneId, ReqId, Slot};
use std::marker::Model;

/// A request on its way to a path, with the version of the path's row by which it was sent. Contracts see it as the
/// flight of the words, which can't be copied.
#[derive(Clone, Copy)]
pub struct Aloft {
    pub slot: Slot,
    pub version: u32,
    pub req: ReqId,
    pub lane: LaneId,
}

impl Model for Aloft {
    ghost use Rattle.mp_words.specs.declared.flight.Flight.{Flight};

    ghost Value = { Flight };

    ghost view = { λ f. record { slot = f.slot; version = f.version; req = f.req; lane = f.lane } };

    ghost inverse = { λ f. record { slot = f.slot; version = f.version; req = f.req; lane = f.lane } };
}

impl Aloft {
    /// The flight, spent: the desk keeps it.
    pub fn of(flight: Flight) -> Aloft
        ensures { result ≡ flight }
    {
        let Flight {
            slot,
            version,
            req,
            lane,
        } = flight;
        Aloft {
            slot,
            version,
            req,
            lane,
        }
    }

    /// The flight, to be spent.
    pub fn flight(&self) -> Flight
        ensures { result ≡ self.now }
    {
        Flight {
            slot: self.slot,
            version: self.version,
            req: self.req,
            lane: self.lane,
        }
    }
}
