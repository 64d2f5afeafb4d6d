//! The desk of a lane.

ghost use Rattle.std.specs.Prelude.{◌≡◌, ◌∷◌, [], OnOk, OnErr};
ghost use Rattle.mp_record.specs.declared.event.Event.TheVariants as event;
ghost use Rattle.mp_desk.specs.DeskView.{noting};
ghost use Rattle.mp_desk.specs.Desks.{desk_of, HasRoom};

use crate::flights::Flights;
use crate::full::Full;
use crate::made::Made;
use crate::noted::Noted;
use crate::roomy::Roomy;
use mp_record::event::Said;
use mp_words::request::Request;
use std::alloc::Global;

/// What a lane has before it: its requests on their way, those to be listed, those that ended here, its notes, and the
/// entries of rows that it made.
#[derive(Drop)]
pub struct Desk {
    pub flights: Flights,
    pub out: Roomy<Request>,
    pub ended: Roomy<Request>,
    pub notes: Noted,
    pub rows: Made,
}

impl Desk {
    /// An empty desk, which keeps all that it notes, or all but the sections. It takes no memory.
    pub fn make(alloc: Global, keeps: bool) -> Desk
        ensures { desk_of result ≡ record { flying = []; out = []; ended = []; events = []; rows = []; keeps = keeps } }
    {
        Desk {
            flights: Flights::make(alloc),
            out: Roomy::make(alloc),
            ended: Roomy::make(alloc),
            notes: Noted::make(alloc, keeps),
            rows: Made::make(alloc),
        }
    }

    /// Makes room for what one call adds.
    ///
    /// # Errors
    ///
    /// `NoMemory` where memory runs out. The desk has what it had.
    pub fn reserve(&mut self) -> Result<(), Full>
        ensures room { OnOk result (HasRoom self.new) }
        ensures desk { desk_of self.new ≡ desk_of self.old }
    {
        self.flights.reserve()?;
        self.out.reserve()?;
        self.ended.reserve()?;
        self.rows.reserve()?;
        self.notes.reserve(2).map_err(|_| Full::NoMemory)
    }

    /// Notes what a line says.
    ///
    /// # Errors
    ///
    /// `NoMemory` where memory runs out. The desk has what it had.
    pub fn say(&mut self, line: u32, said: Said) -> Result<(), Full>
        ensures said { OnOk result (desk_of self.new ≡ noting (event.At line said ∷ []) (desk_of self.old)) }
        ensures kept { OnErr result (desk_of self.new ≡ desk_of self.old) }
    {
        self.notes.reserve(1).map_err(|_| Full::NoMemory)?;
        self.notes.push_said(line, said);
        Ok(())
    }
}
