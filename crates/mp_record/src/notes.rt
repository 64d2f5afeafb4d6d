//! The events of one lane.

ghost use Rattle.std.specs.Prelude.{ℕ, ◌≡◌, ◌≤◌, ◌<◌, ◌+◌, List, ◌++◌, ◌∷◌, [], Some, IfOk, IfSome, OnOk, OnErr, filter, length, slice_get, vec_len};
ghost use Rattle.mp_record.specs.RunView.{is_plain};
ghost use Rattle.mp_record.specs.NotedText.{noted_events};
ghost use Rattle.mp_record.specs.Kept.{told, IsBelow};
ghost use Rattle.mp_record.specs.declared.event.Event.TheVariants as event;

use crate::event::{Event, Said};
use crate::kept::{Kept, kept_section, retold};
use crate::kept_text::put_each;
use crate::packed::pack;
use crate::plain::keep_plain;
use crate::room::reserve_eighth;
use mp_words::entry::RowEntry;
use mp_words::note::Note;
use mp_words::numbers::{ReqId, Slot};
use mp_words::op::{Maker, Op};
use mp_words::order::Order;
use mp_words::reading::Reading;
use mp_words::row::Row;
use mp_words::trying::{Back, TryEnd};
use std::alloc::{AllocError, Global};
use std::marker::Model;
use thiserror::Error;

/// Why no room was made for events.
#[derive(Clone, Copy, Debug, Error)]
pub enum NoteError {
    #[error("out of memory")]
    NoMemory,
}

/// For how many events room is made at least, so that most calls for room need none.
const ROOM: usize = 16;

/// How many events can stand apart at most: the place of one is kept in four bytes.
const PLACES: usize = 4294967296;

/// The events of one lane, in order, and room for more of them.
///
/// Most are small, and kept in place. The end of a flight that came back with pending set stands apart, and so does a
/// section, unless it is like the last that stands apart.
#[derive(Drop)]
pub struct LaneNotes {
    kept: Vec<Kept>,
    apart: Vec<Event>,
    room: usize,
}

impl Model for LaneNotes {
    ghost use Rattle.std.specs.Prelude.{vec_len, vec_capacity, map, ◌+◌, ◌≤◌};
    ghost use Rattle.mp_record.specs.Kept.{told, AreBelow, AreInOrder};
    ghost use Rattle.mp_record.specs.NotesView.{NotesView};

    ghost Value = { NotesView };

    ghost view = { λ n. record { events = map (told n.apart.items) n.kept.items; spare = n.room } };

    ghost invariant = { λ n. AreBelow (vec_len n.apart) n.kept.items × AreInOrder n.apart.items 0 n.kept.items × (vec_len n.kept + n.room ≤ vec_capacity n.kept) × (vec_len n.apart + n.room ≤ vec_capacity n.apart) × (vec_len n.apart + n.room ≤ 4294967296) };
}

impl LaneNotes {
    /// No event. It takes no memory.
    pub fn make(alloc: Global) -> LaneNotes
        ensures { result.events ≡ [] }
    {
        LaneNotes {
            kept: Vec::new(alloc),
            apart: Vec::new(alloc),
            room: 0,
        }
    }

    /// Makes room for this many more events.
    ///
    /// # Errors
    ///
    /// `NoMemory` where memory runs out, or the places of events that stand apart do, and never where there was room.
    /// The events are as they were.
    pub fn reserve(&mut self, more: usize) -> Result<(), NoteError>
        ensures room { OnOk result (more ≤ self.new.spare) }
        ensures kept { self.old.spare ≤ self.new.spare }
        ensures events { self.new.events ≡ self.old.events }
        ensures cause { OnErr result (self.old.spare < more) }
    {
        if more <= self.room {
            return Ok(());
        }
        let room = if more < ROOM { ROOM } else { more };
        if PLACES - self.apart.len() < room {
            return Err(NoteError::NoMemory);
        }
        self.kept.reserve(room).map_err(|_| NoteError::NoMemory)?;
        reserve_eighth(&mut self.apart, room).map_err(|_| NoteError::NoMemory)?;
        self.room = room;
        Ok(())
    }

    /// Adds an event at the end. It takes no memory.
    pub fn push(&mut self, event: Event)
        requires { 1 ≤ self.old.spare }
        ensures events { self.new.events ≡ self.old.events ++ event ∷ [] }
        ensures spare { self.new.spare + 1 ≡ self.old.spare }
    {
        match &event {
            Event::Sec { note, moved } => self.push_section(note, moved),
            Event::At { line, said } => self.push_said(*line, *said),
            Event::Try { req, hop, end } => self.push_try(*req, *hop, *end),
            Event::Fin {
                req,
                hop,
                statuses,
                count,
                back,
            } => self.push_end(*req, *hop, statuses, *count, back),
        }
    }

    /// Adds what a line of the script, or a round of the drain, says of itself. It takes no memory.
    pub fn push_said(&mut self, line: u32, said: Said)
        requires { 1 ≤ self.old.spare }
        ensures events { self.new.events ≡ self.old.events ++ event.At line said ∷ [] }
        ensures spare { self.new.spare + 1 ≡ self.old.spare }
    {
        self.push_small(Kept::At { line, said });
    }

    /// Adds a try of a request. It takes no memory.
    pub fn push_try(&mut self, req: ReqId, hop: u32, end: TryEnd)
        requires { 1 ≤ self.old.spare }
        ensures events { self.new.events ≡ self.old.events ++ event.Try req hop end ∷ [] }
        ensures spare { self.new.spare + 1 ≡ self.old.spare }
    {
        self.push_small(Kept::Try { req, hop, end });
    }

    /// Adds the end of a try's flight: the first `count` of these statuses, and how the request came back, where it
    /// did. It takes no memory.
    pub fn push_end(
        &mut self,
        req: ReqId,
        hop: u32,
        statuses: &[u16; 6],
        count: u8,
        back: &Option<Back>,
    )
        requires { 1 ≤ self.old.spare }
        ensures events { self.new.events ≡ self.old.events ++ event.Fin req hop statuses.now count back.now ∷ [] }
        ensures spare { self.new.spare + 1 ≡ self.old.spare }
    {
        let statuses = *statuses;
        match back {
            None => self.push_small(Kept::Done {
                req,
                hop,
                statuses,
                count,
            }),
            Some(Back::Unset) => self.push_small(Kept::Unset {
                req,
                hop,
                statuses,
                count,
            }),
            Some(Back::Set(_)) => self.push_apart(Event::Fin {
                req,
                hop,
                statuses,
                count,
                back: *back,
            }),
        }
    }

    /// Adds a section, with the other version of a row that it met, if it did. It takes no memory.
    pub fn push_section(&mut self, note: &Note, moved: &Option<(Slot, u32)>)
        requires { 1 ≤ self.old.spare }
        ensures events { self.new.events ≡ self.old.events ++ event.Sec note.now moved.now ∷ [] }
        ensures spare { self.new.spare + 1 ≡ self.old.spare }
    {
        // The proof of a push needs each type inside what is kept named here.
        let _: (Option<ReqId>, Option<Kept>, Option<[u16; 6]>) = (None, None, None);
        let _: (Option<TryEnd>, Option<Said>) = (None, None);
        match kept_section(note, moved, self.apart.as_slice()) {
            Some(like) => {
                self.room -= 1;
                self.kept.push_reserved(like);
            }
            None => self.push_apart(Event::Sec {
                note: *note,
                moved: *moved,
            }),
        }
    }

    /// Keeps an event in place. One that is small has no place among those that stand apart.
    fn push_small(&mut self, kept: Kept)
        requires room { 1 ≤ self.old.spare }
        requires small { IsBelow 0 kept }
        ensures events { self.new.events ≡ self.old.events ++ told [] kept ∷ [] }
        ensures spare { self.new.spare + 1 ≡ self.old.spare }
    {
        // The proof of a push needs each type inside what is kept named here.
        let _: (Option<ReqId>, Option<Kept>, Option<[u16; 6]>) = (None, None, None);
        let _: (Option<TryEnd>, Option<Said>) = (None, None);
        let _: Option<Slot> = None;
        self.room -= 1;
        self.kept.push_reserved(kept);
    }

    /// Keeps an event apart, whole.
    fn push_apart(&mut self, event: Event)
        requires { 1 ≤ self.old.spare }
        ensures events { self.new.events ≡ self.old.events ++ event ∷ [] }
        ensures spare { self.new.spare + 1 ≡ self.old.spare }
    {
        // The proof of a push needs each type inside an event named here.
        let _: (Option<ReqId>, Option<Kept>, Option<[u16; 6]>) = (None, None, None);
        let _: Option<TryEnd> = None;
        let _: Option<Back> = None;
        let _: Option<Said> = None;
        let _: Option<Op> = None;
        let _: Option<Maker> = None;
        let _: Option<Order> = None;
        let _: Option<Slot> = None;
        let _: Option<Row> = None;
        let _: Option<Reading> = None;
        let _: Option<Note> = None;
        let _: Option<RowEntry> = None;
        self.room -= 1;
        let place = self.apart.len();
        self.apart.push_reserved(event);
        self.kept.push_reserved(Kept::Apart(place as u32));
    }

    /// The number of events.
    pub fn len(&self) -> usize
        ensures { result ≡ length self.now.events }
    {
        self.kept.len()
    }

    /// The event at this place, counted from 0.
    pub fn at(&self, place: usize) -> Event
        requires { place < length self.now.events }
        ensures { slice_get self.now.events place ≡ Some result }
    {
        match self.kept[place] {
            Kept::Apart(place) => self.apart[place as usize],
            Kept::Section {
                like,
                ticket,
                current,
            } => retold(&self.apart[like as usize], ticket, &current),
            Kept::At { line, said } => Event::At { line, said },
            Kept::Try { req, hop, end } => Event::Try { req, hop, end },
            Kept::Done {
                req,
                hop,
                statuses,
                count,
            } => Event::Fin {
                req,
                hop,
                statuses,
                count,
                back: None,
            },
            Kept::Unset {
                req,
                hop,
                statuses,
                count,
            } => Event::Fin {
                req,
                hop,
                statuses,
                count,
                back: Some(Back::Unset),
            },
        }
    }

    /// The events but for the sections, in order, in the place of all.
    ///
    /// # Errors
    ///
    /// `NoMemory` where memory runs out; what it does in place takes none.
    pub fn without_sections(mut self, alloc: Global) -> Result<LaneNotes, NoteError>
        ensures events { IfOk result (λ plain. plain.events ≡ filter is_plain self.events) }
    {
        self.take_sections();
        Ok(self)
    }

    /// Takes the sections out, in place. What stands apart is kept only where an event is left that names it.
    fn take_sections(&mut self)
        ensures { self.new.events ≡ filter is_plain self.old.events }
    {
        keep_plain(&mut self.kept, self.apart.as_slice());
        pack(&mut self.kept, &mut self.apart);
    }

    /// Puts the lines of the events behind a text; a section has one only with the notes.
    pub(crate) fn put(&self, text: &mut Vec<u8>, notes: bool) -> Result<(), AllocError>
        ensures { OnOk result (text.new.items ≡ text.old.items ++ noted_events notes self.now.events) }
    {
        put_each(text, notes, self.kept.as_slice(), self.apart.as_slice())
    }
}
