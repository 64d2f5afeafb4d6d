//! What a desk noted.

ghost use Rattle.std.specs.Prelude.{◌≡◌, ◌≤◌, ◌+◌, ◌++◌, ◌∷◌, [], filter, IfOk, OnOk, OnErr};
ghost use Rattle.mp_record.specs.RunView.{is_plain};
ghost use Rattle.mp_record.specs.declared.event.Event.TheVariants as event;
ghost use Rattle.mp_desk.specs.Noted.{kept_of};

use crate::told::Told;
use mp_record::event::{Event, Said};
use mp_record::notes::{LaneNotes, NoteError};
use mp_words::note::Note;
use mp_words::numbers::{ReqId, Slot};
use mp_words::trying::{Back, TryEnd};
use std::alloc::Global;
use std::marker::Model;

/// The events that a desk noted, in order, and room for more of them. Either all are kept, or all but the sections, of
/// which contracts alone know then.
#[derive(Drop)]
pub struct Noted {
    kept: LaneNotes,
    keeps: bool,
    told: Told,
}

impl Model for Noted {
    ghost use Rattle.std.specs.Prelude.{◌≡◌};
    ghost use Rattle.mp_desk.specs.Noted.{kept_of, NotedView};

    ghost Value = { NotedView };

    ghost view = { λ n. record { events = n.told.events; spare = n.kept.spare; keeps = n.keeps } };

    ghost invariant = { λ n. n.kept.events ≡ kept_of n.keeps n.told.events };
}

impl Noted {
    /// No event. It takes no memory.
    pub fn make(alloc: Global, keeps: bool) -> Noted
        ensures events { result.events ≡ [] }
        ensures keeps { result.keeps ≡ keeps }
    {
        Noted {
            kept: LaneNotes::make(alloc),
            keeps,
            told: Told::none(),
        }
    }

    /// Whether the sections are kept.
    pub fn keeps(&self) -> bool
        ensures { result ≡ self.now.keeps }
    {
        self.keeps
    }

    /// Makes room for this many more events.
    ///
    /// # Errors
    ///
    /// `NoMemory` where memory runs out, and never where there was room. The events are as they were.
    pub fn reserve(&mut self, more: usize) -> Result<(), NoteError>
        ensures room { OnOk result (more ≤ self.new.spare) }
        ensures spare { self.old.spare ≤ self.new.spare }
        ensures events { self.new.events ≡ self.old.events }
        ensures cause { OnErr result (self.old.spare + 1 ≤ more) }
        ensures keeps { self.new.keeps ≡ self.old.keeps }
    {
        self.kept.reserve(more)
    }

    /// Notes what a line of the script, or a round of the drain, says of itself. It takes no memory.
    pub fn push_said(&mut self, line: u32, said: Said)
        requires { 1 ≤ self.old.spare }
        ensures events { self.new.events ≡ self.old.events ++ event.At line said ∷ [] }
        ensures spare { self.old.spare ≤ self.new.spare + 1 }
        ensures keeps { self.new.keeps ≡ self.old.keeps }
    {
        let noted = said;
        self.told.note(&Event::At { line, said });
        self.kept.push_said(line, noted);
    }

    /// Notes a try of a request. It takes no memory.
    pub fn push_try(&mut self, req: ReqId, hop: u32, end: TryEnd)
        requires { 1 ≤ self.old.spare }
        ensures events { self.new.events ≡ self.old.events ++ event.Try req hop end ∷ [] }
        ensures spare { self.old.spare ≤ self.new.spare + 1 }
        ensures keeps { self.new.keeps ≡ self.old.keeps }
    {
        let noted = end;
        self.told.note(&Event::Try { req, hop, end });
        self.kept.push_try(req, hop, noted);
    }

    /// Notes the end of a try's flight: the first `count` of these statuses, and how the request came back, where it
    /// did. It takes no memory.
    pub fn push_end(
        &mut self,
        req: ReqId,
        hop: u32,
        statuses: &[u16; 6],
        count: u8,
        back: &Option<Back>,
    )
        requires { 1 ≤ self.old.spare }
        ensures events { self.new.events ≡ self.old.events ++ event.Fin req hop statuses.now count back.now ∷ [] }
        ensures spare { self.old.spare ≤ self.new.spare + 1 }
        ensures keeps { self.new.keeps ≡ self.old.keeps }
    {
        self.told.note(&Event::Fin {
            req,
            hop,
            statuses: *statuses,
            count,
            back: *back,
        });
        self.kept.push_end(req, hop, statuses, count, back);
    }

    /// Notes a section, with the other version of a row that it met, if it did. It takes no memory.
    pub fn push_section(&mut self, note: &Note, moved: &Option<(Slot, u32)>)
        requires { 1 ≤ self.old.spare }
        ensures events { self.new.events ≡ self.old.events ++ event.Sec note.now moved.now ∷ [] }
        ensures spare { self.old.spare ≤ self.new.spare + 1 }
        ensures keeps { self.new.keeps ≡ self.old.keeps }
    {
        self.told.note(&Event::Sec {
            note: *note,
            moved: *moved,
        });
        if self.keeps {
            self.kept.push_section(note, moved);
        }
    }

    /// What is kept of the events.
    pub fn into_kept(self) -> LaneNotes
        ensures { result.events ≡ kept_of self.keeps self.events }
    {
        let Noted {
            kept,
            keeps: _,
            told: _,
        } = self;
        kept
    }

    /// The events but for the sections.
    ///
    /// # Errors
    ///
    /// `NoMemory` where memory runs out.
    pub fn into_plain(self, alloc: Global) -> Result<LaneNotes, NoteError>
        ensures { IfOk result (λ plain. plain.events ≡ filter is_plain self.events) }
    {
        let Noted {
            kept,
            keeps,
            told: _,
        } = self;
        if keeps {
            kept.without_sections(alloc)
        } else {
            Ok(kept)
        }
    }
}
