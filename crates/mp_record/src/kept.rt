//! How an event is kept.

ghost use Rattle.std.specs.Prelude.{ℕ, ◌≡◌, ◌≤◌, IfSome, length};
ghost use Rattle.mp_words.specs.Like.{Tells, at_ticket};
ghost use Rattle.mp_record.specs.Kept.{at_current, retold, told, IsBelow, IsInOrder};
ghost use Rattle.mp_record.specs.declared.event.Event.TheVariants as an;

use crate::event::{Event, Said};
use mp_words::like::is_like;
use mp_words::note::Note;
use mp_words::numbers::{ReqId, Slot};
use mp_words::trying::TryEnd;

/// An event in few bytes, or the place of one that stands apart, whole.
///
/// `Section` is a section that differs from the one that stands apart at the place `like` in its ticket and the current
/// path that it read at most, `Done` is the end of a flight that didn't come back, and `Unset` that of one that came
/// back without pending set. The fields stand in an order that leaves no gap between them.
#[derive(Clone, Copy)]
pub(crate) enum Kept {
    Apart(u32),
    Section {
        like: u32,
        ticket: u32,
        current: Option<Option<Slot>>,
    },
    At {
        line: u32,
        said: Said,
    },
    Try {
        req: ReqId,
        hop: u32,
        end: TryEnd,
    },
    Done {
        count: u8,
        req: ReqId,
        hop: u32,
        statuses: [u16; 6],
    },
    Unset {
        count: u8,
        req: ReqId,
        hop: u32,
        statuses: [u16; 6],
    },
}

// A run keeps one for each event.
const _: () = prove!(size_of::<Kept>() == 20);

/// The note with another current path.
fn at_current(note: &Note, current: &Option<Option<Slot>>) -> Note
    ensures { result ≡ at_current current.now note.now }
{
    let mut note = *note;
    note.current = *current;
    note
}

/// The event with another ticket and another current path, where it is a section.
pub(crate) fn retold(event: &Event, ticket: u32, current: &Option<Option<Slot>>) -> Event
    ensures { result ≡ retold ticket current.now event.now }
{
    match event {
        Event::Sec { note, moved } => {
            let mut note = at_current(note, current);
            note.ticket = ticket;
            Event::Sec {
                note,
                moved: *moved,
            }
        }
        _ => *event,
    }
}

/// Whether two current paths are the same, if they were read.
fn is_same_path(a: &Option<Option<Slot>>, b: &Option<Option<Slot>>) -> bool
    ensures { Tells result a.now b.now }
{
    match (a, b) {
        (None, None) => true,
        (Some(None), Some(None)) => true,
        (Some(Some(a)), Some(Some(b))) => a.get() == b.get(),
        _ => false,
    }
}

/// Whether two notes differ in their tickets and the current paths that they read at most.
fn is_like_elsewhere(last: &Note, note: &Note) -> bool
    ensures { Tells result (at_ticket note.now.ticket (at_current note.now.current last.now)) note.now }
{
    if is_same_path(&last.current, &note.current) {
        is_like(last, note)
    } else {
        is_like(&at_current(last, &note.current), note)
    }
}

/// A section as it is kept in place, where the last event that stands apart is a section that is like it.
pub(crate) fn kept_section(
    note: &Note,
    moved: &Option<(Slot, u32)>,
    apart: &[Event],
) -> Option<Kept>
    requires { length apart.now ≤ 4294967296 }
    ensures told { IfSome result (λ k. told apart.now k ≡ an.Sec note.now moved.now) }
    ensures below { IfSome result (λ k. IsBelow (length apart.now) k) }
    ensures order { IfSome result (λ k. (m : ℕ) → IsInOrder apart.now m k) }
{
    let like = apart.len().checked_sub(1)?;
    match &apart[like] {
        Event::Sec {
            note: last,
            moved: met,
        } if is_like_elsewhere(last, note) && is_same_version(met, moved) => {
            Some(Kept::Section {
                like: like as u32,
                ticket: note.ticket,
                current: note.current,
            })
        }
        _ => None,
    }
}

/// Whether two versions of rows are the same, if any were met.
fn is_same_version(a: &Option<(Slot, u32)>, b: &Option<(Slot, u32)>) -> bool
    ensures { Tells result a.now b.now }
{
    match (a, b) {
        (None, None) => true,
        (Some((a, x)), Some((b, y))) => a.get() == b.get() && *x == *y,
        _ => false,
    }
}
