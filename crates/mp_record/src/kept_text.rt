//! The text of kept events.

ghost use Rattle.std.specs.Prelude.{◌≡◌, ◌||◌, ◌++◌, OnOk, length};
ghost use Rattle.std.specs.List.{flat_map};
ghost use Rattle.mp_record.specs.RunView.{is_plain};
ghost use Rattle.mp_record.specs.NotedText.{noted_event};
ghost use Rattle.mp_record.specs.Kept.{retold, told, IsBelow, AreBelow};

use crate::event::Event;
use crate::event_text::{put_at, put_event, put_fin, put_try};
use crate::kept::{Kept, retold};
use crate::plain::is_plain;
use mp_words::numbers::Slot;
use mp_words::trying::Back;
use std::alloc::AllocError;

/// Whether an event has a line: a section has one only with the notes.
fn has_line(notes: bool, event: &Event) -> bool
    ensures { result ≡ (notes || is_plain event.now) }
{
    notes || is_plain(event)
}

/// The line of an event; a section has one only with the notes.
fn put_noted(
    text: &mut Vec<u8>,
    line: &mut [u8; 128],
    notes: bool,
    event: &Event,
) -> Result<(), AllocError>
    ensures { OnOk result (text.new.items ≡ text.old.items ++ noted_event notes event.now) }
{
    if has_line(notes, event) {
        return put_event(text, line, event);
    }
    Ok(())
}

/// The line of an event with another ticket and another current path, where it is a section; a section has one only
/// with the notes.
fn put_retold(
    text: &mut Vec<u8>,
    line: &mut [u8; 128],
    notes: bool,
    event: &Event,
    ticket: u32,
    current: &Option<Option<Slot>>,
) -> Result<(), AllocError>
    ensures { OnOk result (text.new.items ≡ text.old.items ++ noted_event notes (retold ticket current.now event.now)) }
{
    if has_line(notes, event) {
        return put_event(text, line, &retold(event, ticket, current));
    }
    Ok(())
}

/// The line of a kept event. One that is small and no section has a line without the notes too.
fn put_kept(
    text: &mut Vec<u8>,
    line: &mut [u8; 128],
    notes: bool,
    kept: &Kept,
    apart: &[Event],
) -> Result<(), AllocError>
    requires { IsBelow (length apart.now) kept.now }
    ensures { OnOk result (text.new.items ≡ text.old.items ++ noted_event notes (told apart.now kept.now)) }
{
    match kept {
        Kept::Apart(place) => put_noted(text, line, notes, &apart[*place as usize]),
        Kept::Section {
            like,
            ticket,
            current,
        } => put_retold(text, line, notes, &apart[*like as usize], *ticket, current),
        Kept::At { line: number, said } => put_at(text, line, *number, *said),
        Kept::Try { req, hop, end } => put_try(text, line, *req, *hop, *end),
        Kept::Done {
            req,
            hop,
            statuses,
            count,
        } => put_fin(text, line, *req, *hop, statuses, *count, &None),
        Kept::Unset {
            req,
            hop,
            statuses,
            count,
        } => put_fin(text, line, *req, *hop, statuses, *count, &Some(Back::Unset)),
    }
}

/// The lines of kept events.
pub(crate) fn put_each(
    text: &mut Vec<u8>,
    notes: bool,
    kept: &[Kept],
    apart: &[Event],
) -> Result<(), AllocError>
    requires { AreBelow (length apart.now) kept.now }
    ensures { OnOk result (text.new.items ≡ text.old.items ++ flat_map (λ k. noted_event notes (told apart.now k)) kept.now) }
{
    let mut line = [0; 128];
    for one in kept {
        put_kept(text, &mut line, notes, one, apart)?;
    }
    Ok(())
}
