//! Sections that are kept like another, and a lane's events without the sections.

use super::lines::{event, fin, much_read, nothing_read, section};
use super::{notes, opened, slot};
use crate::event::{Event, Said};
use crate::notes::{LaneNotes, NoteError};
use mp_words::numbers::Slot;
use mp_words::trying::Back;
use std::alloc::{AllocError, Global};
use std::test::Fail;

/// A section with this ticket and this current path, that read nothing else.
fn entered(ticket: u32, current: Option<Option<Slot>>) -> Event {
    let mut note = nothing_read();
    note.ticket = ticket;
    note.current = current;
    section(note, None)
}

/// An end that stands apart: a flight that came back with pending set.
fn lost(count: u8) -> Event {
    fin(count, Some(Back::Set(opened(11))))
}

/// Events by number: sections that stand apart, sections that are like one, and ends that stand apart between them.
fn mixed(number: u32) -> Event {
    match number % 12 {
        0 => entered(number, None),
        1 => entered(number, Some(None)),
        2 => entered(number, Some(Some(slot(number % 15)))),
        3 => super::at(number, Said::Submit),
        4 => lost(1),
        5 => entered(number, None),
        6 => section(nothing_read(), Some((slot(3), number))),
        7 => lost(2),
        8 => lost(3),
        9 => section(much_read(), None),
        10 => section(much_read(), None),
        _ => event((number % 8) as u8),
    }
}

/// The first of these events, with the sections or without.
fn first(alloc: Global, count: u32, sections: bool) -> Result<LaneNotes, NoteError> {
    let mut notes = LaneNotes::make(alloc);
    for number in 0..count {
        let event = mixed(number);
        if sections || !matches!(&event, Event::Sec { .. }) {
            notes.reserve(1)?;
            notes.push(event);
        }
    }
    Ok(notes)
}

/// The lines of these events, each by its place.
fn text_of(alloc: Global, notes: &LaneNotes) -> Result<Vec<u8>, AllocError> {
    let mut text = Vec::new(alloc);
    let mut line = [0; 128];
    for place in 0..notes.len() {
        crate::event_text::put_event(&mut text, &mut line, &notes.at(place))?;
    }
    Ok(text)
}

#[test]
fn takes_the_sections_out(rt: HostRuntime) -> Result<(), Fail> {
    let alloc = rt.alloc();
    for count in [0, 1, 3, 4, 5, 8, 12, 30, 2000] {
        let plain = first(alloc, count, true)?.without_sections(alloc)?;
        let wanted = first(alloc, count, false)?;
        assert_eq!(rt; plain.len(), wanted.len());
        let text = text_of(alloc, &plain)?;
        assert_eq!(rt; text.as_slice(), text_of(alloc, &wanted)?.as_slice());
        let mut put = Vec::new(alloc);
        plain.put(&mut put, true)?;
        assert_eq!(rt; put.as_slice(), text.as_slice());
    }
    Ok(())
}

/// What is left of the first twelve, and of three that come then.
const LEFT: &str =
    "at 3 submit\nfin 65535 1 0302 back 11:0\nfin 65535 1 0302,0006 back 11:0\nfin 65535 1 0302,0006,7FFF back 11:0\nfin 65535 1 0302 back 11:0\nsec 0 9 - - 4 -\nfin 65535 1 0302,0006 back 11:0\nsec 0 8 - - - -\n";

#[test]
fn goes_on_without_the_sections(rt: HostRuntime) -> Result<(), Fail> {
    let alloc = rt.alloc();
    let mut plain = first(alloc, 12, true)?.without_sections(alloc)?;
    for event in [entered(9, Some(Some(slot(4)))), lost(2), entered(8, None)] {
        plain.reserve(1)?;
        plain.push(event);
    }
    assert_eq!(rt; text_of(alloc, &plain)?.as_slice(), LEFT.as_bytes());
    Ok(())
}

/// Sections that differ in their tickets and current paths, and one that has another side.
const ALIKE: &str =
    "sec 0 5 - - - -\nsec 0 5 - - none -\nsec 0 6 - - 14 -\nsec 0 6 - - 0 -\nsec 0 7 - - - -\nsec 1 5 0 0:0,14:6 none 1:2,14:40\n";

#[test]
fn writes_sections_that_are_alike(rt: HostRuntime) -> Result<(), Fail> {
    let alloc = rt.alloc();
    let events = [
        entered(5, None),
        entered(5, Some(None)),
        entered(6, Some(Some(slot(14)))),
        entered(6, Some(Some(slot(0)))),
        entered(7, None),
        section(much_read(), None),
    ];
    let mut text = Vec::new(alloc);
    notes(alloc, &events)?.put(&mut text, true)?;
    assert_eq!(rt; text.as_slice(), ALIKE.as_bytes());
    Ok(())
}
