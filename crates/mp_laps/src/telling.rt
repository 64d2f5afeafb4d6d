//! What desks and lanes have noted, as text.

use mp_record::event::{Event, Said};
use mp_record::notes::LaneNotes;
use mp_words::names::cstate_name;
use mp_words::trying::{Back, TryEnd};
use std::alloc::{AllocError, Global};

/// What a lane says of a line.
fn put_said(text: &mut String, said: Said) -> Result<(), AllocError> {
    match said {
        Said::Submit => write!(text, "submit"),
        Said::Finish(count) => write!(text, "finish {count}"),
        Said::Requeue(count) => write!(text, "requeue {count}"),
        Said::Changed(slot, version) => write!(text, "changed {} {version}", slot.get()),
        Said::Refused(slot, version, cstate) => {
            write!(
                text,
                "refused {} {version} {}",
                slot.get(),
                cstate_name(cstate)
            )
        }
        Said::NotArmed(slot, version) => write!(text, "not-armed {} {version}", slot.get()),
        Said::NoPath(order) => write!(text, "no-path {order}"),
        Said::Page(kind, offset) => write!(text, "page {kind} {offset}"),
        Said::Added(slot, version, order) => {
            write!(text, "added {} {version} {order}", slot.get())
        }
        Said::Already(slot) => write!(text, "already {}", slot.get()),
        Said::Marked(slot, version) => write!(text, "marked {} {version}", slot.get()),
        Said::Idle => write!(text, "idle"),
        Said::Freed(slot, version, flips) => {
            write!(text, "freed {} {version} {flips}", slot.get())
        }
        Said::Policy(order) => write!(text, "policy {order}"),
        _ => write!(text, "other"),
    }
}

/// How a request came back, or that it is done.
fn put_back(text: &mut String, back: Option<Back>) -> Result<(), AllocError> {
    match back {
        None => write!(text, "done\n"),
        Some(Back::Unset) => write!(text, "back -\n"),
        Some(Back::Set(entry)) => {
            write!(text, "back {}:{}\n", entry.slot.get(), entry.row.version)
        }
    }
}

/// One event of a lane, as a run's text has it, but for a section's reads.
fn put_event(text: &mut String, event: &Event) -> Result<(), AllocError> {
    match event {
        Event::Sec { note, moved: _ } => write!(text, "sec {} {}\n", note.side, note.ticket),
        Event::At { line, said } => {
            write!(text, "at {line} ")?;
            put_said(text, *said)?;
            write!(text, "\n")
        }
        Event::Try { req, hop, end } => {
            write!(text, "try {} {hop} ", req.get())?;
            match end {
                TryEnd::Sent(slot, version) => write!(text, "sent {} {version}\n", slot.get()),
                TryEnd::Listed => write!(text, "listed\n"),
                TryEnd::Failed => write!(text, "failed\n"),
            }
        }
        Event::Fin {
            req,
            hop,
            statuses,
            count,
            back,
        } => {
            write!(text, "fin {} {hop} {count} {:04x} ", req.get(), statuses[0])?;
            put_back(text, *back)
        }
    }
}

/// What was noted, line by line.
pub fn told(alloc: Global, notes: &LaneNotes) -> Result<String, AllocError> {
    let mut text = String::new(alloc);
    for place in 0..notes.len() {
        let event = notes.at(place);
        put_event(&mut text, &event)?;
    }
    Ok(text)
}
