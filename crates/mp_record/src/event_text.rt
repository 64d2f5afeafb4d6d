//! The text of an event.

ghost use Rattle.std.specs.Prelude.{◌≡◌, ◌≤◌, ◌+◌, ◌++◌, OnOk, length, take};
ghost use Rattle.mp_record.specs.EventText.{said_word, end_word, back_word, event_line};
ghost use Rattle.mp_record.specs.declared.event.Event.TheVariants as an;

use crate::event::{Event, Said};
use crate::note_text::put_section;
use crate::words::grace_name;
use mp_line::line::{
    place_byte, place_number, place_numbers, place_one, place_pair, place_statuses, place_three,
    place_two, place_word,
};
use mp_words::names::{cstate_name, page_check_name};
use mp_words::numbers::ReqId;
use mp_words::trying::{Back, TryEnd};
use std::alloc::AllocError;

/// Places what a line says of itself.
fn place_said(line: &mut [u8; 128], at: usize, said: Said) -> usize
    requires { at + 48 ≤ 128 }
    ensures bytes { take result line.new ≡ take at line.old ++ said_word said }
    ensures end { (at ≤ result) × (result ≤ at + 48) }
{
    match said {
        Said::Submit => place_word(line, at, b"submit"),
        Said::Finish(count) => {
            let at = place_word(line, at, b"finish ");
            place_number(line, at, count)
        }
        Said::Requeue(count) => place_one(line, at, b"requeue", count),
        Said::Changed(slot, version) => place_two(line, at, b"changed", slot.get(), version),
        Said::Refused(slot, version, cstate) => {
            let at = place_two(line, at, b"refused", slot.get(), version);
            let at = place_byte(line, at, b' ');
            place_word(line, at, cstate_name(cstate).as_bytes())
        }
        Said::NotArmed(slot, version) => place_two(line, at, b"not-armed", slot.get(), version),
        Said::NoPath(order) => place_one(line, at, b"no-path", order),
        Said::Page(kind, offset) => {
            let at = place_word(line, at, b"page ");
            place_one(line, at, page_check_name(kind).as_bytes(), offset)
        }
        Said::Added(slot, version, order) => {
            place_three(line, at, b"added", slot.get(), version, order)
        }
        Said::Already(slot) => place_one(line, at, b"already", slot.get()),
        Said::NoSlot => place_word(line, at, b"no-slot"),
        Said::OrderFull => place_word(line, at, b"order-full"),
        Said::Marked(slot, version) => place_two(line, at, b"marked", slot.get(), version),
        Said::Idle => place_word(line, at, b"idle"),
        Said::Freed(slot, version, flips) => {
            place_three(line, at, b"freed", slot.get(), version, flips)
        }
        Said::AgainSection(slot, grace, side, inside) => {
            let at = place_one(line, at, b"again", slot.get());
            let at = place_byte(line, at, b' ');
            place_two(
                line,
                at,
                grace_name(grace).as_bytes(),
                u32::from(side),
                inside,
            )
        }
        Said::AgainDepth(slot, depth) => {
            let at = place_one(line, at, b"again", slot.get());
            let at = place_byte(line, at, b' ');
            place_one(line, at, b"depth", depth)
        }
        Said::Policy(order) => place_one(line, at, b"policy", order),
    }
}

/// Places how a try ended.
fn place_end(line: &mut [u8; 128], at: usize, end: TryEnd) -> usize
    requires { at + 26 ≤ 128 }
    ensures bytes { take result line.new ≡ take at line.old ++ end_word end }
    ensures end { (at ≤ result) × (result ≤ at + 26) }
{
    match end {
        TryEnd::Sent(slot, version) => {
            let at = place_word(line, at, b"sent ");
            let at = place_number(line, at, slot.get());
            let at = place_byte(line, at, b' ');
            place_number(line, at, version)
        }
        TryEnd::Listed => place_word(line, at, b"listed"),
        TryEnd::Failed => place_word(line, at, b"failed"),
    }
}

/// Places how a flight came back, or that it is done.
fn place_back(line: &mut [u8; 128], at: usize, back: &Option<Back>) -> usize
    requires { at + 26 ≤ 128 }
    ensures bytes { take result line.new ≡ take at line.old ++ back_word back.now }
    ensures end { (at ≤ result) × (result ≤ at + 26) }
{
    match back {
        None => place_word(line, at, b"done"),
        Some(Back::Unset) => place_word(line, at, b"back -"),
        Some(Back::Set(entry)) => {
            let at = place_word(line, at, b"back ");
            place_pair(line, at, entry.slot.get(), entry.row.version)
        }
    }
}

/// The first `count` of these statuses.
fn first_statuses(statuses: &[u16; 6], count: u8) -> &[u16]
    ensures first { result.now ≡ take count statuses.now }
    ensures few { length result.now ≤ 6 }
{
    if count < 6 {
        &statuses[..count as usize]
    } else {
        &statuses[..]
    }
}

/// The line of what a line of the script, or a round of the drain, says of itself.
pub(crate) fn put_at(
    text: &mut Vec<u8>,
    line: &mut [u8; 128],
    number: u32,
    said: Said,
) -> Result<(), AllocError>
    ensures { OnOk result (text.new.items ≡ text.old.items ++ event_line (an.At number said)) }
{
    let at = place_word(line, 0, b"at ");
    let at = place_number(line, at, number);
    let at = place_byte(line, at, b' ');
    let at = place_said(line, at, said);
    let end = place_byte(line, at, b'\n');
    text.extend_from_slice(&line[..end])
}

/// The line of a try.
pub(crate) fn put_try(
    text: &mut Vec<u8>,
    line: &mut [u8; 128],
    req: ReqId,
    hop: u32,
    end: TryEnd,
) -> Result<(), AllocError>
    ensures { OnOk result (text.new.items ≡ text.old.items ++ event_line (an.Try req hop end)) }
{
    let at = place_word(line, 0, b"try ");
    let at = place_numbers(line, at, req.get(), hop);
    let at = place_end(line, at, end);
    let end = place_byte(line, at, b'\n');
    text.extend_from_slice(&line[..end])
}

/// The line of a try's end.
pub(crate) fn put_fin(
    text: &mut Vec<u8>,
    line: &mut [u8; 128],
    req: ReqId,
    hop: u32,
    statuses: &[u16; 6],
    count: u8,
    back: &Option<Back>,
) -> Result<(), AllocError>
    ensures { OnOk result (text.new.items ≡ text.old.items ++ event_line (an.Fin req hop statuses.now count back.now)) }
{
    let at = place_word(line, 0, b"fin ");
    let at = place_numbers(line, at, req.get(), hop);
    let at = place_statuses(line, at, first_statuses(statuses, count));
    let at = place_byte(line, at, b' ');
    let at = place_back(line, at, back);
    let end = place_byte(line, at, b'\n');
    text.extend_from_slice(&line[..end])
}

/// The line of an event.
pub(crate) fn put_event(
    text: &mut Vec<u8>,
    line: &mut [u8; 128],
    event: &Event,
) -> Result<(), AllocError>
    ensures { OnOk result (text.new.items ≡ text.old.items ++ event_line event.now) }
{
    match event {
        Event::Sec { note, moved } => put_section(text, note, *moved),
        Event::At { line: number, said } => put_at(text, line, *number, *said),
        Event::Try { req, hop, end } => put_try(text, line, *req, *hop, *end),
        Event::Fin {
            req,
            hop,
            statuses,
            count,
            back,
        } => put_fin(text, line, *req, *hop, statuses, *count, back),
    }
}
