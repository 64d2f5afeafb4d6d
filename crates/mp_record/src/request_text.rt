//! The text of the requests.

ghost use Rattle.std.specs.Prelude.{◌≡◌, ◌≤◌, ◌+◌, ◌++◌, OnOk, codes, map, length, take, slice_get, slice_index_or, None, Some, []};
ghost use Rattle.std.specs.List.{flat_map, last_or};
ghost use Rattle.mp_words.specs.Request.{outcome_of, outcome_after, tried_of, attempts_of};
ghost use Rattle.mp_line.specs.Words.{one_number, two_numbers, list_word};
ghost use Rattle.mp_record.specs.RunText.{as_written, trail, try_names, version_name, outcome_word};
ghost use Rattle.mp_record.specs.NotedText.{tries_line, asked_line};

use crate::words::{put_comma, put_dash};
use mp_line::line::{place_byte, place_number, place_numbers, place_status, place_word};
use mp_topology::names::controller_name;
use mp_topology::topology::Topology;
use mp_words::entry::RowEntry;
use mp_words::numbered::Numbered;
use mp_words::numbers::{Node, ReqId, Slot};
use mp_words::request::Request;
use mp_words::tries::Tries;
use mp_words::trying::{Outcome, TryEnd};
use sqlite_items::Items;
use std::alloc::AllocError;

/// The name of the controller of this version of the slot's row, or nothing where there is no such version.
fn sent_name<'t>(
    topology: &'t Topology,
    rows: &[Items<RowEntry>],
    slot: Slot,
    version: u32,
) -> &'t str
    ensures { result.now ≡ version_name topology.now (slice_get (slice_index_or rows.now slot []) version) }
{
    match rows.get(slot.get() as usize) {
        None => "",
        Some(entries) => match entries.as_slice().get(version as usize) {
            None => "",
            Some(entry) => controller_name(topology, entry.row.ctrl),
        },
    }
}

/// A name.
fn put_name(text: &mut Vec<u8>, name: &str) -> Result<(), AllocError>
    ensures { OnOk result (text.new.items ≡ text.old.items ++ name.now) }
{
    text.extend_from_slice(name.as_bytes())
}

/// The names of the controllers that a request was sent to, joined by commas, or a dash.
fn put_trail(
    text: &mut Vec<u8>,
    topology: &Topology,
    rows: &[Items<RowEntry>],
    tries: &Tries,
) -> Result<(), AllocError>
    ensures { OnOk result (text.new.items ≡ text.old.items ++ list_word as_written (trail topology.now rows.now (map tried_of tries.now.items))) }
{
    let mut further = false;
    for place in 0..tries.len() {
        if let TryEnd::Sent(slot, version) = tries.end_at(place) {
            put_comma(text, further)?;
            put_name(text, sent_name(topology, rows, slot, version))?;
            further = true;
        }
    }
    put_dash(text, further)
}

/// Places how a request ended, or that it is listed.
fn place_outcome(line: &mut [u8; 128], at: usize, outcome: Outcome) -> usize
    requires { at + 9 ≤ 128 }
    ensures bytes { take result line.new ≡ take at line.old ++ outcome_word outcome }
    ensures end { (at ≤ result) × (result ≤ at + 9) }
{
    match outcome {
        Outcome::Done(status) => {
            let at = place_word(line, at, b"done ");
            place_status(line, at, status)
        }
        Outcome::Failed => place_word(line, at, b"failed"),
        Outcome::Waiting => place_word(line, at, b"listed"),
        Outcome::Sent => place_word(line, at, b"sent"),
    }
}

/// How a request with these tries stands, and after how many attempts.
fn put_end(text: &mut Vec<u8>, line: &mut [u8; 128], tries: &Tries) -> Result<(), AllocError>
    ensures { OnOk result (text.new.items ≡ text.old.items ++ codes " " ++ one_number (outcome_word (outcome_of (last_or None (map tried_of tries.now.items)))) (attempts_of (map tried_of tries.now.items)) ++ codes "\n") }
{
    let at = place_byte(line, 0, b' ');
    let at = place_outcome(line, at, tries.outcome());
    let at = place_byte(line, at, b' ');
    let at = place_number(line, at, tries.attempts());
    let end = place_byte(line, at, b'\n');
    text.extend_from_slice(&line[..end])
}

/// The beginning of the line of a request of this number, that was submitted on this node.
fn put_asked(
    text: &mut Vec<u8>,
    line: &mut [u8; 128],
    id: ReqId,
    node: Node,
) -> Result<(), AllocError>
    ensures { OnOk result (text.new.items ≡ text.old.items ++ two_numbers (codes "request") id node ++ codes " ") }
{
    let at = place_word(line, 0, b"request ");
    let end = place_numbers(line, at, id.get(), node.get());
    text.extend_from_slice(&line[..end])
}

/// The line of a request of this number with these tries, that was submitted on this node.
pub(crate) fn put_request(
    text: &mut Vec<u8>,
    line: &mut [u8; 128],
    topology: &Topology,
    rows: &[Items<RowEntry>],
    id: ReqId,
    node: Node,
    tries: &Tries,
) -> Result<(), AllocError>
    ensures { OnOk result (text.new.items ≡ text.old.items ++ tries_line topology.now rows.now id node tries.now.items) }
{
    put_asked(text, line, id, node)?;
    put_trail(text, topology, rows, tries)?;
    put_end(text, line, tries)
}

/// The lines of the requests.
pub(crate) fn put_requests(
    text: &mut Vec<u8>,
    topology: &Topology,
    rows: &[Items<RowEntry>],
    requests: &[Request],
) -> Result<(), AllocError>
    ensures { OnOk result (text.new.items ≡ text.old.items ++ flat_map (asked_line topology.now rows.now) requests.now) }
{
    let mut line = [0; 128];
    for request in requests {
        let id = request.id();
        let node = request.node();
        put_request(text, &mut line, topology, rows, id, node, request.tries())?;
    }
    Ok(())
}
