//! The reader of scripts.

ghost use Rattle.std.specs.Prelude.{◌≡◌, ◌≤◌, None, Some, IfOk, IfErr, OnOk, length};
ghost use Rattle.std.specs.List.{list_all};
ghost use Rattle.mp_checks.specs.Checks.{Reads, Answers, first_fault, each_from};
ghost use Rattle.mp_script.specs.Splitting.{is_script_byte, lines_of};
ghost use Rattle.mp_script.specs.Lines.{byte_checks, line_checks};
ghost use Rattle.mp_script.specs.Script.{checks, script_of, script_in, IsLeastFault};
ghost use Rattle.mp_script.specs.Facts.{IsScript, IsOver};

use crate::errors::ScriptError;
use crate::places::places_of;
use crate::progress::script_in;
use crate::requests::Requests;
use crate::script::Script;
use crate::setting::Setting;
use crate::submits::submitted_in;
use mp_topology::topology::Topology;
use std::alloc::{AllocError, Global};

fn is_script_byte(b: u8) -> bool
    ensures { result ≡ is_script_byte b }
{
    ((b >= 32) & (b <= 126)) | (b == 9) | (b == 13) | (b == 10)
}

/// Whether each byte may stand in a script. No byte ends the loop, so a machine can look at many of them at once.
fn are_script_bytes(bytes: &[u8]) -> bool
    ensures { result ≡ list_all is_script_byte bytes.now }
{
    let mut good = true;
    for b in bytes {
        good = good & is_script_byte(*b);
    }
    good
}

/// Checks that each byte may stand in a script.
fn check_bytes(bytes: &[u8]) -> Result<(), ScriptError>
    requires { length bytes.now ≤ 16777216 }
    ensures { Reads ScriptError.NoMemory result (each_from byte_checks 0 bytes.now) tt }
{
    if are_script_bytes(bytes) {
        return Ok(());
    }
    for (i, b) in bytes.iter().enumerate() {
        if !is_script_byte(*b) {
            return Err(ScriptError::NotAscii(i as u32));
        }
    }
    Ok(())
}

/// What a text is read over.
fn setting_of<'a>(
    alloc: Global,
    topology: &'a Topology,
    pages: usize,
    submits: Option<Requests>,
) -> Result<Setting<'a>, AllocError>
    requires controllers { length topology.now.controllers ≤ 64 }
    requires nodes { topology.now.near.nodes ≤ 8 }
    ensures topology { IfOk result (λ s. s.topology.now ≡ topology.now) }
    ensures pages { IfOk result (λ s. s.pages ≡ pages) }
    ensures submits { IfOk result (λ s. s.submits ≡ submits) }
{
    Ok(Setting {
        topology,
        places: places_of(alloc, topology.controllers.as_slice())?,
        pages,
        submits,
    })
}

/// The script of the lines of a text where each line that finishes a request stands behind the one that submits it. A
/// refusal says nothing.
fn script_at_once<'a>(
    alloc: Global,
    bytes: &'a [u8],
    topology: &'a Topology,
    pages: usize,
) -> Result<Script, ScriptError>
    requires controllers { length topology.now.controllers ≤ 64 }
    requires nodes { topology.now.near.nodes ≤ 8 }
    ensures few { OnOk result (length (lines_of bytes.now) ≤ 65536) }
    ensures passed { OnOk result (first_fault (each_from (line_checks topology.now pages (lines_of bytes.now)) 0 (lines_of bytes.now)) ≡ None) }
    ensures value { IfOk result (λ s. s ≡ script_of topology.now.controllers (lines_of bytes.now)) }
{
    let setting = setting_of(alloc, topology, pages, None)?;
    script_in(alloc, &setting, bytes)
}

/// The script of the lines of a text. What the whole text submits is collected only where some line is refused without
/// it.
fn script_of_lines<'a>(
    alloc: Global,
    bytes: &'a [u8],
    topology: &'a Topology,
    pages: usize,
) -> Result<Script, ScriptError>
    requires controllers { length topology.now.controllers ≤ 64 }
    requires nodes { topology.now.near.nodes ≤ 8 }
    ensures few { OnOk result (length (lines_of bytes.now) ≤ 65536) }
    ensures read { Reads ScriptError.NoMemory result (each_from (line_checks topology.now pages (lines_of bytes.now)) 0 (lines_of bytes.now)) (script_of topology.now.controllers (lines_of bytes.now)) }
{
    if let Ok(read) = script_at_once(alloc, bytes, topology, pages) {
        return Ok(read);
    }
    let submits = submitted_in(alloc, u32::from(topology.near.nodes), bytes)?;
    let setting = setting_of(alloc, topology, pages, Some(submits))?;
    script_in(alloc, &setting, bytes)
}

/// The script of a text, where it passes every check.
#[tactic(auto, using(mp_checks::proofs::CheckLaws::fault_append), unfolding(crate::specs::Script::checks))]
fn checked_script<'a>(
    alloc: Global,
    bytes: &'a [u8],
    topology: &'a Topology,
    pages: usize,
) -> Result<Script, ScriptError>
    requires bytes { length bytes.now ≤ 16777216 }
    requires controllers { length topology.now.controllers ≤ 64 }
    requires nodes { topology.now.near.nodes ≤ 8 }
    ensures { Reads ScriptError.NoMemory result (checks topology.now pages bytes.now) (script_of topology.now.controllers (lines_of bytes.now)) }
{
    check_bytes(bytes)?;
    script_of_lines(alloc, bytes, topology, pages)
}

/// Reads a script, of at most 16,777,216 bytes, over a topology and so many boxes. The topology has at most 64
/// controllers and 8 nodes, as `read_topology` gives.
///
/// # Errors
///
/// `NotAscii` with the offset of the first byte that isn't 20h to 7Eh, a tab, a carriage return or a line feed. Else the
/// first line with a fault decides, and in a line the first of these, each with the line's number from 1:
///
/// - `Limit`: it is line 65,537, or it begins a seventeenth lane.
/// - `Line`: its words are no form of a line, or it stands where the form may not.
/// - `NotKeeper`: it is the keeper's, and stands in another lane.
/// - `Number`: a number isn't one to ten digits, or a status not four hexadecimal digits, or it is out of its range.
/// - `Unknown`: a name, a box or a controller's ANA isn't there, or no line of the text submits the request that it
///   finishes.
/// - `Repeat`: its request was submitted or its attempt answered by an earlier line, or it is a second keeper.
///
/// `NoMemory` is answered where memory runs out.
pub fn read_script(
    alloc: Global,
    bytes: &[u8],
    topology: &Topology,
    pages: usize,
) -> Result<Script, ScriptError>
    requires bytes { length bytes.now ≤ 16777216 }
    requires controllers { length topology.now.controllers ≤ 64 }
    requires nodes { topology.now.near.nodes ≤ 8 }
    // The script that the text is, or why it is none.
    ensures exact { Answers ScriptError.NoMemory result (script_in topology.now pages bytes.now) }
    // Where each byte may stand in a script, the refusal is the least pair of line and check that fails.
    ensures least { IfErr result (λ e. (e ≡ ScriptError.NoMemory → ⊥) → first_fault (each_from byte_checks 0 bytes.now) ≡ None → IsLeastFault topology.now pages (lines_of bytes.now) e) }
    ensures read { IfOk result IsScript }
    ensures over { IfOk result (IsOver topology.now pages) }
{
    checked_script(alloc, bytes, topology, pages)
}
