//! The text of a run.

ghost use Rattle.std.specs.Prelude.{◌≡◌, ◌++◌, IfOk};
ghost use Rattle.mp_record.specs.RunView.{view_of, noted};
ghost use Rattle.mp_record.specs.RunText.{run_text};
ghost use Rattle.mp_record.specs.NotedText.{noted_text};

use crate::history_text::{put_head, put_keeping, put_rows};
use crate::lane_text::put_lanes;
use crate::request_text::put_requests;
use crate::run::Run;
use mp_topology::topology::Topology;
use std::alloc::{AllocError, Global};
use thiserror::Error;

/// Why no text was made.
#[derive(Clone, Copy, Debug, Error)]
pub enum TextError {
    #[error("out of memory")]
    NoMemory,
}

/// The text of a run, part by part.
fn text_of(
    alloc: Global,
    run: &Run,
    topology: &Topology,
    notes: bool,
) -> Result<Vec<u8>, AllocError>
    ensures { IfOk result (λ text. text.items ≡ noted_text notes topology.now run.now) }
{
    let rows = run.rows.as_slice();
    let mut text = Vec::from_slice(alloc, b"anamp 1\n")?;
    put_head(&mut text, topology)?;
    put_rows(&mut text, topology, rows)?;
    put_keeping(&mut text, notes, run.keeping.as_slice())?;
    put_lanes(&mut text, notes, &run.keeper, run.lanes.as_slice())?;
    text.extend_from_slice(b"drain\n")?;
    run.drain.put(&mut text, notes)?;
    put_requests(&mut text, topology, rows, run.requests.as_slice())?;
    text.extend_from_slice(b"end\n")?;
    Ok(text)
}

/// The text of a run, with the sections and closings exactly where `notes` is true.
///
/// # Errors
///
/// `NoMemory` where memory runs out.
pub fn run_text(
    alloc: Global,
    run: &Run,
    topology: &Topology,
    notes: bool,
) -> Result<Vec<u8>, TextError>
    ensures { IfOk result (λ bytes. bytes.items ≡ run_text topology.now (noted notes (view_of run.now))) }
{
    match text_of(alloc, run, topology, notes) {
        Ok(text) => Ok(text),
        Err(AllocError) => Err(TextError::NoMemory),
    }
}
