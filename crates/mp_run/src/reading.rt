//! What the files say, or the status with which a call ends that can't read them.

ghost use Rattle.std.specs.Prelude.{◌≡◌, ◌≤◌, ◌++◌, ◌∷◌, [], ℕ, Some, Ok, Err, IfOk, IfErr, All, length};
ghost use Rattle.mp_io.specs.Causes.{Rose};
ghost use Rattle.mp_io.specs.Files.{Files};
ghost use Rattle.mp_page.specs.Boxes.{boxes_in};
ghost use Rattle.mp_run.specs.Outcome.{read_of, topology_or, boxes_or, script_or, fits_in, Gives, IsReadStatus, IsTextStatus};
ghost use Rattle.mp_run.specs.Outside.{failed_by};
ghost use Rattle.mp_script.specs.Facts as scripts;
ghost use Rattle.mp_script.specs.Script.{script_in};
ghost use Rattle.mp_topology.specs.Topology.{topology_in};
ghost use Rattle.mp_topology.specs.Facts.{IsTopology};

use crate::status::Status;
use mp_io::errors::ReadError;
use mp_io::folder::Folder;
use mp_page::{BoxError, read_boxes};
use mp_script::errors::ScriptError;
use mp_script::pages::Pages;
use mp_script::reading::read_script;
use mp_script::script::Script;
use mp_topology::errors::TopologyError;
use mp_topology::reading::read_topology;
use mp_topology::topology::Topology;
use std::alloc::Global;

/// The most bytes that a file may have.
const MOST_BYTES: usize = 16_777_216;

/// Reads the file with number `file`, of this name.
pub(crate) fn read_file<F: Folder>(
    alloc: Global,
    folder: &mut F,
    name: &str,
    file: u8,
) -> Result<Vec<u8>, Status>
    ensures told { (files : Files) → F.files folder.old ≡ Some files → Gives (λ bytes. bytes.items) result (read_of files file name.now) }
    ensures within { IfOk result (λ bytes. length bytes.items ≤ 16777216) }
    ensures refused { IfErr result (IsReadStatus file) }
    ensures found { (files : Files) → F.files folder.old ≡ Some files → IfOk result (λ bytes. read_of files file name.now ≡ Ok bytes.items) }
    ensures fault { (i : ℕ) → result ≡ Err (Status.ReadFault i) → Rose (F.faults folder.old) (F.faults folder.new) }
    ensures asks { F.asked folder.new ≡ F.asked folder.old ++ name.now ∷ [] }
    ensures fails { F.failed folder.new ≡ failed_by (F.failed folder.old) name.now result }
    ensures later { F.faults folder.old ≤ F.faults folder.new }
    ensures kept { F.files folder.new ≡ F.files folder.old }
{
    match folder.read(alloc, name, MOST_BYTES) {
        Ok(bytes) => Ok(bytes),
        Err(ReadError::Failed) => Err(Status::ReadFault(file)),
        Err(ReadError::TooLong) => Err(Status::TooLong(file)),
        Err(ReadError::NoMemory) => Err(Status::NoMemory),
    }
}

/// The topology of a text.
pub(crate) fn topology_of(alloc: Global, bytes: &[u8]) -> Result<Topology, Status>
    ensures exact { Gives (λ t. t) result (topology_or (topology_in bytes.now)) }
    ensures refused { IfErr result IsTextStatus }
    ensures read { IfOk result IsTopology }
{
    match read_topology(alloc, bytes) {
        Ok(topology) => Ok(topology),
        Err(TopologyError::NoMemory) => Err(Status::NoMemory),
        Err(refusal) => Err(Status::Topology(refusal)),
    }
}

/// The boxes of a file, whose bytes are let go.
pub(crate) fn boxes_of(alloc: Global, bytes: Vec<u8>) -> Result<Pages, Status>
    ensures exact { Gives (λ boxes. boxes) result (boxes_or (boxes_in bytes.items)) }
    ensures refused { IfErr result IsTextStatus }
    ensures pages { IfOk result (λ boxes. All (λ page. length page ≤ 65536) boxes) }
{
    match read_boxes(alloc, &bytes) {
        Ok(boxes) => Ok(Pages::from_vec(boxes)),
        Err(BoxError::NoMemory) => Err(Status::NoMemory),
        Err(refusal) => Err(Status::Boxes(refusal)),
    }
}

/// Checks that the page of each controller is among so many boxes.
pub(crate) fn check_fits(topology: &Topology, boxes: usize) -> Result<(), Status>
    requires { IsTopology topology.now }
    ensures exact { Gives (λ u. u) result (topology_or (fits_in topology.now boxes)) }
    ensures refused { IfErr result IsTextStatus }
{
    match topology.fits(boxes) {
        Ok(()) => Ok(()),
        Err(refusal) => Err(Status::Topology(refusal)),
    }
}

/// The script of a text, whose bytes are let go, over a topology and so many boxes.
pub(crate) fn script_of(
    alloc: Global,
    bytes: Vec<u8>,
    topology: &Topology,
    boxes: usize,
) -> Result<Script, Status>
    requires bytes { length bytes.items ≤ 16777216 }
    requires topology { IsTopology topology.now }
    ensures exact { Gives (λ s. s) result (script_or (script_in topology.now boxes bytes.items)) }
    ensures refused { IfErr result IsTextStatus }
    ensures read { IfOk result scripts.IsScript }
{
    match read_script(alloc, &bytes, topology, boxes) {
        Ok(script) => Ok(script),
        Err(ScriptError::NoMemory) => Err(Status::NoMemory),
        Err(refusal) => Err(Status::Script(refusal)),
    }
}
