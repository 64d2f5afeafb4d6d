//! The text that each form of the words asks for.

ghost use Rattle.std.specs.Prelude.{◌≡◌, ◌≢◌, ◌≤◌, ◌∷◌, [], ℕ, Some, Ok, Err, IfOk, IfSome, IfErr, All, length};
ghost use Rattle.mp_io.specs.Causes.{Rose};
ghost use Rattle.mp_io.specs.Files.{Files};
ghost use Rattle.mp_run.specs.World.{IsWorld};
ghost use Rattle.mp_script.specs.Facts as scripts;
ghost use Rattle.mp_record.specs.RunView.{view_of};
ghost use Rattle.mp_legal.specs.Units.{serial_over};
ghost use Rattle.mp_run.specs.Forms.{serial};
ghost use Rattle.mp_run.specs.FormsView.{names_of, told_form};
ghost use Rattle.mp_run.specs.Status.{run_status};
ghost use Rattle.mp_run.specs.Outcome.{read_of, boxes_or, serial_text, serial_for, serial_in, pages_for, pages_in, text_in, own_text, Gives, AreReadBefore, IsReadStatus, IsRunStatus, IsTextStatus};
ghost use Rattle.mp_run.specs.Outside.{files_of, status_of, Reads, Fails};
ghost use Rattle.mp_page.specs.Boxes.{boxes_in};
ghost use Rattle.mp_run.specs.Help.{help_text, version_text};

use crate::error::RunError;
use crate::forms::{Form, Names};
use crate::help::{help, version};
use crate::reading::{boxes_of, check_fits, read_file, script_of, topology_of};
use crate::run::serial as run;
use crate::status::Status;
use mp_io::folder::Folder;
use mp_page::page_text;
use mp_record::run::Run;
use mp_record::text::run_text;
use mp_script::script::{Script, World};
use std::alloc::Global;

/// How many units each lane and the drain have.
const UNITS: u32 = 2_097_152;

/// The run of a script, which is let go.
fn run_of(alloc: Global, world: &World, script: Script) -> Result<Run, RunError>
    requires world { IsWorld world.now }
    requires script { scripts.IsScript script }
    ensures paid { IfOk result (λ run. serial_over 2097152 world.now script ≡ Ok (view_of run)) }
    ensures spent { (lane : ℕ) → result ≡ Err (RunError.Spent lane) → serial_over 2097152 world.now script ≡ Err lane }
{
    run(alloc, world, &script, UNITS)
}

/// The text of a run.
#[tactic(auto, unfolding(crate::specs::Outcome::serial_text))]
fn text_of_run(alloc: Global, world: &World, script: Script) -> Result<Vec<u8>, Status>
    requires world { IsWorld world.now }
    requires script { scripts.IsScript script }
    ensures exact { Gives (λ text. text.items) result (serial_text world.now script) }
    ensures refused { IfErr result IsTextStatus }
{
    match run_of(alloc, world, script) {
        Ok(run) => { run_text(alloc, &run, &world.topology, false).map_err(|_| Status::NoMemory) }
        Err(why) => Err(halted(&why)),
    }
}

/// The status of a run that isn't made.
fn halted(why: &RunError) -> Status
    ensures { result ≡ run_status why.now }
{
    match why {
        RunError::NoMemory => Status::NoMemory,
        RunError::Spent(lane) => Status::Spent(*lane),
    }
}

/// The text of a run for the bytes of the three files.
#[tactic(auto, using(crate::proofs::Outcomes::outcome_steps), unfolding(crate::specs::Outcome::serial_for))]
fn text_of_files(
    alloc: Global,
    topology: Vec<u8>,
    boxes: Vec<u8>,
    script: Vec<u8>,
) -> Result<Vec<u8>, Status>
    requires boxes { length boxes.items ≤ 16777216 }
    requires script { length script.items ≤ 16777216 }
    ensures exact { Gives (λ text. text.items) result (serial_for topology.items boxes.items script.items) }
    ensures refused { IfErr result IsTextStatus }
{
    let topology = topology_of(alloc, &topology)?;
    let pages = boxes_of(alloc, boxes)?;
    check_fits(&topology, pages.len())?;
    let script = script_of(alloc, script, &topology, pages.len())?;
    let world = World { topology, pages };
    text_of_run(alloc, &world, script)
}

/// The text of a run of the three files.
#[tactic(auto, using(crate::proofs::Outcomes::outcome_steps), unfolding(crate::specs::Outcome::serial_in))]
fn serial<F: Folder>(alloc: Global, folder: &mut F, names: &Names<'_>) -> Result<Vec<u8>, Status>
    ensures told { (files : Files) → F.files folder.old ≡ Some files → Gives (λ text. text.items) result (serial_in files (names_of names.now)) }
    ensures before { (files : Files) (i : ℕ) → F.files folder.old ≡ Some files → result ≡ Err (Status.ReadFault i) → AreReadBefore files (told_form (Form.Serial names.now)) i }
    ensures refused { IfErr result IsRunStatus }
    ensures fault { (i : ℕ) → result ≡ Err (Status.ReadFault i) → Rose (F.faults folder.old) (F.faults folder.new) }
    ensures named { Reads (files_of (Some (serial (names_of names.now)))) (status_of result) (F.asked folder.old) (F.asked folder.new) }
    ensures failed { Fails (files_of (Some (serial (names_of names.now)))) (status_of result) (F.failed folder.old) (F.failed folder.new) }
    ensures kept { F.files folder.new ≡ F.files folder.old }
{
    let topology = read_file(alloc, folder, names.topology, 1)?;
    let boxes = read_file(alloc, folder, names.boxes, 2)?;
    let script = read_file(alloc, folder, names.script, 3)?;
    text_of_files(alloc, topology, boxes, script)
}

/// The text of the pages in the bytes of a file of boxes.
#[tactic(auto, using(crate::proofs::Outcomes::outcome_steps), unfolding(crate::specs::Outcome::pages_for))]
fn text_of_boxes(alloc: Global, bytes: Vec<u8>, most: u32) -> Result<Vec<u8>, Status>
    requires { length bytes.items ≤ 16777216 }
    ensures exact { Gives (λ text. text.items) result (pages_for bytes.items most) }
    ensures refused { IfErr result IsTextStatus }
{
    let boxes = boxes_of(alloc, bytes)?;
    page_text(alloc, boxes.as_slice(), most).map_err(|_| Status::NoMemory)
}

/// The text of the pages of a file of boxes.
#[tactic(auto, using(crate::proofs::Outcomes::outcome_steps), unfolding(crate::specs::Outcome::pages_in))]
fn pages<F: Folder>(alloc: Global, folder: &mut F, name: &str, most: u32) -> Result<Vec<u8>, Status>
    ensures told { (files : Files) → F.files folder.old ≡ Some files → Gives (λ text. text.items) result (pages_in files name.now most) }
    ensures before { (i : ℕ) → result ≡ Err (Status.ReadFault i) → i ≡ 1 }
    ensures refused { IfErr result IsRunStatus }
    ensures fault { (i : ℕ) → result ≡ Err (Status.ReadFault i) → Rose (F.faults folder.old) (F.faults folder.new) }
    ensures named { Reads (name.now ∷ []) (status_of result) (F.asked folder.old) (F.asked folder.new) }
    ensures failed { Fails (name.now ∷ []) (status_of result) (F.failed folder.old) (F.failed folder.new) }
    ensures kept { F.files folder.new ≡ F.files folder.old }
{
    let bytes = read_file(alloc, folder, name, 1)?;
    text_of_boxes(alloc, bytes, most)
}

/// A text that stands in the program.
fn copied(alloc: Global, text: &str) -> Result<Vec<u8>, Status>
    ensures exact { IfOk result (λ bytes. bytes.items ≡ text.now) }
    ensures refused { IfErr result (λ status. status ≡ Status.NoMemory) }
{
    Vec::from_slice(alloc, text.as_bytes()).map_err(|_| Status::NoMemory)
}

/// The text that a form asks for.
pub(crate) fn text_of<F: Folder>(
    alloc: Global,
    folder: &mut F,
    form: &Form<'_>,
) -> Result<Vec<u8>, Status>
    ensures told { (files : Files) → F.files folder.old ≡ Some files → Gives (λ text. text.items) result (text_in files (told_form form.now)) }
    ensures own { IfOk result (λ text. IfSome (own_text (Some (told_form form.now))) (λ own. text.items ≡ own)) }
    ensures before { (files : Files) (i : ℕ) → F.files folder.old ≡ Some files → result ≡ Err (Status.ReadFault i) → AreReadBefore files (told_form form.now) i }
    ensures refused { IfErr result IsRunStatus }
    ensures fault { (i : ℕ) → result ≡ Err (Status.ReadFault i) → Rose (F.faults folder.old) (F.faults folder.new) }
    ensures named { Reads (files_of (Some (told_form form.now))) (status_of result) (F.asked folder.old) (F.asked folder.new) }
    ensures failed { Fails (files_of (Some (told_form form.now))) (status_of result) (F.failed folder.old) (F.failed folder.new) }
    ensures kept { F.files folder.new ≡ F.files folder.old }
{
    match form {
        Form::Serial(names) => serial(alloc, folder, names),
        Form::Pages(name, most) => pages(alloc, folder, *name, *most),
        Form::Help => copied(alloc, help()),
        Form::Version => copied(alloc, version()),
    }
}
