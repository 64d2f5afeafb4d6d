//! What holds of each script that is read, and of its canonical text.

ghost use Rattle.std.specs.Prelude.{◌≡◌, ◌↔◌, ◌⊎◌, ℕ, List, Ok, Err};
ghost use Rattle.mp_checks.specs.Checks.{IsFirst};
ghost use Rattle.mp_topology.specs.declared.topology.Topology.{Topology};
ghost use Rattle.mp_topology.specs.Facts.{IsTopology};
ghost use Rattle.mp_script.specs.declared.script.Script.{Script};
ghost use Rattle.mp_script.specs.declared.errors.ScriptError.{ScriptError};
ghost use Rattle.mp_script.specs.Readable.{Says};
ghost use Rattle.mp_script.specs.Script.{checks, script_in};
ghost use Rattle.mp_script.specs.Written.{script_text, renumbered, IsReadAs};

/// Every text is a script or is refused.
pub fn text_is_read_or_refused()
    ensures { (t : Topology) (pages : ℕ) (bytes : List ℕ) → ((script : Script) × Says t pages bytes script) ⊎ ((refusal : ScriptError) × IsFirst (checks t pages bytes) refusal) }
{}

/// What is read is the script that the text says, of which there is one at most.
pub fn script_is_read()
    ensures { (t : Topology) (pages : ℕ) (bytes : List ℕ) (script : Script) → (script_in t pages bytes ≡ Ok script) ↔ Says t pages bytes script }
{}

/// What is answered otherwise is the refusal of the first check that fails, of which there is one at most.
pub fn refusal_is_read()
    ensures { (t : Topology) (pages : ℕ) (bytes : List ℕ) (refusal : ScriptError) → (script_in t pages bytes ≡ Err refusal) ↔ IsFirst (checks t pages bytes) refusal }
{}

/// The canonical text of a script that was read is read as the same script, with the numbers that its lines have
/// there.
pub fn is_read_again()
    ensures { (t : Topology) (pages : ℕ) (bytes : List ℕ) (script : Script) → IsTopology t → script_in t pages bytes ≡ Ok script → IsReadAs t pages script (script_text t script) }
{}

/// The numbers of the lines don't tell in the canonical text: what is read of it is written as the same text.
pub fn is_written_again()
    ensures { (t : Topology) (script : Script) → script_text t (renumbered script) ≡ script_text t script }
{}
