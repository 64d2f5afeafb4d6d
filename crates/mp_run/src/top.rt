//! The top call.

ghost use Rattle.std.specs.Prelude.{◌≡◌, ◌≢◌, ◌↔◌, ℕ, None, Some, IfSome, map, string_bytes};
ghost use Rattle.std.specs.Io.KnownBytes.{Keeps, Appends};
ghost use Rattle.mp_io.specs.Causes.{Rose};
ghost use Rattle.mp_io.specs.Files.{Files};
ghost use Rattle.mp_run.specs.Accepted.{Accepts, IsDone, IsUnlessFree, Spends};
ghost use Rattle.mp_run.specs.Forms.{form_of};
ghost use Rattle.mp_run.specs.Outcome.{outcome, own_text, Answers, BeforeFault};
ghost use Rattle.mp_run.specs.Outside.{files_of, Reads, Fails, Puts};
ghost use Rattle.mp_run.specs.TooLong.{IsTooLong};

use crate::forms::form_of;
use crate::status::Status;
use crate::texts::text_of;
use mp_io::errors::WriteError;
use mp_io::folder::Folder;
use mp_io::sink::Sink;
use std::alloc::Global;

/// Does what the words say. What `top_plain` promises besides follows from this.
fn answer<F: Folder, K: Sink>(
    alloc: Global,
    words: &[String],
    folder: &mut F,
    out: &mut K,
) -> Status
    ensures usage { (result ≡ Status.Usage) ↔ (form_of (map string_bytes words.now) ≡ None) }
    ensures read_fault { (i : ℕ) → result ≡ Status.ReadFault i → Rose (F.faults folder.old) (F.faults folder.new) }
    ensures read_before { (files : Files) (i : ℕ) → F.files folder.old ≡ Some files → result ≡ Status.ReadFault i → BeforeFault files (form_of (map string_bytes words.now)) i }
    ensures named { Reads (files_of (form_of (map string_bytes words.now))) result (F.asked folder.old) (F.asked folder.new) }
    ensures failed { Fails (files_of (form_of (map string_bytes words.now))) result (F.failed folder.old) (F.failed folder.new) }
    ensures write_fault { result ≡ Status.WriteFault → Rose (K.faults out.old) (K.faults out.new) }
    ensures puts { Puts result (K.puts out.old) (K.puts out.new) }
    ensures silent { result ≢ Status.Ok → result ≢ Status.WriteFault → Keeps (K.taken out.old) (K.taken out.new) }
    ensures own { result ≡ Status.Ok → IfSome (own_text (form_of (map string_bytes words.now))) (λ text. Appends (K.taken out.old) (K.taken out.new) text) }
    ensures told { (files : Files) → F.files folder.old ≡ Some files →
        Answers (outcome files (map string_bytes words.now)) (K.taken out.old) (K.taken out.new) result }
    ensures kept { F.files folder.new ≡ F.files folder.old }
{
    let Some(form) = form_of(words) else {
        return Status::Usage;
    };
    match text_of(alloc, folder, &form) {
        Err(status) => status,
        Ok(text) => match out.put(&text) {
            Ok(()) => Status::Ok,
            Err(WriteError::Failed) => Status::WriteFault,
            Err(WriteError::NoMemory) => Status::NoMemory,
        },
    }
}

/// Does what the words say, and answers how it ended.
///
/// The words, without the program's name, have one of these forms. `serial T P S` writes the text of a run, where T, P
/// and S are the names of the topology, the boxes and the script in the folder. `pages P MAX` writes the text of the
/// pages of a file of boxes under a bound on their groups, which is from 1 to 4,294,967,295 and has one to ten digits.
/// `--help` and `--version` write what the program says of itself. The text is made whole and written by one `put`.
/// With another status than `Ok` and `WriteFault` nothing was written.
///
/// The refusals come in this order, and the first decides: the words, the reads of the files in turn, the topology,
/// the boxes, the boxes that the topology needs, the script, the output. The files are numbered from 1 in the order of
/// the words. `NoMemory` may come at each of them.
pub fn top_plain<F: Folder, K: Sink>(
    alloc: Global,
    words: &[String],
    folder: &mut F,
    out: &mut K,
) -> Status
    // The words are none of the forms.
    ensures usage { (result ≡ Status.Usage) ↔ (form_of (map string_bytes words.now) ≡ None) }

    // A fault comes only where the count of faults rose, and one of a file only after the files before it were read.
    ensures read_fault { (i : ℕ) → result ≡ Status.ReadFault i → Rose (F.faults folder.old) (F.faults folder.new) }
    ensures read_before { (files : Files) (i : ℕ) → F.files folder.old ≡ Some files → result ≡ Status.ReadFault i → BeforeFault files (form_of (map string_bytes words.now)) i }
    ensures write_fault { result ≡ Status.WriteFault → Rose (K.faults out.old) (K.faults out.new) }

    // The form's files alone are read, each once and in turn, and none after the one that a status names, of which
    // alone the read failed. The text is written by one put.
    ensures named { Reads (files_of (form_of (map string_bytes words.now))) result (F.asked folder.old) (F.asked folder.new) }
    ensures failed { Fails (files_of (form_of (map string_bytes words.now))) result (F.failed folder.old) (F.failed folder.new) }
    ensures puts { Puts result (K.puts out.old) (K.puts out.new) }

    // A file is too long exactly where it has more bytes than a file may have, and the files before it were read.
    ensures too_long { (files : Files) (i : ℕ) → F.files folder.old ≡ Some files → result ≡ Status.TooLong i → IsTooLong files (form_of (map string_bytes words.now)) i }
    ensures long_is_refused { (files : Files) (i : ℕ) → F.files folder.old ≡ Some files → IsTooLong files (form_of (map string_bytes words.now)) i → IsUnlessFree (Status.TooLong i) result }

    // A lane is spent exactly where the accepted files' run, with 2,097,152 units for each lane and for the drain, says so,
    // and it is the least.
    ensures spent { (files : Files) (lane : ℕ) → F.files folder.old ≡ Some files → result ≡ Status.Spent lane → Spends files (form_of (map string_bytes words.now)) lane }
    ensures spent_is_refused { (files : Files) (lane : ℕ) → F.files folder.old ≡ Some files → Spends files (form_of (map string_bytes words.now)) lane → IsUnlessFree (Status.Spent lane) result }

    // With another status nothing was written.
    ensures silent { result ≢ Status.Ok → result ≢ Status.WriteFault → Keeps (K.taken out.old) (K.taken out.new) }

    // Where the files are told, the status and what was written are those of the files and the words.
    ensures told { (files : Files) → F.files folder.old ≡ Some files →
        Answers (outcome files (map string_bytes words.now)) (K.taken out.old) (K.taken out.new) result }

    // The help and the version are just their texts, whatever the files are.
    ensures own { result ≡ Status.Ok → IfSome (own_text (form_of (map string_bytes words.now))) (λ text. Appends (K.taken out.old) (K.taken out.new) text) }

    // Words and files that are accepted are answered by their text, unless a fault is counted or memory runs out.
    ensures complete { (files : Files) → F.files folder.old ≡ Some files → Accepts files (form_of (map string_bytes words.now)) →
        (Rose (F.faults folder.old) (F.faults folder.new) → ⊥) → (Rose (K.faults out.old) (K.faults out.new) → ⊥) → IsDone result }
    ensures kept { F.files folder.new ≡ F.files folder.old }
{
    answer(alloc, words, folder, out)
}
