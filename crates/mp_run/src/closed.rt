//! What lanes leave.

ghost use Rattle.std.specs.Prelude.{◌≡◌, ◌++◌, ◌∷◌, [], true, map, IfErr, IfOk, OnOk};
ghost use Rattle.std.specs.List.{flat_map, AllByRecursion};
ghost use Rattle.mp_record.specs.RunView.{events_of};
ghost use Rattle.mp_run.specs.Closing.{ended_at, notes_at, rows_at};

use crate::error::RunError;
use mp_lane::lane::Lane;
use mp_record::event::Event;
use mp_record::notes::LaneNotes;
use mp_words::entry::RowEntry;
use mp_words::request::Request;
use std::alloc::Global;

/// The notes of each lane without its sections, the entries of rows that lanes made, and the requests that ended there.
#[derive(Drop)]
pub struct Closed {
    pub notes: Vec<LaneNotes>,
    pub rows: Vec<RowEntry>,
    pub ended: Vec<Request>,
}

/// Closes a lane that is over.
fn close(closed: &mut Closed, alloc: Global, lane: Lane) -> Result<(), RunError>
    requires over { lane.over ≡ true }
    ensures notes { OnOk result (map events_of closed.new.notes.items ≡ map events_of closed.old.notes.items ++ notes_at lane ∷ []) }
    ensures rows { OnOk result (closed.new.rows.items ≡ closed.old.rows.items ++ rows_at lane) }
    ensures ended { OnOk result (closed.new.ended.items ≡ closed.old.ended.items ++ ended_at lane) }
    ensures refused { IfErr result (λ why. why ≡ RunError.NoMemory) }
{
    // The proof of a push needs each type inside notes named here.
    let _: Option<Event> = None;
    let Ok((notes, mut rows, mut ended)) = lane.close_plain() else {
        return Err(RunError::NoMemory);
    };
    closed.notes.push(notes)?;
    closed.rows.append(&mut rows)?;
    closed.ended.append(&mut ended)?;
    Ok(())
}

/// Closes lanes that are over.
pub fn close_all(alloc: Global, lanes: Vec<Lane>) -> Result<Closed, RunError>
    requires over { AllByRecursion (λ v. v.over ≡ true) lanes.items }
    ensures notes { IfOk result (λ c. map events_of c.notes.items ≡ map notes_at lanes.items) }
    ensures rows { IfOk result (λ c. c.rows.items ≡ flat_map rows_at lanes.items) }
    ensures ended { IfOk result (λ c. c.ended.items ≡ flat_map ended_at lanes.items) }
    ensures refused { IfErr result (λ why. why ≡ RunError.NoMemory) }
{
    let mut closed = Closed {
        notes: Vec::new(alloc),
        rows: Vec::new(alloc),
        ended: Vec::new(alloc),
    };
    for lane in lanes {
        close(&mut closed, alloc, lane)?;
    }
    Ok(closed)
}
