//! The parts of a run, put together.

ghost use Rattle.std.specs.Prelude.{◌≡◌, IfOk, map};
ghost use Rattle.std.specs.List.Sorted.{IsPermutation};
ghost use Rattle.mp_script.specs.Distinct.{IsDistinct};
ghost use Rattle.mp_words.specs.Request.{asked_of};
ghost use Rattle.mp_legal.specs.Gathering.{AreNumbered, AreVersions, BeginAt0, first_entries, history};

use crate::gather_error::GatherError;
use crate::histories::histories;
use crate::in_order::put_in_order;
use mp_record::notes::LaneNotes;
use mp_record::run::Run;
use mp_words::entry::{KeepEntry, RowEntry};
use mp_words::numbers::LaneId;
use mp_words::request::Request;
use mp_words::words::Words;
use sqlite_items::Items;
use std::alloc::Global;

/// The run of these parts. Version 0 of each slot comes from the opening's words, the entries stand by slot and version,
/// and the requests by number.
///
/// # Errors
///
/// `NoMemory` where memory runs out.
pub fn gather(
    alloc: Global,
    nsid: u32,
    keeper: Option<LaneId>,
    opening: &Words,
    entries: Vec<RowEntry>,
    keeping: Vec<KeepEntry>,
    lanes: Vec<LaneNotes>,
    drain: LaneNotes,
    requests: Vec<Request>,
) -> Result<Run, GatherError>
    requires opening { BeginAt0 opening.now }
    requires versions { AreVersions entries.items }
    requires numbers { IsDistinct (map (λ r. r.id) requests.items) }
    ensures nsid { IfOk result (λ run. run.nsid ≡ nsid) }
    ensures keeper { IfOk result (λ run. run.keeper ≡ keeper) }
    ensures rows { IfOk result (λ run. run.rows ≡ map (history entries.items) (first_entries opening.now)) }
    ensures keeping { IfOk result (λ run. run.keeping ≡ keeping.items) }
    ensures lanes { IfOk result (λ run. run.lanes ≡ lanes.items) }
    ensures drain { IfOk result (λ run. run.drain ≡ drain) }
    ensures requests { IfOk result (λ run. IsPermutation requests.items run.requests) }
    ensures numbered { IfOk result (λ run. AreNumbered (map asked_of run.requests)) }
{
    let mut all = requests;
    put_in_order(&mut all)?;
    let rows = histories(alloc, opening, &entries)?;
    Ok(Run {
        nsid,
        keeper,
        rows,
        keeping: Items::from_vec(keeping),
        lanes: Items::from_vec(lanes),
        drain,
        requests: Items::from_vec(all),
    })
}
