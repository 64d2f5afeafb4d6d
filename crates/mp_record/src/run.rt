//! What a run leaves.

use crate::notes::LaneNotes;
use mp_words::entry::{KeepEntry, RowEntry};
use mp_words::numbers::LaneId;
use mp_words::request::Request;
use sqlite_items::Items;

/// What a run leaves: the namespace, the keeper's lane, where there is one, all versions of each slot's row, what the
/// keeper made, the events of each lane and of the drain, and the requests that were submitted, by number.
///
/// `rows` has one list for each slot, from version 0. The entry of version 0 has the maker `Start`, and its operation
/// tells nothing.
#[derive(Drop)]
pub struct Run {
    pub nsid: u32,
    pub keeper: Option<LaneId>,
    pub rows: Items<Items<RowEntry>>,
    pub keeping: Items<KeepEntry>,
    pub lanes: Items<LaneNotes>,
    pub drain: LaneNotes,
    pub requests: Items<Request>,
}
