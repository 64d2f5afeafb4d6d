//! The listed paths of a reading.

ghost use Rattle.std.specs.Prelude.{◌≡◌, ◌≤◌, ◌<◌, slice_index_or, map, take, zip, length};
ghost use Rattle.std.specs.List.{position_or_len};
ghost use Rattle.mp_words.specs.PathTable.{path_of, paths_of, has_slot};

use mp_words::numbers::Slot;
use mp_words::path::Path;
use mp_words::reading::Reading;
use mp_words::row::Row;

/// The path at a place of these lists.
fn path_in(slots: &[Slot; 8], rows: &[Row; 8], len: u8, place: usize) -> Path
    requires listed { place < len }
    requires within { len ≤ 8 }
    ensures path { result ≡ slice_index_or (map path_of (take len (zip slots.now rows.now))) place result }
    ensures within { place < length (map path_of (take len (zip slots.now rows.now))) }
{
    Path {
        slot: slots[place],
        row: rows[place],
    }
}

/// The path at a place of the list.
pub fn path_at(reading: &Reading, place: usize) -> Path
    requires listed { place < reading.now.len }
    requires within { reading.now.len ≤ 8 }
    ensures path { result ≡ slice_index_or (paths_of reading.now) place result }
    ensures within { place < length (paths_of reading.now) }
{
    path_in(&reading.slots, &reading.rows, reading.len, place)
}

/// How many paths these lists have.
fn count_in(slots: &[Slot; 8], rows: &[Row; 8], len: u8) -> usize
    requires { len ≤ 8 }
    ensures length { result ≡ length (map path_of (take len (zip slots.now rows.now))) }
    ensures len { result ≡ len }
{
    usize::from(len)
}

/// How many paths are listed.
pub fn count(reading: &Reading) -> usize
    requires { reading.now.len ≤ 8 }
    ensures length { result ≡ length (paths_of reading.now) }
    ensures len { result ≡ reading.now.len }
{
    count_in(&reading.slots, &reading.rows, reading.len)
}

/// The place of the first path of a slot, or how many there are.
pub(crate) fn position(reading: &Reading, slot: Slot) -> usize
    requires { reading.now.len ≤ 8 }
    ensures { result ≡ position_or_len (has_slot slot) (paths_of reading.now) }
{
    let count = count(reading);
    for place in 0..count {
        let path = path_at(reading, place);
        if path.slot.get() == slot.get() {
            return place;
        }
    }
    count
}
