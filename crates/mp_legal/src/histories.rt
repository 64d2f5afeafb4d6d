//! The histories of the slots.

ghost use Rattle.std.specs.Prelude.{◌≡◌, ◌<◌, ℕ, suc, IfOk, map, slice_index, length, replicate};
ghost use Rattle.mp_words.specs.RowWord.{row_in, cstate_of};
ghost use Rattle.mp_legal.specs.Gathering.{AreVersions, first_entries, history, count_of};
ghost use Rattle.mp_legal.specs.Opening.{opening_entry};
ghost use Rattle.mp_legal.specs.Placing.{blank_for, firsts, written_in};

use crate::gather_error::GatherError;
use mp_words::entry::RowEntry;
use mp_words::numbers::{Ctrl, Slot};
use mp_words::op::{Gift, Maker, Op};
use mp_words::row::{CState, Row};
use mp_words::words::Words;
use sqlite_items::Items;
use std::alloc::Global;

/// The number of slots.
const SLOTS: usize = 15;

/// The controller state of a number; above 6 it is dead.
fn cstate_in(code: u64) -> CState
    ensures { result ≡ cstate_of code }
{
    match code {
        0 => CState::New,
        1 => CState::Live,
        2 => CState::Resetting,
        3 => CState::Connecting,
        4 => CState::Deleting,
        5 => CState::DeletingNoio,
        _ => CState::Dead,
    }
}

/// The row that the bits of a word spell.
fn row_in(word: u64) -> Row
    ensures { result ≡ row_in word }
{
    Row {
        version: (word & 0xFFFF_FFFF) as u32,
        ctrl: Ctrl::make((word >> 32 & 63) as u32).unwrap(),
        cstate: cstate_in(word >> 38 & 7),
        state: (word >> 41 & 15) as u8,
        pending: word >> 45 & 1 == 1,
        ready: word >> 46 & 1 == 1,
        armed: word >> 47 & 1 == 1,
        marked: word >> 48 & 1 == 1,
        ana: word >> 49 & 1 == 1,
    }
}

/// The slot of a place.
fn slot_of(place: usize) -> Slot
    requires { place < 15 }
    ensures { result ≡ place }
{
    Slot::make(place as u32).unwrap()
}

/// The first entry of a slot, whose row is that of its word.
fn first_entry(slot: Slot, word: u64) -> RowEntry
    ensures { result ≡ opening_entry (slot, row_in word) }
{
    RowEntry {
        slot,
        row: row_in(word),
        op: Op::Pending,
        by: Maker::Start,
    }
}

/// How many entries each slot has.
fn numbers(entries: &[RowEntry]) -> [usize; 15]
    ensures { (slot : ℕ) → slot < 15 → slice_index result slot ≡ count_of slot entries.now }
{
    let mut numbers = [0usize; SLOTS];
    for entry in entries {
        let slot = entry.slot.get() as usize;
        numbers[slot] += 1;
    }
    numbers
}

/// So many places behind an entry, each with this entry.
fn blank(alloc: Global, first: RowEntry, number: usize) -> Result<Items<RowEntry>, GatherError>
    requires { number < 9223372036854775808 }
    ensures { IfOk result (λ all. all ≡ replicate (suc number) first) }
{
    // The proof of a copy needs each type inside an entry named here.
    let _: (Option<Row>, Option<Op>, Option<Maker>) = (None, None, None);
    let _: (Option<CState>, Option<Gift>) = (None, None);
    let all = vec![in alloc; first; number + 1]?;
    Ok(Items::from_vec(all))
}

/// The histories of all slots before an entry was written.
fn blanks(
    alloc: Global,
    words: &[u64; 15],
    entries: &[RowEntry],
) -> Result<Vec<Items<RowEntry>>, GatherError>
    ensures { IfOk result (λ all. all.items ≡ map (blank_for entries.now) (firsts 0 (map row_in words.now))) }
{
    let numbers = numbers(entries);
    let mut all = Vec::new(alloc);
    for (place, word) in words.iter().enumerate() {
        let first = first_entry(slot_of(place), *word);
        all.push(blank(alloc, first, numbers[place])?)?;
    }
    Ok(all)
}

/// The histories of all slots once each entry was written at its version.
fn written(
    alloc: Global,
    words: &[u64; 15],
    entries: &[RowEntry],
) -> Result<Vec<Items<RowEntry>>, GatherError>
    requires { AreVersions entries.now }
    ensures { IfOk result (λ all. all.items ≡ map (history entries.now) (firsts 0 (map row_in words.now))) }
{
    // The proof of a copy needs each type inside an entry named here.
    let _: (Option<Row>, Option<Op>, Option<Maker>) = (None, None, None);
    let _: (Option<CState>, Option<Gift>) = (None, None);
    let mut all = blanks(alloc, words, entries)?;
    for entry in entries {
        let slot = entry.slot.get() as usize;
        all[slot].set(entry.row.version as usize, *entry);
    }
    Ok(all)
}

/// The histories of all slots: the row of the opening's words, and then the slot's entries by version.
pub fn histories(
    alloc: Global,
    opening: &Words,
    entries: &[RowEntry],
) -> Result<Items<Items<RowEntry>>, GatherError>
    requires { AreVersions entries.now }
    ensures { IfOk result (λ all. all ≡ map (history entries.now) (first_entries opening.now)) }
{
    Ok(Items::from_vec(written(alloc, &opening.rows, entries)?))
}
