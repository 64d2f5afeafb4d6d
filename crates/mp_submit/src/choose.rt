//! The policy's choice on what a section read.

ghost use Rattle.std.specs.Prelude.{◌≡◌, ◌↔◌, None, slice_index, slice_index_or, unwrap_or, false};
ghost use Rattle.mp_words.specs.PathTable.{paths_of};
ghost use Rattle.mp_policy.specs.Choices.{has_usable};
ghost use Rattle.mp_core.specs.Reads.{IsNote};
ghost use Rattle.mp_submit.specs.Choice.{choice_in, last_in, policy_in, slot_of_choice};

use mp_policy::choice::{depth, numa, round_robin};
use mp_words::near::Near;
use mp_words::note::Note;
use mp_words::numbers::{Node, Slot};
use mp_words::row::Policy;

/// The depths that were read, 0 where none was.
fn depths_read(depths: &[Option<u32>; 8]) -> [u32; 8]
    ensures { (k : _) → slice_index result k ≡ unwrap_or (slice_index_or depths.now k None) 0 }
{
    let mut read = [0; 8];
    for place in 0..8 {
        read[place] = depths[place].unwrap_or(0);
    }
    read
}

/// The policy's choice on what a section read, by its slot.
///
/// `None` comes exactly where no path that was read is usable.
pub(crate) fn choose(near: &Near, node: Node, policy: Policy, note: &Note) -> Option<Slot>
    requires note { IsNote note.now }
    requires policy { policy ≡ policy_in note.now.order }
    ensures choice { result ≡ slot_of_choice (choice_in near.now node note.now) }
    ensures none { (result ≡ None) ↔ (has_usable (paths_of note.now.reading) ≡ false) }
{
    match policy {
        Policy::Numa => numa(&note.reading, node, near),
        Policy::RoundRobin => round_robin(&note.reading, last_read(note.current)),
        Policy::QueueDepth => depth(&note.reading, &depths_read(&note.depths)),
    }
}

/// The last choice that was read.
fn last_read(current: Option<Option<Slot>>) -> Option<Slot>
    ensures { result ≡ last_in current }
{
    match current {
        Some(last) => last,
        None => None,
    }
}
