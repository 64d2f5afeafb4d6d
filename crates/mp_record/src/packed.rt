//! Kept events without those apart that none of them names.

ghost use Rattle.std.specs.Prelude.{ℕ, ◌≡◌, ◌≤◌, ◌<◌, ◌+◌, List, drop, length, map, vec_len, vec_capacity};
ghost use Rattle.mp_record.specs.Kept.{told, ArePlainIn, IsPacking};
ghost use Rattle.mp_record.specs.declared.event.Event.{Event};
ghost use Rattle.mp_record.specs.declared.kept.Kept.{Kept};

use crate::event::Event;
use crate::kept::Kept;

/// Moves the event apart that the kept one at this place names, if it names one, to the place `count`, and counts it.
fn move_to(kept: &mut Vec<Kept>, apart: &mut Vec<Event>, place: usize, count: usize) -> usize
    requires place { place < vec_len kept.old }
    requires plain { ArePlainIn (length apart.old.items) count (drop place kept.old.items) }
    requires few { vec_len apart.old ≤ 4294967296 }
    ensures packs { (ks : List Kept) (es : List Event) → IsPacking ks es place count kept.old.items apart.old.items → IsPacking ks es (place + 1) result kept.new.items apart.new.items }
    ensures kept { vec_len kept.new ≡ vec_len kept.old }
    ensures apart { vec_len apart.new ≡ vec_len apart.old }
    ensures kept_room { vec_capacity kept.new ≡ vec_capacity kept.old }
    ensures apart_room { vec_capacity apart.new ≡ vec_capacity apart.old }
{
    match kept[place] {
        Kept::Apart(from) => {
            apart[count] = apart[from as usize];
            kept[place] = Kept::Apart(count as u32);
            count + 1
        }
        _ => count,
    }
}

/// Moves the events apart that kept ones name to the front, in their order, and gives up the rest.
pub(crate) fn pack(kept: &mut Vec<Kept>, apart: &mut Vec<Event>)
    requires plain { ArePlainIn (length apart.old.items) 0 kept.old.items }
    requires few { vec_len apart.old ≤ 4294967296 }
    ensures told { map (told apart.new.items) kept.new.items ≡ map (told apart.old.items) kept.old.items }
    ensures plain { ArePlainIn (length apart.new.items) 0 kept.new.items }
    ensures kept { vec_len kept.new ≡ vec_len kept.old }
    ensures apart { vec_len apart.new ≤ vec_len apart.old }
    ensures kept_room { vec_capacity kept.new ≡ vec_capacity kept.old }
    ensures apart_room { vec_capacity apart.new ≡ vec_capacity apart.old }
{
    let mut count = 0;
    for place in 0..kept.len() {
        count = move_to(kept, apart, place, count);
    }
    apart.truncate(count);
}
