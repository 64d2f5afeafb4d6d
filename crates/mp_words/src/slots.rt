//! Where a slot stands among listed slots.

ghost use Rattle.std.specs.Prelude.{◌≡◌, ◌≤◌, take};
ghost use Rattle.mp_words.specs.Places.{place_of};

use crate::numbers::Slot;

/// The place of a slot among the first `len` of these, from 0, or `len` where it isn't among them. `len` is at most 8.
pub fn place_at(slots: &[Slot; 8], len: u8, slot: Slot) -> usize
    requires { len ≤ 8 }
    ensures { result ≡ place_of slot (take len slots.now) }
{
    for place in 0..usize::from(len) {
        if slots[place].get() == slot.get() {
            return place;
        }
    }
    usize::from(len)
}
