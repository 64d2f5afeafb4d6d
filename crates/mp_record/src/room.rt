//! Room in a list.

ghost use Rattle.std.specs.Prelude.{◌≡◌, ◌≤◌, ◌+◌, OnOk, vec_len, vec_capacity};

use std::alloc::AllocError;

/// Makes room for this many more items, and for an eighth of those that there are at most.
pub(crate) fn reserve_eighth<T>(list: &mut Vec<T>, room: usize) -> Result<(), AllocError>
    ensures items { list.new.items ≡ list.old.items }
    ensures len { vec_len list.new ≡ vec_len list.old }
    ensures capacity { vec_capacity list.old ≤ vec_capacity list.new }
    ensures room { OnOk result (vec_len list.new + room ≤ vec_capacity list.new) }
{
    if room <= list.capacity() - list.len() {
        return Ok(());
    }
    let eighth = list.len() / 8;
    let more = if room < eighth { eighth } else { room };
    list.reserve_exact(more)
}
