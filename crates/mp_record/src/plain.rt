//! Kept events without the sections.

ghost use Rattle.std.specs.Prelude.{◌≡◌, ◌≤◌, filter, length, vec_len, vec_capacity};
ghost use Rattle.mp_record.specs.RunView.{is_plain};
ghost use Rattle.mp_record.specs.Kept.{told, IsBelow, AreBelow};

use crate::event::Event;
use crate::kept::Kept;

/// Whether an event is no section.
pub(crate) fn is_plain(event: &Event) -> bool
    ensures { result ≡ is_plain event.now }
{
    !matches!(event, Event::Sec { .. })
}

/// Whether a kept event tells no section.
fn tells_plain(kept: &Kept, apart: &[Event]) -> bool
    requires { IsBelow (length apart.now) kept.now }
    ensures { result ≡ is_plain (told apart.now kept.now) }
{
    match kept {
        Kept::Apart(place) => is_plain(&apart[*place as usize]),
        Kept::Section { like, .. } => is_plain(&apart[*like as usize]),
        _ => true,
    }
}

/// Keeps the events that tell no section, in their order, in the place of all.
pub(crate) fn keep_plain(kept: &mut Vec<Kept>, apart: &[Event])
    requires { AreBelow (length apart.now) kept.old.items }
    ensures items { kept.new.items ≡ filter (λ k. is_plain (told apart.now k)) kept.old.items }
    ensures len { vec_len kept.new ≤ vec_len kept.old }
    ensures capacity { vec_capacity kept.new ≡ vec_capacity kept.old }
{
    let mut count = 0;
    for place in 0..kept.len() {
        let one = kept[place];
        if tells_plain(&one, apart) {
            kept[count] = one;
            count += 1;
        }
    }
    kept.truncate(count);
}
