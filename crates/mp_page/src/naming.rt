//! What a log page says of a path.
ghost use Rattle.std.specs.Prelude.{◌≡◌, ◌==◌, None, filter, option_map};
ghost use Rattle.std.specs.List.{list_any, last_or};
ghost use Rattle.mp_words.specs.States.{change};
ghost use Rattle.mp_page.specs.Gifts;

use crate::page::{Group, Page};
use mp_words::states::CHANGE;

fn names(group: &Group, nsid: u32) -> bool
    ensures { result ≡ Gifts.names nsid group.now }
{
    group.nsids.as_slice().contains(&nsid)
}

fn last_stated(groups: &[Group], nsid: u32) -> Option<u8>
    ensures { result ≡ option_map (λ group. group.state) (last_or None (filter (Gifts.names nsid) groups.now)) }
{
    let mut stated = None;
    for group in groups {
        if names(group, nsid) {
            stated = Some(group.state);
        }
    }
    stated
}

fn any_changing(groups: &[Group]) -> bool
    ensures { result ≡ list_any (λ group. group.state == change) groups.now }
{
    groups.iter().any(|group| group.state == CHANGE)
}

/// The ANA state, from 1 to 15, that a page states of a namespace: that of the last descriptor that names it, and `None`
/// exactly where no descriptor does.
pub fn state_for(page: &Page, nsid: u32) -> Option<u8>
    ensures { result ≡ Gifts.state_for page.now nsid }
{
    last_stated(page.groups.as_slice(), nsid)
}

/// Whether some descriptor is in the ANA state change.
pub fn changing(page: &Page) -> bool
    ensures { result ≡ Gifts.changing page.now }
{
    any_changing(page.groups.as_slice())
}
