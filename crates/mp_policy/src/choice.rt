//! The choice of each policy.

ghost use Rattle.std.specs.Prelude.{◌≡◌, ◌≤◌, ◌↔◌, None, false, option_map};
ghost use Rattle.mp_words.specs.PathTable.{paths_of};
ghost use Rattle.mp_policy.specs.Choices.{numa_choice, queue_depth_choice, round_robin_choice, has_usable, depth_by};

use crate::distance::{ByDepth, Equal, FromNode};
use crate::listed::{count, path_at, position};
use crate::nearest::nearest_of_both;
use crate::walk::{after_walk, walk};
use mp_words::near::Near;
use mp_words::numbers::{Node, Slot};
use mp_words::path::Path;
use mp_words::reading::Reading;

/// The path of the NUMA policy, by its slot: the first of the nearest optimized paths that are enabled, else of
/// the nearest non-optimized ones. The distance is that from the request's node to the path's controller.
///
/// `None` comes exactly where no row of the reading is usable.
pub fn numa(reading: &Reading, node: Node, near: &Near) -> Option<Slot>
    requires { reading.now.len ≤ 8 }
    ensures choice { result ≡ option_map (λ path. path.slot) (numa_choice near.now node (paths_of reading.now)) }
    ensures none { (result ≡ None) ↔ (has_usable (paths_of reading.now) ≡ false) }
{
    let path = nearest_of_both(reading, &FromNode { node, near });
    slot_of(path)
}

/// The path of the round robin policy, by its slot: the next enabled optimized path after the last choice, or that
/// again, or the last enabled non-optimized one that the walk met. Without a listed last choice it is the first
/// enabled optimized path, else the first non-optimized one.
///
/// `None` comes exactly where no row of the reading is usable.
pub fn round_robin(reading: &Reading, last: Option<Slot>) -> Option<Slot>
    requires { reading.now.len ≤ 8 }
    ensures choice { result ≡ option_map (λ path. path.slot) (round_robin_choice last (paths_of reading.now)) }
    ensures none { (result ≡ None) ↔ (has_usable (paths_of reading.now) ≡ false) }
{
    let path = after(reading, last);
    slot_of(path)
}

/// The path of the queue depth policy, by its slot: the first of the enabled optimized paths with the fewest active
/// commands, else of the non-optimized ones.
///
/// `None` comes exactly where no row of the reading is usable.
pub fn depth(reading: &Reading, depths: &[u32; 8]) -> Option<Slot>
    requires { reading.now.len ≤ 8 }
    ensures choice { result ≡ option_map (λ path. path.slot) (queue_depth_choice (depth_by reading.now depths.now) (paths_of reading.now)) }
    ensures none { (result ≡ None) ↔ (has_usable (paths_of reading.now) ≡ false) }
{
    let path = nearest_of_both(reading, &ByDepth { reading, depths });
    slot_of(path)
}

/// The path of the round robin policy.
fn after(reading: &Reading, last: Option<Slot>) -> Option<Path>
    requires { reading.now.len ≤ 8 }
    ensures { result ≡ round_robin_choice last (paths_of reading.now) }
{
    match last {
        None => nearest_of_both(reading, &Equal),
        Some(slot) => {
            let place = position(reading, slot);
            if place < count(reading) {
                let path = path_at(reading, place);
                after_walk(&path, &walk(reading, place))
            } else {
                nearest_of_both(reading, &Equal)
            }
        }
    }
}

/// The slot of a path.
fn slot_of(path: Option<Path>) -> Option<Slot>
    ensures { result ≡ option_map (λ path. path.slot) path }
{
    match path {
        Some(path) => Some(path.slot),
        None => None,
    }
}
