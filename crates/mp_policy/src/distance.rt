//! How far a path is, as each policy counts it.

ghost use Rattle.std.specs.Prelude.{◌≡◌, ◌≤◌, take, slice_index};
ghost use Rattle.mp_words.specs.Places.{place_of};
ghost use Rattle.mp_policy.specs.Choices.{distance_to, depth_by};

use mp_words::near::Near;
use mp_words::numbers::{Node, Slot};
use mp_words::path::Path;
use mp_words::reading::Reading;
use mp_words::slots::place_at;

/// How far a path is.
pub(crate) trait Distance {
    ghost use Rattle.std.specs.Prelude.{ℕ};
    ghost use Rattle.mp_words.specs.declared.path.Path.{Path};

    ghost far: { Self → Path → ℕ };

    fn of(&self, path: &Path) -> u32
        ensures { result ≡ far self.now path.now };
}

/// The distance from a node.
#[derive(Drop)]
pub(crate) struct FromNode<'a> {
    pub node: Node,
    pub near: &'a Near,
}

impl<'a> Distance for FromNode<'a> {
    ghost use Rattle.mp_policy.specs.Choices.{distance_to};

    ghost far = { λ d. distance_to d.near.now d.node };

    fn of(&self, path: &Path) -> u32 {
        u32::from(self.near.distance(self.node, path.row.ctrl))
    }
}

/// No distance.
#[derive(Drop)]
pub(crate) struct Equal;

impl Distance for Equal {
    ghost far = { λ d path. 0 };

    fn of(&self, _path: &Path) -> u32 {
        0
    }
}

/// The number of active commands, by the place of a path's slot.
#[derive(Drop)]
pub(crate) struct ByDepth<'a> {
    pub reading: &'a Reading,
    pub depths: &'a [u32; 8],
    ghost within: { reading.now.len ≤ 8 },
}

impl<'a> Distance for ByDepth<'a> {
    ghost use Rattle.mp_policy.specs.Choices.{depth_by};

    ghost far = { λ d path. depth_by d.reading.now d.depths.now path.slot };

    fn of(&self, path: &Path) -> u32 {
        depth_at(
            &self.reading.slots,
            self.reading.len,
            self.depths,
            path.slot,
        )
    }
}

/// The depth at the place of a slot, or 0.
fn depth_at(slots: &[Slot; 8], len: u8, depths: &[u32; 8], slot: Slot) -> u32
    requires { len ≤ 8 }
    ensures { result ≡ slice_index depths.now (place_of slot (take len slots.now)) }
{
    let place = place_at(slots, len, slot);
    if place < 8 { depths[place] } else { 0 }
}
