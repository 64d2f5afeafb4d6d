//! Current words that a row change clears.

ghost use Rattle.std.specs.Prelude.{◌≡◌, ◌<◌, Some, option_map};
ghost use Rattle.mp_words.specs.Effect.{Clears, every_one, the_slots, clears_of};
ghost use Rattle.mp_core.specs.Core.{stepped};
ghost use Rattle.mp_core.specs.Views.{noted};
ghost use Rattle.mp_core.specs.Reads.{IsOpen};
ghost use Rattle.mp_change.specs.Clears.{cleared_upto, cleared_upto_in, emptied_upto_in, clears_in};

use mp_core::steps::Steps;
use mp_core::view::Section;
use mp_words::numbers::{Node, Slot};

/// The node of a number.
fn node_at(n: u32) -> Node
    requires { n < 8 }
    ensures { result ≡ n }
{
    Node::make(n).unwrap()
}

/// Clears the current words that name the slot.
pub(crate) fn clear_slot<S: Steps>(steps: &mut S, slot: Slot)
    ensures { S.core steps.new ≡ stepped (cleared_upto slot 8) (cleared_upto_in slot 8) (S.core steps.old) }
{
    for n in 0..8 {
        steps.clear_current(node_at(n), slot);
    }
}

/// Makes every current word none.
pub(crate) fn clear_all<S: Steps>(steps: &mut S, section: &mut Section)
    requires open { IsOpen (S.core steps.old) section.old }
    ensures section { section.new ≡ section.old }
    ensures core { S.core steps.new ≡ stepped (noted section.old) (emptied_upto_in 8) (S.core steps.old) }
{
    for n in 0..8 {
        steps.store_current(section, node_at(n), None);
    }
}
