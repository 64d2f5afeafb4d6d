//! Current words that the keeper clears.

ghost use Rattle.std.specs.Prelude.{◌≡◌, ◌<◌};
ghost use Rattle.mp_core.specs.Core.{stepped};
ghost use Rattle.mp_change.specs.Clears.{cleared_upto, cleared_upto_in, emptied_upto_in};
ghost use Rattle.mp_keep.specs.Keeps.{passed_upto};

use mp_core::steps::KeeperSteps;
use mp_words::numbers::{Node, Slot};

/// The node of a number.
fn node_at(n: u32) -> Node
    requires { n < 8 }
    ensures { result ≡ n }
{
    Node::make(n).unwrap()
}

/// Clears the current words that name the slot.
pub(crate) fn clear_slot<S: KeeperSteps>(steps: &mut S, slot: Slot)
    ensures { S.core steps.new ≡ stepped (cleared_upto slot 8) (cleared_upto_in slot 8) (S.core steps.old) }
{
    for n in 0..8 {
        steps.clear_current(node_at(n), slot);
    }
}

/// Makes every current word none.
pub(crate) fn clear_all<S: KeeperSteps>(steps: &mut S)
    ensures { S.core steps.new ≡ stepped (passed_upto 8) (emptied_upto_in 8) (S.core steps.old) }
{
    for n in 0..8 {
        steps.keeper_current(node_at(n));
    }
}
