//! The nodes of the controllers.

ghost use Rattle.std.specs.Prelude.{◌≡◌, ◌≤◌, [], length};
ghost use Rattle.mp_topology.specs.Near.{homes_of};

use crate::topology::Controller;
use mp_words::numbers::Node;

#[tactic(auto, unfolding(crate::specs::Near::homes_of, crate::specs::Distance::filled))]
fn no_homes() -> [Option<Node>; 64]
    ensures { result ≡ homes_of [] }
{
    [None; 64]
}

/// The node of each controller, with none past the last one.
pub(crate) fn homes_of(controllers: &[Controller]) -> [Option<Node>; 64]
    requires { length controllers.now ≤ 64 }
    ensures { result ≡ homes_of controllers.now }
{
    let mut homes = no_homes();
    for (i, controller) in controllers.iter().enumerate() {
        homes[i] = controller.node;
    }
    homes
}
