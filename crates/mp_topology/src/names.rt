//! The names of controllers.

ghost use Rattle.std.specs.Prelude.{◌≡◌};
ghost use Rattle.mp_topology.specs.Names.{name_of};

use crate::topology::Topology;
use mp_words::numbers::Ctrl;

/// The name of a controller, or nothing where the topology has none of this number.
pub fn controller_name<'t>(topology: &'t Topology, ctrl: Ctrl) -> &'t str
    ensures { result.now ≡ name_of topology.now ctrl }
{
    match topology.controllers.as_slice().get(ctrl.get() as usize) {
        Some(controller) => controller.name.as_str(),
        None => "",
    }
}
