//! What a topology says.

ghost use Rattle.std.specs.Prelude.{◌≡◌, ◌≢◌, ◌<◌, ◌≤◌, length, map, None, IfSome, All, HoldsAt};

use crate::controllers::place_of;
use crate::errors::TopologyError;
use crate::fits::check_boxes;
use mp_words::name::Name;
use mp_words::near::Near;
use mp_words::numbers::{Ctrl, Node};
use mp_words::row::{CState, Policy};
use sqlite_items::Items;

/// A controller. `node` is the node that it is attached to, if any. `ana` says that it reports ANA, and `page` is
/// the number of the box with its log page at the opening.
#[derive(Drop)]
pub struct Controller {
    pub name: Name,
    pub node: Option<Node>,
    pub ana: bool,
    pub state: CState,
    pub page: Option<u32>,
}

/// A namespace head with its controllers. The opening paths are those of the controllers in `opening`, in order.
#[derive(Drop)]
pub struct Topology {
    pub nsid: u32,
    pub anagrpmax: u32,
    pub group: u32,
    pub policy: Policy,
    pub near: Near,
    pub controllers: Items<Controller>,
    pub opening: Items<Ctrl>,
}

impl Topology {
    ghost use Rattle.mp_checks.specs.Checks.{first_fault, value_unless};
    ghost use Rattle.mp_topology.specs.Controllers.{place_of};
    ghost use Rattle.mp_topology.specs.Fits.{fits_checks};

    /// Checks that the page of each controller is below `boxes`, also of one without ANA and of one that doesn't open.
    ///
    /// There are at most 64 controllers, as `read_topology` gives.
    ///
    /// # Errors
    ///
    /// `Range` at the page of the first controller whose page isn't below `boxes`, exactly where there is one.
    pub fn fits(&self, boxes: usize) -> Result<(), TopologyError>
        requires { length self.now.controllers ≤ 64 }
        ensures { result ≡ value_unless (first_fault (fits_checks boxes self.now.controllers)) tt }
    {
        check_boxes(self.controllers.as_slice(), boxes)
    }

    /// Finds the number of the controller that has this name: `None` exactly where none has it.
    ///
    /// There are at most 64 controllers, as `read_topology` gives.
    pub fn find(&self, name: &str) -> Option<Ctrl>
        requires { length self.now.controllers ≤ 64 }
        ensures place { result ≡ place_of name.now (map (λ c. c.name) self.now.controllers) }
        ensures there { IfSome result (λ p. (p < length self.now.controllers) × HoldsAt (λ c. c.name ≡ name.now) self.now.controllers p) }
        ensures nowhere { result ≡ None → All (λ c. c.name ≢ name.now) self.now.controllers }
    {
        place_of(self.controllers.as_slice(), name)
    }
}
