//! What a script is read over.

ghost use Rattle.std.specs.Prelude.{◌≡◌, ◌≤◌, length, slice_get, unwrap_or};
ghost use Rattle.mp_checks.specs.Marks.{has};
ghost use Rattle.mp_script.specs.Wording.{place_in, reports_ana};
ghost use Rattle.mp_script.specs.Numbers.{is_with_ana, is_box};
ghost use Rattle.mp_script.specs.Places.{HasPlaces};

use crate::requests::Requests;
use mp_topology::topology::{Controller, Topology};
use mp_words::numbers::{Ctrl, ReqId};
use std::collections::BTreeMap;

/// What a script is read over: the topology, the place of each controller by its name, how many boxes there are, and
/// the requests that some line of the text submits, where they are known.
#[derive(Drop)]
pub(crate) struct Setting<'a> {
    pub(crate) topology: &'a Topology,
    pub(crate) places: BTreeMap<&'a [u8], Ctrl>,
    pub(crate) pages: usize,
    pub(crate) submits: Option<Requests>,
    ghost few: { length topology.now.controllers ≤ 64 },
    ghost nodes: { topology.now.near.nodes ≤ 8 },
    ghost found: { HasPlaces topology.now.controllers places },
}

impl<'a> Setting<'a> {
    /// How many nodes there are.
    pub(crate) fn nodes(&self) -> u32
        ensures number { result ≡ self.now.topology.now.near.nodes }
        ensures few { result ≤ 8 }
    {
        u32::from(self.topology.near.nodes)
    }

    /// The controller of a name: `None` exactly where none has it.
    pub(crate) fn find(&self, word: &'a [u8]) -> Option<Ctrl>
        ensures { result ≡ place_in self.now.topology.now.controllers word.now }
    {
        match self.places.get(&word) {
            Some(ctrl) => Some(*ctrl),
            None => None,
        }
    }

    /// Whether a controller is there, and has ANA.
    pub(crate) fn has_ana(&self, ctrl: &Option<Ctrl>) -> bool
        ensures { result ≡ is_with_ana self.now.topology.now.controllers ctrl.now }
    {
        match ctrl {
            Some(ctrl) => reports_ana(self.topology.controllers.as_slice(), ctrl.get() as usize),
            None => false,
        }
    }

    /// Whether some line of the text submits a request: where that isn't known, whether it is one of those so far.
    pub(crate) fn is_submitted(&self, so_far: &Requests, req: ReqId) -> bool
        ensures { result ≡ has (unwrap_or self.now.submits so_far.now) req }
    {
        match &self.submits {
            Some(all) => all.has(req),
            None => so_far.has(req),
        }
    }

    /// Whether there is a box with this number.
    pub(crate) fn has_box(&self, number: Option<u64>) -> bool
        ensures { result ≡ is_box self.now.pages number }
    {
        let page = number.unwrap_or(0);
        page < self.pages as u64 && page <= 4_294_967_295
    }
}

fn reports_ana(controllers: &[Controller], place: usize) -> bool
    ensures { result ≡ reports_ana (slice_get controllers.now place) }
{
    match controllers.get(place) {
        Some(controller) => controller.ana,
        None => false,
    }
}
