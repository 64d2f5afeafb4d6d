//! A lane's pass that is bound to its table has the steps of a lane.

ghost use Rattle.std.specs.Prelude.{◌≡◌};
ghost use Rattle.mp_table.specs.Passes.{table_of, home_of};

use crate::lane_steps;
use crate::pass::Pass;
use crate::shared::Shared;
use mp_core::steps::Steps;
use mp_core::view::{RowEnd, Section};
use mp_words::flight::Flight;
use mp_words::note::Note;
use mp_words::numbers::{LaneId, Node, ReqId, Slot};
use mp_words::op::{Maker, Op};
use mp_words::order::Order;
use mp_words::row::Row;

/// A lane's pass and its table.
pub struct On<'a> {
    pub(crate) shared: &'a Shared,
    pub(crate) pass: Pass,
    pub ghost own: { home_of pass ≡ table_of shared.now },
}

impl<'a> On<'a> {
    /// Binds a pass to its table.
    pub fn make(shared: &'a Shared, pass: Pass) -> On<'a>
        requires { home_of pass ≡ table_of shared.now }
        ensures pass { result.pass ≡ pass }
        ensures shared { table_of result.shared.now ≡ table_of shared.now }
    {
        On { shared, pass }
    }

    /// The pass, which may then be moved or joined.
    pub fn pass(self) -> Pass
        ensures pass { result ≡ self.entry.pass }
        ensures own { home_of result ≡ table_of self.entry.shared.now }
    {
        let On { shared: _, pass } = self;
        pass
    }
}

impl<'a> Steps for On<'a> {
    ghost use Rattle.mp_table.specs.Known.{core_on};
    ghost use Rattle.mp_table.specs.Passes.{table_of, view_of};

    ghost core = { λ s. core_on (table_of s.shared.now) s.pass.lane (view_of s.pass) };

    fn left(&self) -> u32 {
        self.pass.token.left
    }

    fn lane(&self) -> LaneId {
        self.pass.lane
    }

    fn load_side(&mut self) -> u8 {
        let (shared, pass) = (self.shared, &mut self.pass);
        lane_steps::load_side(shared, &mut pass.token, pass.lane)
    }

    fn enter(&mut self, side: u8) -> Section {
        let (shared, pass) = (self.shared, &mut self.pass);
        lane_steps::enter(shared, &mut pass.token, pass.lane, side)
    }

    fn leave(&mut self, section: Section) -> Note {
        let (shared, pass) = (self.shared, &mut self.pass);
        lane_steps::leave(shared, &mut pass.token, pass.lane, section)
    }

    fn load_order(&mut self, section: &mut Section) -> Order {
        let (shared, pass) = (self.shared, &mut self.pass);
        lane_steps::load_order(shared, &mut pass.token, pass.lane, section)
    }

    fn load_row(&mut self, section: &mut Section, slot: Slot) -> Row {
        let (shared, pass) = (self.shared, &mut self.pass);
        lane_steps::load_row(shared, &mut pass.token, pass.lane, section, slot)
    }

    fn flight_row(&mut self, section: &mut Section, flight: &Flight) -> Row {
        let (shared, pass) = (self.shared, &mut self.pass);
        lane_steps::flight_row(shared, &mut pass.token, pass.lane, section, flight)
    }

    fn change_row(
        &mut self,
        section: &mut Section,
        slot: Slot,
        old: Row,
        op: Op,
        by: Maker,
    ) -> RowEnd {
        let (shared, pass) = (self.shared, &mut self.pass);
        lane_steps::change_row(
            shared,
            &mut pass.token,
            pass.lane,
            section,
            slot,
            &old,
            &op,
            &by,
        )
    }

    fn load_depth(&mut self, section: &mut Section, slot: Slot) -> u32 {
        let (shared, pass) = (self.shared, &mut self.pass);
        lane_steps::load_depth(shared, &mut pass.token, pass.lane, section, slot)
    }

    fn send(&mut self, section: &mut Section, slot: Slot, req: ReqId) -> Flight {
        let (shared, pass) = (self.shared, &mut self.pass);
        lane_steps::send(shared, &mut pass.token, pass.lane, section, slot, req)
    }

    fn end(&mut self, flight: Flight) {
        let (shared, pass) = (self.shared, &mut self.pass);
        lane_steps::end(shared, &mut pass.token, pass.lane, flight);
    }

    fn load_current(&mut self, section: &mut Section, node: Node) -> Option<Slot> {
        let (shared, pass) = (self.shared, &mut self.pass);
        lane_steps::load_current(shared, &mut pass.token, pass.lane, section, node)
    }

    fn store_current(&mut self, section: &mut Section, node: Node, slot: Option<Slot>) {
        let (shared, pass) = (self.shared, &mut self.pass);
        lane_steps::store_current(shared, &mut pass.token, pass.lane, section, node, &slot);
    }

    fn clear_current(&mut self, node: Node, slot: Slot) {
        let (shared, pass) = (self.shared, &mut self.pass);
        lane_steps::clear_current(shared, &mut pass.token, pass.lane, node, slot);
    }
}
