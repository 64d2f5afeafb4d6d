//! The keeper's pass that is bound to its table has the steps of a lane and those of the keeper.

ghost use Rattle.std.specs.Prelude.{◌≡◌};
ghost use Rattle.mp_rule.specs.Sums.{times};
ghost use Rattle.mp_table.specs.Passes.{table_of, keeper_home, keeper_view};

use crate::keeper_pass::KeeperPass;
use crate::shared::Shared;
use crate::{keeper_steps, lane_steps};
use mp_core::steps::{KeeperSteps, Steps};
use mp_core::view::{RowEnd, Section};
use mp_words::entry::OrderEntry;
use mp_words::flight::Flight;
use mp_words::note::Note;
use mp_words::numbers::{LaneId, Node, ReqId, Slot};
use mp_words::op::{Maker, Op};
use mp_words::order::Order;
use mp_words::row::Row;
use mp_words::words::Side;

/// The keeper's pass and its table, with the lane that its notes and flights carry.
pub struct OnKeeper<'a> {
    pub(crate) shared: &'a Shared,
    pub(crate) pass: KeeperPass,
    pub(crate) lane: LaneId,
    pub ghost own: { keeper_home pass ≡ table_of shared.now },
}

impl<'a> OnKeeper<'a> {
    /// Binds the keeper's pass to its table, for a lane that isn't out.
    pub fn make(shared: &'a Shared, pass: KeeperPass, lane: LaneId) -> OnKeeper<'a>
        requires own { keeper_home pass ≡ table_of shared.now }
        requires fresh { times lane (keeper_view pass).keeping.out ≡ 0 }
        ensures pass { (result.pass ≡ pass) × (result.lane ≡ lane) }
        ensures shared { table_of result.shared.now ≡ table_of shared.now }
    {
        OnKeeper { shared, pass, lane }
    }

    /// The pass, which may then be moved, be bound again or end the table.
    pub fn pass(self) -> KeeperPass
        ensures pass { result ≡ self.entry.pass }
        ensures own { keeper_home result ≡ table_of self.entry.shared.now }
    {
        let OnKeeper {
            shared: _,
            pass,
            lane: _,
        } = self;
        pass
    }
}

impl<'a> Steps for OnKeeper<'a> {
    ghost use Rattle.mp_table.specs.Known.{core_on};
    ghost use Rattle.mp_table.specs.Passes.{table_of, keeper_view};

    ghost core = { λ s. core_on (table_of s.shared.now) s.lane (keeper_view s.pass) };

    fn left(&self) -> u32 {
        self.pass.token.left
    }

    fn lane(&self) -> LaneId {
        self.lane
    }

    fn load_side(&mut self) -> u8 {
        let (shared, pass) = (self.shared, &mut self.pass);
        lane_steps::load_side(shared, &mut pass.token, self.lane)
    }

    fn enter(&mut self, side: u8) -> Section {
        let (shared, pass) = (self.shared, &mut self.pass);
        lane_steps::enter(shared, &mut pass.token, self.lane, side)
    }

    fn leave(&mut self, section: Section) -> Note {
        let (shared, pass) = (self.shared, &mut self.pass);
        lane_steps::leave(shared, &mut pass.token, self.lane, section)
    }

    fn load_order(&mut self, section: &mut Section) -> Order {
        let (shared, pass) = (self.shared, &mut self.pass);
        lane_steps::load_order(shared, &mut pass.token, self.lane, section)
    }

    fn load_row(&mut self, section: &mut Section, slot: Slot) -> Row {
        let (shared, pass) = (self.shared, &mut self.pass);
        lane_steps::load_row(shared, &mut pass.token, self.lane, section, slot)
    }

    fn flight_row(&mut self, section: &mut Section, flight: &Flight) -> Row {
        let (shared, pass) = (self.shared, &mut self.pass);
        lane_steps::flight_row(shared, &mut pass.token, self.lane, section, flight)
    }

    fn change_row(
        &mut self,
        section: &mut Section,
        slot: Slot,
        old: Row,
        op: Op,
        by: Maker,
    ) -> RowEnd {
        let (shared, pass) = (self.shared, &mut self.pass);
        lane_steps::change_row(
            shared,
            &mut pass.token,
            self.lane,
            section,
            slot,
            &old,
            &op,
            &by,
        )
    }

    fn load_depth(&mut self, section: &mut Section, slot: Slot) -> u32 {
        let (shared, pass) = (self.shared, &mut self.pass);
        lane_steps::load_depth(shared, &mut pass.token, self.lane, section, slot)
    }

    fn send(&mut self, section: &mut Section, slot: Slot, req: ReqId) -> Flight {
        let (shared, pass) = (self.shared, &mut self.pass);
        lane_steps::send(shared, &mut pass.token, self.lane, section, slot, req)
    }

    fn end(&mut self, flight: Flight) {
        let (shared, pass) = (self.shared, &mut self.pass);
        lane_steps::end(shared, &mut pass.token, self.lane, flight);
    }

    fn load_current(&mut self, section: &mut Section, node: Node) -> Option<Slot> {
        let (shared, pass) = (self.shared, &mut self.pass);
        lane_steps::load_current(shared, &mut pass.token, self.lane, section, node)
    }

    fn store_current(&mut self, section: &mut Section, node: Node, slot: Option<Slot>) {
        let (shared, pass) = (self.shared, &mut self.pass);
        lane_steps::store_current(shared, &mut pass.token, self.lane, section, node, &slot);
    }

    fn clear_current(&mut self, node: Node, slot: Slot) {
        let (shared, pass) = (self.shared, &mut self.pass);
        lane_steps::clear_current(shared, &mut pass.token, self.lane, node, slot);
    }
}

impl<'a> KeeperSteps for OnKeeper<'a> {
    fn scan(&mut self, side: u8) -> Side {
        let pass = &mut self.pass;
        keeper_steps::scan(self.shared, &mut pass.token, self.lane, side)
    }

    fn flip(&mut self) {
        let pass = &mut self.pass;
        let other = 1 - pass.index;
        keeper_steps::flip(self.shared, &mut pass.token, self.lane, other);
        pass.index = other;
    }

    fn keeper_row(&mut self, slot: Slot) -> Row {
        let pass = &mut self.pass;
        keeper_steps::keeper_row(self.shared, &mut pass.token, self.lane, slot)
    }

    fn keep_row(&mut self, slot: Slot, old: Row, op: Op, by: Maker) -> RowEnd {
        let (pass, lane) = (&mut self.pass, self.lane);
        keeper_steps::keep_row(self.shared, &mut pass.token, lane, slot, &old, &op, &by)
    }

    fn store_order(&mut self, entry: OrderEntry) {
        let pass = &mut self.pass;
        keeper_steps::store_order(self.shared, &mut pass.token, self.lane, &entry);
    }

    fn keeper_depth(&mut self, slot: Slot) -> u32 {
        let pass = &mut self.pass;
        keeper_steps::keeper_depth(self.shared, &mut pass.token, self.lane, slot)
    }

    fn keeper_current(&mut self, node: Node) {
        let pass = &mut self.pass;
        keeper_steps::keeper_current(self.shared, &mut pass.token, self.lane, node);
    }
}
