//! Steps that tell which kinds of step were made, in order.

ghost use Rattle.std.specs.Prelude.{◌≡◌};

use mp_core::steps::{KeeperSteps, Steps};
use mp_core::view::{RowEnd, Section};
use mp_words::entry::OrderEntry;
use mp_words::flight::Flight;
use mp_words::note::Note;
use mp_words::numbers::{LaneId, Node, ReqId, Slot};
use mp_words::op::{Maker, Op};
use mp_words::order::Order;
use mp_words::row::Row;
use mp_words::words::Side;

/// A kind of step. Loads of a row are told apart by whose row it is.
#[derive(Clone, Copy, PartialEq, Eq)]
pub(crate) enum Kind {
    Index,
    Enter,
    Leave,
    Order,
    Row,
    FlightRow,
    ChangeRow,
    Depth,
    Send,
    End,
    Current,
    StoreCurrent,
    ClearCurrent,
    Scan,
    Flip,
    KeeperRow,
    KeepRow,
    StoreOrder,
    KeeperDepth,
    EmptyCurrent,
}

/// How many steps are told at most.
const MOST: usize = 64;

/// Steps, and the kinds of those that were made.
#[derive(Drop)]
pub(crate) struct Counted<S> {
    steps: S,
    kinds: [Kind; 64],
    count: usize,
    told: usize,
}

impl<S: Steps> Counted<S> {
    /// Steps of which none was made yet.
    pub(crate) fn of(steps: S) -> Counted<S>
        ensures { result.steps ≡ steps }
    {
        Counted {
            steps,
            kinds: [Kind::Index; 64],
            count: 0,
            told: 0,
        }
    }

    /// The steps, uncounted.
    pub(crate) fn steps(self) -> S
        ensures { result ≡ self.steps }
    {
        let Counted {
            steps,
            kinds: _,
            count: _,
            told: _,
        } = self;
        steps
    }

    /// Whether these are the kinds of the next steps that were made.
    pub(crate) fn next(&mut self, kinds: &[Kind]) -> bool
        ensures { self.new.steps ≡ self.old.steps }
    {
        let mut same = true;
        for kind in kinds {
            same = same && self.is_next(*kind);
        }
        same
    }

    /// Whether the next step that was made is of this kind.
    fn is_next(&mut self, kind: Kind) -> bool
        ensures { self.new.steps ≡ self.old.steps }
    {
        let place = self.told;
        if place >= self.count || place >= MOST {
            return false;
        }
        self.told = place + 1;
        self.kinds[place] == kind
    }

    /// Whether no more steps were made. It forgets them.
    pub(crate) fn no_more(&mut self) -> bool
        ensures { self.new.steps ≡ self.old.steps }
    {
        let all = self.told == self.count;
        self.count = 0;
        self.told = 0;
        all
    }

    /// Notes a step. Past the most, each counts for a step that isn't told.
    fn note(&mut self, kind: Kind)
        ensures { self.new.steps ≡ self.old.steps }
    {
        if self.count < MOST {
            self.kinds[self.count] = kind;
        }
        self.count = self.count.wrapping_add(1);
    }
}

impl<S: Steps> Steps for Counted<S> {
    ghost core = { λ c. S.core c.steps };

    fn left(&self) -> u32 {
        self.steps.left()
    }

    fn lane(&self) -> LaneId {
        self.steps.lane()
    }

    fn load_side(&mut self) -> u8 {
        self.note(Kind::Index);
        self.steps.load_side()
    }

    fn enter(&mut self, side: u8) -> Section {
        self.note(Kind::Enter);
        self.steps.enter(side)
    }

    fn leave(&mut self, section: Section) -> Note {
        self.note(Kind::Leave);
        self.steps.leave(section)
    }

    fn load_order(&mut self, section: &mut Section) -> Order {
        self.note(Kind::Order);
        self.steps.load_order(section)
    }

    fn load_row(&mut self, section: &mut Section, slot: Slot) -> Row {
        self.note(Kind::Row);
        self.steps.load_row(section, slot)
    }

    fn flight_row(&mut self, section: &mut Section, flight: &Flight) -> Row {
        self.note(Kind::FlightRow);
        self.steps.flight_row(section, flight)
    }

    fn change_row(
        &mut self,
        section: &mut Section,
        slot: Slot,
        old: Row,
        op: Op,
        by: Maker,
    ) -> RowEnd {
        self.note(Kind::ChangeRow);
        self.steps.change_row(section, slot, old, op, by)
    }

    fn load_depth(&mut self, section: &mut Section, slot: Slot) -> u32 {
        self.note(Kind::Depth);
        self.steps.load_depth(section, slot)
    }

    fn send(&mut self, section: &mut Section, slot: Slot, req: ReqId) -> Flight {
        self.note(Kind::Send);
        self.steps.send(section, slot, req)
    }

    fn end(&mut self, flight: Flight) {
        self.note(Kind::End);
        self.steps.end(flight);
    }

    fn load_current(&mut self, section: &mut Section, node: Node) -> Option<Slot> {
        self.note(Kind::Current);
        self.steps.load_current(section, node)
    }

    fn store_current(&mut self, section: &mut Section, node: Node, slot: Option<Slot>) {
        self.note(Kind::StoreCurrent);
        self.steps.store_current(section, node, slot);
    }

    fn clear_current(&mut self, node: Node, slot: Slot) {
        self.note(Kind::ClearCurrent);
        self.steps.clear_current(node, slot);
    }
}

impl<S: KeeperSteps> KeeperSteps for Counted<S> {
    fn scan(&mut self, side: u8) -> Side {
        self.note(Kind::Scan);
        self.steps.scan(side)
    }

    fn flip(&mut self) {
        self.note(Kind::Flip);
        self.steps.flip();
    }

    fn keeper_row(&mut self, slot: Slot) -> Row {
        self.note(Kind::KeeperRow);
        self.steps.keeper_row(slot)
    }

    fn keep_row(&mut self, slot: Slot, old: Row, op: Op, by: Maker) -> RowEnd {
        self.note(Kind::KeepRow);
        self.steps.keep_row(slot, old, op, by)
    }

    fn store_order(&mut self, entry: OrderEntry) {
        self.note(Kind::StoreOrder);
        self.steps.store_order(entry);
    }

    fn keeper_depth(&mut self, slot: Slot) -> u32 {
        self.note(Kind::KeeperDepth);
        self.steps.keeper_depth(slot)
    }

    fn keeper_current(&mut self, node: Node) {
        self.note(Kind::EmptyCurrent);
        self.steps.keeper_current(node);
    }
}
