//! One method for each kind of step.

ghost use Rattle.std.specs.Prelude.{◌≡◌, ◌<◌, ◌≤◌, true, false, Some, None};
ghost use Rattle.mp_core.specs.Core.{Core};
ghost use Rattle.mp_core.specs.Views.{has_flight};
ghost use Rattle.mp_core.specs.Notes.{HasRow, HasUsable, MayStore, Lists, ReadsNothing, ReadsAlone};
ghost use Rattle.mp_core.specs.Kinds.{LoadsSide, Enters, Leaves, LoadsOrder, LoadsRow, LoadsFlight, MayReach, IsLaneOp, Changes, ChangesRow, LoadsDepth, Sends, Lands, LoadsCurrent, StoresCurrent, ClearsCurrent, Looks, Flips, LoadsHeld, MayKeep, KeepsRow, StoresOrder, IsNext, LooksDepth, EmptiesCurrent, status_at};

use crate::view::{RowEnd, Section};
use mp_words::entry::OrderEntry;
use mp_words::flight::Flight;
use mp_words::note::Note;
use mp_words::numbers::{LaneId, Node, ReqId, Slot};
use mp_words::op::{Maker, Op};
use mp_words::order::Order;
use mp_words::row::Row;
use mp_words::words::Side;

/// The steps of a lane. Each method but `left` and `lane` makes one step of one word.
pub trait Steps {
    /// What the pass knows, and the words where they are told.
    ghost core: { Self → Core };

    /// The units left.
    fn left(&self) -> u32
        ensures { result ≡ (core self.now).view.left };

    /// The lane.
    fn lane(&self) -> LaneId
        ensures { result ≡ (core self.now).lane };

    /// Loads the side index.
    fn load_side(&mut self) -> u8
        ensures { LoadsSide (core self.old) (core self.new) result };

    /// Enters a side.
    fn enter(&mut self, side: u8) -> Section
        requires side { side < 2 }
        requires left { 1 ≤ (core self.old).view.left }
        requires closed { (core self.old).view.inside ≡ None }
        ensures { Enters (core self.old) (core self.new) side result };

    /// Leaves the section's side.
    fn leave(&mut self, section: Section) -> Note
        requires open { (core self.old).view.inside ≡ Some section }
        ensures note { result ≡ section.note }
        ensures kind { Leaves (core self.old) (core self.new) section };

    /// Loads the order.
    fn load_order(&mut self, section: &mut Section) -> Order
        requires open { (core self.old).view.inside ≡ Some section.old }
        requires first { ReadsNothing section.old.note }
        ensures { LoadsOrder (core self.old) (core self.new) section.old section.new result };

    /// Loads the row of a slot that the section's order lists.
    fn load_row(&mut self, section: &mut Section, slot: Slot) -> Row
        requires open { (core self.old).view.inside ≡ Some section.old }
        requires listed { Lists section.old.note slot }
        requires reached { MayReach section.old.note slot (core self.old).view }
        ensures { LoadsRow (core self.old) (core self.new) section.old section.new slot result };

    /// Loads the row of a flight's slot.
    fn flight_row(&mut self, section: &mut Section, flight: &Flight) -> Row
        requires open { (core self.old).view.inside ≡ Some section.old }
        requires flies { has_flight flight.now (core self.old).view ≡ true }
        requires alone { ReadsAlone flight.now.slot section.old.note }
        ensures { LoadsFlight (core self.old) (core self.new) section.old section.new flight.now.slot result };

    /// Changes a row from one that this section loaded.
    fn change_row(
        &mut self,
        section: &mut Section,
        slot: Slot,
        old: Row,
        op: Op,
        by: Maker,
    ) -> RowEnd
        requires open { (core self.old).view.inside ≡ Some section.old }
        requires old { HasRow section.old.note slot old }
        requires reached { MayReach section.old.note slot (core self.old).view }
        requires op { IsLaneOp op }
        requires changes { Changes old op }
        requires once { section.old.tried ≡ false }
        ensures { ChangesRow (core self.old) (core self.new) section.old section.new slot old op by result };

    /// Loads the depth of a slot that the section's order lists.
    fn load_depth(&mut self, section: &mut Section, slot: Slot) -> u32
        requires open { (core self.old).view.inside ≡ Some section.old }
        requires listed { Lists section.old.note slot }
        ensures { LoadsDepth (core self.old) (core self.new) section.old section.new slot result };

    /// Sends a request to a slot whose usable row this section loaded.
    fn send(&mut self, section: &mut Section, slot: Slot, req: ReqId) -> Flight
        requires open { (core self.old).view.inside ≡ Some section.old }
        requires usable { HasUsable section.old.note slot }
        requires once { section.old.sent ≡ false }
        ensures { Sends (core self.old) (core self.new) section.old section.new slot req result };

    /// Ends a flight.
    fn end(&mut self, flight: Flight)
        requires flies { has_flight flight (core self.old).view ≡ true }
        ensures { Lands (core self.old) (core self.new) flight };

    /// Loads a node's current word.
    fn load_current(&mut self, section: &mut Section, node: Node) -> Option<Slot>
        requires open { (core self.old).view.inside ≡ Some section.old }
        ensures { LoadsCurrent (core self.old) (core self.new) section.old section.new node result };

    /// Stores a node's current word: none, or a slot whose enabled row this section loaded.
    fn store_current(&mut self, section: &mut Section, node: Node, slot: Option<Slot>)
        requires open { (core self.old).view.inside ≡ Some section.old }
        requires enabled { MayStore section.old.note slot }
        ensures { StoresCurrent (core self.old) (core self.new) section.old section.new node slot };

    /// Makes a node's current word none where it names the slot.
    fn clear_current(&mut self, node: Node, slot: Slot)
        ensures { ClearsCurrent (core self.old) (core self.new) node slot };
}

/// The steps of the one keeper.
pub trait KeeperSteps: Steps {
    /// Looks at a side.
    fn scan(&mut self, side: u8) -> Side
        requires side { side < 2 }
        ensures { Looks (Self.core self.old) (Self.core self.new) side result };

    /// Stores the other side in the side index.
    fn flip(&mut self)
        ensures { Flips (Self.core self.old) (Self.core self.new) };

    /// Loads any row.
    fn keeper_row(&mut self, slot: Slot) -> Row
        ensures { LoadsHeld (Self.core self.old) (Self.core self.new) slot result };

    /// Gives a free slot a path, marks a path for removal, or frees its slot, from the row that the last step loaded.
    /// It takes a unit.
    fn keep_row(&mut self, slot: Slot, old: Row, op: Op, by: Maker) -> RowEnd
        requires left { 1 ≤ (Self.core self.old).view.left }
        requires held { (Self.core self.old).view.keeping.last ≡ Some (record { slot = slot; row = old }) }
        requires may { MayKeep op (status_at slot (Self.core self.old).view) }
        ensures { KeepsRow (Self.core self.old) (Self.core self.new) slot old op by result };

    /// Stores the next order. It takes a unit.
    fn store_order(&mut self, entry: OrderEntry)
        requires left { 1 ≤ (Self.core self.old).view.left }
        requires next { IsNext (Self.core self.old).view entry.order }
        ensures { StoresOrder (Self.core self.old) (Self.core self.new) entry };

    /// Looks at the depth of a slot.
    fn keeper_depth(&mut self, slot: Slot) -> u32
        ensures { LooksDepth (Self.core self.old) (Self.core self.new) slot result };

    /// Makes a node's current word none.
    fn keeper_current(&mut self, node: Node)
        ensures { EmptiesCurrent (Self.core self.old) (Self.core self.new) node };
}
