//! The steps of the one keeper, which the lane whose turn it is makes.

ghost use Rattle.std.specs.Prelude.{◌≡◌, ◌<◌, ◌-◌, ◌^◌, None};
ghost use Rattle.mp_words.specs.Facts.{IsRow, IsOrder};
ghost use Rattle.mp_words.specs.OrderWord.{FitsOrderWord};
ghost use Rattle.mp_core.specs.Memory.{row_in, order_in, current_in, flipped_in};
ghost use Rattle.mp_core.specs.Unpacked.{unpacked};
ghost use Rattle.mp_core.specs.Views as view;
ghost use Rattle.mp_plain.specs.Packed.{IsPacked, IsUnpacked};
ghost use Rattle.mp_plain.specs.Lanes.{lane_turn, keeper_turn, unit_turn};

use crate::cells::{depth_in, put_current, put_order, put_row, row_in, side_in};
use crate::ledger::Ledger;
use crate::notes::entry_by;
use crate::plain::Plain;
use crate::turns::{
    turn_depth_looked, turn_flipped, turn_keep_moved, turn_order_stored, turn_passed,
    turn_row_held, turn_row_kept, turn_scanned,
};
use crate::unpacked::Unpacked;
use mp_core::steps::KeeperSteps;
use mp_core::view::RowEnd;
use mp_words::entry::{OrderEntry, RowEntry};
use mp_words::numbers::{LaneId, Node, Slot};
use mp_words::op::{Maker, Op};
use mp_words::row::Row;
use mp_words::words::{Side, Words};
use std::marker::Brand;

/// Stores the other side in the index.
fn flip(words: &mut Words, ledger: &mut Ledger, lane: LaneId)
    requires { (unpacked words.old).index < 2 }
    ensures words { unpacked words.new ≡ flipped_in (unpacked words.old) }
    ensures packed { IsPacked words.old → IsPacked words.new }
    ensures home { ledger.new.seat.table_id ≡ ledger.old.seat.table_id }
    ensures view { ledger.new.seat.me.0 ≡ keeper_turn lane view.flipped ledger.old.seat.me.0 }
{
    words.index = 1 - words.index;
    turn_flipped::<Brand>(ledger, lane);
}

/// Stores the row of an entry.
fn keep(words: &mut Words, said: &mut Unpacked, ledger: &mut Ledger, lane: LaneId, entry: &RowEntry)
    requires { IsRow entry.now.row }
    ensures words { unpacked words.new ≡ row_in entry.now.slot entry.now.row (unpacked words.old) }
    ensures packed { IsPacked words.old → IsPacked words.new }
    ensures same { IsUnpacked words.old said.old → IsUnpacked words.new said.new }
    ensures home { ledger.new.seat.table_id ≡ ledger.old.seat.table_id }
    ensures view { ledger.new.seat.me.0 ≡ unit_turn lane (view.row_kept entry.now) ledger.old.seat.me.0 }
{
    put_row(words, said, entry.slot, &entry.row);
    turn_row_kept::<Brand>(ledger, lane, entry);
}

/// Stores the list of paths of an entry.
fn store(
    words: &mut Words,
    said: &mut Unpacked,
    ledger: &mut Ledger,
    lane: LaneId,
    entry: &OrderEntry,
)
    requires order { IsOrder entry.now.order }
    requires version { entry.now.order.version < 2 ^ 30 }
    ensures fits { FitsOrderWord entry.now.order }
    ensures words { unpacked words.new ≡ order_in entry.now.order (unpacked words.old) }
    ensures packed { IsPacked words.old → IsPacked words.new }
    ensures same { IsUnpacked words.old said.old → IsUnpacked words.new said.new }
    ensures home { ledger.new.seat.table_id ≡ ledger.old.seat.table_id }
    ensures view { ledger.new.seat.me.0 ≡ unit_turn lane (view.order_stored entry.now) ledger.old.seat.me.0 }
{
    put_order(words, said, &entry.order);
    turn_order_stored::<Brand>(ledger, lane, entry);
}

/// Stores none in a current word.
fn empty(words: &mut Words, ledger: &mut Ledger, lane: LaneId, node: Node)
    ensures below { node < 8 }
    ensures words { unpacked words.new ≡ current_in node None (unpacked words.old) }
    ensures packed { IsPacked words.old → IsPacked words.new }
    ensures home { ledger.new.seat.table_id ≡ ledger.old.seat.table_id }
    ensures view { ledger.new.seat.me.0 ≡ lane_turn lane view.passed ledger.old.seat.me.0 }
{
    put_current(words, node, None);
    turn_passed::<Brand>(ledger, lane);
}

impl KeeperSteps for Plain {
    #[inline(never)]
    fn scan(&mut self, side: u8) -> Side {
        let found = side_in(&self.words, side);
        turn_scanned::<Brand>(&mut self.ledger, self.lane, side, found);
        found
    }

    #[inline(never)]
    fn flip(&mut self) {
        flip(&mut self.words, &mut self.ledger, self.lane);
    }

    #[inline(never)]
    fn keeper_row(&mut self, slot: Slot) -> Row {
        let row = row_in(&self.words, &self.said, slot);
        turn_row_held::<Brand>(&mut self.ledger, self.lane, slot, &row);
        row
    }

    #[inline(never)]
    fn keep_row(&mut self, slot: Slot, old: Row, op: Op, by: Maker) -> RowEnd {
        let row = row_in(&self.words, &self.said, slot);
        if row.version != old.version {
            turn_keep_moved::<Brand>(&mut self.ledger, self.lane, slot, &row);
            self.left[self.lane.get() as usize] -= 1;
            return RowEnd::Moved(row);
        }
        let entry = entry_by(slot, &row, &op, &by);
        keep(
            &mut self.words,
            &mut self.said,
            &mut self.ledger,
            self.lane,
            &entry,
        );
        self.left[self.lane.get() as usize] -= 1;
        RowEnd::Done(entry)
    }

    #[inline(never)]
    fn store_order(&mut self, entry: OrderEntry) {
        store(
            &mut self.words,
            &mut self.said,
            &mut self.ledger,
            self.lane,
            &entry,
        );
        self.left[self.lane.get() as usize] -= 1;
    }

    #[inline(never)]
    fn keeper_depth(&mut self, slot: Slot) -> u32 {
        let depth = depth_in(&self.words, slot);
        turn_depth_looked::<Brand>(&mut self.ledger, self.lane, slot, depth);
        depth
    }

    #[inline(never)]
    fn keeper_current(&mut self, node: Node) {
        empty(&mut self.words, &mut self.ledger, self.lane, node);
    }
}
