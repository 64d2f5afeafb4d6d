//! The words, one at a time: packed as they are written, the rows and the list of paths beside what they say.

ghost use Rattle.std.specs.Prelude.{◌≡◌, ◌<◌, ◌^◌, ℕ, Some, None, slice_set};
ghost use Rattle.mp_words.specs.Facts.{IsRow, IsOrder};
ghost use Rattle.mp_words.specs.OrderWord.{FitsOrderWord};
ghost use Rattle.mp_core.specs.Memory.{side_at, row_at, depth_at, current_at, row_in, order_in, current_in};
ghost use Rattle.mp_core.specs.Unpacked.{unpacked, current_in_word};
ghost use Rattle.mp_plain.specs.Packed.{IsPacked, IsUnpacked};

use crate::unpacked::Unpacked;
use mp_words::numbers::{Node, Slot};
use mp_words::order::Order;
use mp_words::row::Row;
use mp_words::words::{Side, Words};

/// A side.
pub(crate) fn side_in(words: &Words, side: u8) -> Side
    requires { side < 2 }
    ensures { result ≡ side_at (unpacked words.now) side }
{
    Side::unpack(words.sides[side as usize])
}

/// The row of a slot.
pub(crate) fn row_in(_words: &Words, said: &Unpacked, slot: Slot) -> Row
    requires { IsUnpacked _words.now said.now }
    ensures row { result ≡ row_at (unpacked _words.now) slot }
    ensures below { slot < 15 }
{
    said.rows[slot.get() as usize]
}

/// The list of paths.
pub(crate) fn order_in(_words: &Words, said: &Unpacked) -> Order
    requires { IsUnpacked _words.now said.now }
    ensures { result ≡ (unpacked _words.now).order }
{
    let _: Option<Slot> = None;
    said.order
}

/// The depth of a slot.
pub(crate) fn depth_in(words: &Words, slot: Slot) -> u32
    requires { depth_at (unpacked words.now) slot < 2 ^ 32 }
    ensures depth { result ≡ depth_at (unpacked words.now) slot }
    ensures below { slot < 15 }
{
    words.depths[slot.get() as usize] as u32
}

/// The slot that a node's current word names, if it names one.
pub(crate) fn current_in(words: &Words, node: Node) -> Option<Slot>
    requires { (s : ℕ) → current_at (unpacked words.now) node ≡ Some s → s < 15 }
    ensures current { result ≡ current_at (unpacked words.now) node }
    ensures below { node < 8 }
{
    let word = words.currents[node.get() as usize];
    if word == 0 {
        return None;
    }
    Some(Slot::make((word - 1) as u32).unwrap())
}

/// Stores a side.
pub(crate) fn put_side(words: &mut Words, side: u8, to: Side)
    requires { side < 2 }
    ensures words { unpacked words.new ≡ record (unpacked words.old) { sides = slice_set (unpacked words.old).sides side to } }
    ensures packed { IsPacked words.old → IsPacked words.new }
{
    words.sides[side as usize] = to.pack();
}

/// Stores the row of a slot.
pub(crate) fn put_row(words: &mut Words, said: &mut Unpacked, slot: Slot, row: &Row)
    requires { IsRow row.now }
    ensures words { unpacked words.new ≡ row_in slot row.now (unpacked words.old) }
    ensures packed { IsPacked words.old → IsPacked words.new }
    ensures same { IsUnpacked words.old said.old → IsUnpacked words.new said.new }
{
    let place = slot.get() as usize;
    words.rows[place] = row.pack();
    said.rows[place] = *row;
}

/// Stores the list of paths.
pub(crate) fn put_order(words: &mut Words, said: &mut Unpacked, order: &Order)
    requires order { IsOrder order.now }
    requires version { order.now.version < 2 ^ 30 }
    ensures fits { FitsOrderWord order.now }
    ensures words { unpacked words.new ≡ order_in order.now (unpacked words.old) }
    ensures packed { IsPacked words.old → IsPacked words.new }
    ensures same { IsUnpacked words.old said.old → IsUnpacked words.new said.new }
{
    let _: Option<Slot> = None;
    words.order = order.pack();
    said.order = *order;
}

/// Stores the depth of a slot.
pub(crate) fn put_depth(words: &mut Words, slot: Slot, depth: u32)
    ensures words { unpacked words.new ≡ record (unpacked words.old) { depths = slice_set (unpacked words.old).depths slot depth } }
    ensures packed { IsPacked words.old → IsPacked words.new }
{
    words.depths[slot.get() as usize] = u64::from(depth);
}

/// Stores a node's current word.
pub(crate) fn put_current(words: &mut Words, node: Node, current: Option<Slot>)
    ensures below { node < 8 }
    ensures words { unpacked words.new ≡ current_in node current (unpacked words.old) }
    ensures packed { IsPacked words.old → IsPacked words.new }
{
    words.currents[node.get() as usize] = current_word(current);
}

/// The word of a current path.
fn current_word(current: Option<Slot>) -> u64
    ensures { current_in_word result ≡ current }
{
    match current {
        Some(slot) => u64::from(slot.get()) + 1,
        None => 0,
    }
}
