//! A worked case: the words of two paths, and what stands there after each lane's steps.

ghost use Rattle.std.specs.Prelude.{◌≡◌, ◌≤◌, ◌<◌, ◌+◌, ℕ, Some, None, true};
ghost use Rattle.mp_core.specs.Kinds.{status_at};
ghost use Rattle.mp_core.specs.Status.{Status, listed, bare};
ghost use Rattle.mp_core.specs.Unpacked.{unpacked};
ghost use Rattle.mp_core.specs.Views.{has_flight};
ghost use Rattle.mp_plain.specs.Stages.{Stage, two_listed, one_path, marked_at, closed_at, cleared_at, all_cleared, emptied_at};
ghost use Rattle.mp_plain.specs.Told.{told_core};
ghost use Rattle.mp_plain.specs.TwoPaths.{two_path_words};

use crate::plain::Plain;
use mp_core::steps::{KeeperSteps, Steps};
use mp_core::view::RowEnd;
use mp_words::entry::OrderEntry;
use mp_words::flight::Flight;
use mp_words::numbers::{LaneId, Node, ReqId, Slot};
use mp_words::op::{Maker, Op};
use mp_words::order::Order;
use mp_words::row::Policy;
use mp_words::words::Words;
use std::test::Fail;

/// The words of two live, optimized and ready paths, listed under NUMA.
fn two_paths() -> Words
    ensures { result ≡ two_path_words }
{
    Words {
        index: 0,
        sides: [0, 0],
        order: 0xFFFF_FF10_0000_0000,
        rows: [
            0x0000_4240_0000_0000,
            0x0000_4241_0000_0000,
            0,
            0,
            0,
            0,
            0,
            0,
            0,
            0,
            0,
            0,
            0,
            0,
            0,
        ],
        depths: [0; 15],
        currents: [0; 8],
    }
}

/// Sends a request to the first listed path, in a section of its own.
fn send_one(plain: &mut Plain, req: ReqId) -> Flight
    requires told { (told_core plain.old).told ≡ Some (unpacked two_path_words) }
    requires left { 1 ≤ (told_core plain.old).view.left }
    requires closed { (told_core plain.old).view.inside ≡ None }
    ensures { has_flight result (told_core plain.new).view ≡ true }
{
    let side = plain.load_side();
    let mut section = plain.enter(side);
    let order = plain.load_order(&mut section);
    let slot = order.slots[0];
    plain.load_row(&mut section, slot);
    let flight = plain.send(&mut section, slot, req);
    plain.leave(section);
    flight
}

/// Marks a slot.
fn mark(plain: &mut Plain, slot: Slot) -> bool
    requires left { 1 ≤ (told_core plain.old).view.left }
    requires listed { status_at slot (told_core plain.old).view ≡ listed }
    ensures { result ≡ true → (n o : ℕ) (st : ℕ → Status) → Stage (told_core plain.old).view (n + 1) st o → Stage (told_core plain.new).view n (marked_at slot st) o }
{
    let row = plain.keeper_row(slot);
    match plain.keep_row(slot, row, Op::Mark, Maker::Start) {
        RowEnd::Done(_) => true,
        RowEnd::Moved(_) => false,
    }
}

/// Looks at both sides, and says whether nobody is inside.
fn close(plain: &mut Plain) -> bool
    ensures { result ≡ true → (n o : ℕ) (st : ℕ → Status) → Stage (told_core plain.old).view n st o → Stage (told_core plain.new).view n (closed_at st) o }
{
    let first = plain.scan(0);
    let second = plain.scan(1);
    first.inside == 0 && second.inside == 0
}

/// Clears a node's current word of a slot.
fn clear(plain: &mut Plain, node: u32, slot: Slot)
    requires { node < 8 }
    ensures { (n o : ℕ) (st : ℕ → Status) → Stage (told_core plain.old).view n st o → Stage (told_core plain.new).view n (cleared_at slot node st) o }
{
    plain.clear_current(Node::make(node).unwrap(), slot);
}

/// Clears the current words of all nodes of a slot.
fn clear_all(plain: &mut Plain, slot: Slot)
    ensures { (n o : ℕ) (st : ℕ → Status) → Stage (told_core plain.old).view n st o → Stage (told_core plain.new).view n (all_cleared slot st) o }
{
    clear(plain, 0, slot);
    clear(plain, 1, slot);
    clear(plain, 2, slot);
    clear(plain, 3, slot);
    clear(plain, 4, slot);
    clear(plain, 5, slot);
    clear(plain, 6, slot);
    clear(plain, 7, slot);
}

/// Says whether no flight is on a slot.
fn empty(plain: &mut Plain, slot: Slot) -> bool
    ensures { result ≡ true → (n o : ℕ) (st : ℕ → Status) → Stage (told_core plain.old).view n st o → Stage (told_core plain.new).view n (emptied_at slot st) o }
{
    plain.keeper_depth(slot) == 0
}

/// Frees a slot.
fn free(plain: &mut Plain, slot: Slot) -> bool
    requires left { 1 ≤ (told_core plain.old).view.left }
    requires bare { status_at slot (told_core plain.old).view ≡ bare }
{
    let row = plain.keeper_row(slot);
    match plain.keep_row(slot, row, Op::Free, Maker::Start) {
        RowEnd::Done(_) => true,
        RowEnd::Moved(_) => false,
    }
}

/// Removes the first of two paths.
fn remove(plain: &mut Plain, slot: Slot, entry: OrderEntry) -> bool
    requires slot { slot ≡ 0 }
    requires stage { Stage (told_core plain.old).view 3 two_listed 0 }
    requires order { entry.order ≡ one_path }
{
    if !mark(plain, slot) {
        return false;
    }
    if !close(plain) {
        return false;
    }
    clear_all(plain, slot);
    plain.store_order(entry);
    if !close(plain) {
        return false;
    }
    if !empty(plain, slot) {
        return false;
    }
    free(plain, slot)
}

/// The entry of the list of paths that has slot 1 alone.
fn one_path() -> OrderEntry
    ensures { result.order ≡ one_path }
{
    let zero = Slot::make(0).unwrap();
    let mut slots = [zero; 8];
    slots[0] = Slot::make(1).unwrap();
    OrderEntry {
        order: Order {
            version: 1,
            policy: Policy::Numa,
            len: 1,
            slots,
        },
        by: Maker::Start,
    }
}

#[test]
fn a_request_is_sent_and_ends(rt: HostRuntime) -> Result<(), Fail> {
    let mut plain = Plain::make(rt.alloc(), &two_paths(), 100)?;
    plain.turn(LaneId::make(3).unwrap());
    let flight = send_one(&mut plain, ReqId::make(0).unwrap());
    assert_eq!(rt; plain.words().sides[0], 0x0000_0001_0000_0000);
    assert_eq!(rt; plain.words().depths[0], 1);
    plain.end(flight);
    assert_eq!(rt; plain.words().depths[0], 0);
    Ok(())
}

#[test]
fn a_path_is_removed(rt: HostRuntime) -> Result<(), Fail> {
    let mut plain = Plain::make(rt.alloc(), &two_paths(), 100)?;
    plain.turn(LaneId::make(16).unwrap());
    assert!(rt; remove(&mut plain, Slot::make(0).unwrap(), one_path()));
    assert_eq!(rt; plain.words().rows[0], 2);
    assert_eq!(rt; plain.words().rows[1], 0x0000_4241_0000_0000);
    assert_eq!(rt; plain.words().order, 0xFFFF_FFF1_0000_0001);
    Ok(())
}
