//! The state with which a run begins.

ghost use Rattle.std.specs.Prelude.{◌≡◌, ◌<◌, ◌≤◌, ◌++◌, IfOk, OnOk, Some, None, map, length, slice_index_or, slice_get, vec_len, take, replicate, All};
ghost use Rattle.std.specs.List.{range_with_len};
ghost use Rattle.mp_words.specs.Effect.{free_row, given_row};
ghost use Rattle.mp_keep.specs.Keeper.{owner_of};
ghost use Rattle.mp_page.specs.Page.{page_in};
ghost use Rattle.mp_words.specs.Order.{order_of};
ghost use Rattle.mp_page.specs.Gifts as gifts;
ghost use Rattle.mp_legal.specs.Opening as plain;
ghost use Rattle.mp_legal.specs.Inputs.{inputs_of};
ghost use Rattle.mp_run.specs.OpeningSlots.{slot_before};
ghost use Rattle.mp_run.specs.World.{IsWorld};

use crate::error::RunError;
use mp_lane::pages::{page_gift, plain_gift, stated_gift};
use mp_page::{PageError, read_page};
use mp_script::script::World;
use mp_topology::topology::Topology;
use mp_words::numbers::{Ctrl, Slot};
use mp_words::op::Gift;
use mp_words::order::Order;
use mp_words::row::{CState, Row};
use std::alloc::Global;

/// The number of slots.
const SLOTS: usize = 15;

/// The row of a free slot.
pub fn free_row() -> Row
    ensures { result ≡ free_row 0 }
{
    Row {
        version: 0,
        ctrl: Ctrl::make(0).unwrap(),
        cstate: CState::New,
        state: 0,
        pending: false,
        ready: false,
        armed: false,
        marked: false,
        ana: false,
    }
}

/// What an opening path with ANA begins with, by the bytes of its page. A refused page counts as an empty one.
fn gift_in(alloc: Global, topology: &Topology, ctrl: Ctrl, bytes: &[u8]) -> Result<Gift, RunError>
    requires { length bytes.now ≤ 65536 }
    ensures { IfOk result (λ gift. gift ≡ gifts.gift_of topology.now.nsid ctrl (Some (plain.page_or_empty (page_in topology.now.anagrpmax bytes.now)))) }
{
    match read_page(alloc, bytes, topology.anagrpmax) {
        Ok(page) => Ok(page_gift(ctrl, &page, topology.nsid)),
        Err(PageError::NoMemory) => Err(RunError::NoMemory),
        Err(_) => Ok(stated_gift(ctrl, false, None)),
    }
}

/// What an opening path with ANA begins with, by the page in the box that is named. Without a name, and where the box
/// isn't there, the page counts as an empty one.
fn boxed_gift(alloc: Global, world: &World, ctrl: Ctrl, page: Option<u32>) -> Result<Gift, RunError>
    requires world { IsWorld world.now }
    ensures { IfOk result (λ gift. gift ≡ gifts.gift_of world.now.topology.nsid ctrl (Some (plain.named_page (inputs_of world.now) page))) }
{
    match page {
        Some(number) if (number as usize) < world.pages.len() => gift_in(
            alloc,
            &world.topology,
            ctrl,
            world.pages.get(number as usize).unwrap(),
        ),
        _ => Ok(stated_gift(ctrl, false, None)),
    }
}

/// The row of an opening path whose controller is in this state.
fn row_of(gift: Gift, cstate: CState) -> Row
    ensures { result ≡ record (given_row 0 gift) { cstate = cstate } }
{
    Row {
        version: 0,
        ctrl: gift.ctrl,
        cstate,
        state: gift.state,
        pending: gift.pending,
        ready: true,
        armed: gift.armed,
        marked: false,
        ana: gift.ana,
    }
}

/// The row of a controller's opening path.
fn opening_row(alloc: Global, world: &World, ctrl: Ctrl) -> Result<Row, RunError>
    requires world { IsWorld world.now }
    requires there { ctrl < length world.now.topology.controllers }
    ensures { IfOk result (λ row. row ≡ plain.opening_row (inputs_of world.now) ctrl (slice_get world.now.topology.controllers ctrl)) }
{
    let controllers = world.topology.controllers.as_slice();
    let controller = &controllers[ctrl.get() as usize];
    if controller.ana {
        let gift = boxed_gift(alloc, world, ctrl, controller.page)?;
        Ok(row_of(gift, controller.state))
    } else {
        Ok(row_of(plain_gift(ctrl), controller.state))
    }
}

/// The rows of the opening paths.
fn rows_of(alloc: Global, world: &World, opening: &[Ctrl]) -> Result<Vec<Row>, RunError>
    requires world { IsWorld world.now }
    requires there { All (λ ctrl. ctrl < length world.now.topology.controllers) opening.now }
    ensures { IfOk result (λ rows. rows.items ≡ map (λ ctrl. plain.opening_row (inputs_of world.now) ctrl (slice_get world.now.topology.controllers ctrl)) opening.now) }
{
    let mut rows = Vec::new(alloc);
    for ctrl in opening {
        rows.push(opening_row(alloc, world, *ctrl)?)?;
    }
    Ok(rows)
}

/// Fills up with the rows of free slots.
fn fill_up(rows: &mut Vec<Row>) -> Result<(), RunError>
    requires { vec_len rows.old ≤ 15 }
    ensures { OnOk result (rows.new.items ≡ take 15 (rows.old.items ++ replicate 15 (free_row 0))) }
{
    for slot in rows.len()..SLOTS {
        rows.push(free_row())?;
    }
    Ok(())
}

/// The rows by slot.
pub fn opening_rows(alloc: Global, world: &World) -> Result<Vec<Row>, RunError>
    requires world { IsWorld world.now }
    ensures { IfOk result (λ rows. rows.items ≡ plain.opening_rows (inputs_of world.now)) }
{
    let mut rows = rows_of(alloc, world, world.topology.opening.as_slice())?;
    fill_up(&mut rows)?;
    Ok(rows)
}

/// The slot of a place of the list, or slot 0 past its length.
fn slot_at(place: u32, len: usize) -> Slot
    requires { place < 8 }
    ensures { result ≡ slot_before len place }
{
    if (place as usize) < len {
        Slot::make(place).unwrap()
    } else {
        Slot::make(0).unwrap()
    }
}

/// The list of the opening: the first slots, in order.
pub fn opening_order(topology: &Topology) -> Order
    requires { length topology.now.opening ≤ 8 }
    ensures { result ≡ order_of 0 topology.now.policy (range_with_len 0 (length topology.now.opening)) }
{
    let len = topology.opening.len();
    Order {
        version: 0,
        policy: topology.policy,
        len: len as u8,
        slots: [
            slot_at(0, len),
            slot_at(1, len),
            slot_at(2, len),
            slot_at(3, len),
            slot_at(4, len),
            slot_at(5, len),
            slot_at(6, len),
            slot_at(7, len),
        ],
    }
}

/// The controller of the path at a place, if there is one.
fn owner_at(rows: &[Row], place: usize) -> Option<Ctrl>
    requires { place < length rows.now }
    ensures { result ≡ slice_index_or (map owner_of rows.now) place None }
{
    let row = rows[place];
    if row.state == 0 { None } else { Some(row.ctrl) }
}

/// The controllers by slot.
pub fn owners_of(rows: &[Row]) -> [Option<Ctrl>; 15]
    requires { length rows.now ≡ 15 }
    ensures { result ≡ map owner_of rows.now }
{
    [
        owner_at(rows, 0),
        owner_at(rows, 1),
        owner_at(rows, 2),
        owner_at(rows, 3),
        owner_at(rows, 4),
        owner_at(rows, 5),
        owner_at(rows, 6),
        owner_at(rows, 7),
        owner_at(rows, 8),
        owner_at(rows, 9),
        owner_at(rows, 10),
        owner_at(rows, 11),
        owner_at(rows, 12),
        owner_at(rows, 13),
        owner_at(rows, 14),
    ]
}
