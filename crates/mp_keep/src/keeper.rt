//! The keeper's own data.

ghost use Rattle.std.specs.Prelude.{◌≡◌, ◌≤◌, ◌<◌, ◌+◌, ◌++◌, ◌∷◌, ◌==◌, [], not, OnOk, OnErr, ℕ, Some, None, is_some, position, length, slice_set, ◌-◌};
ghost use Rattle.std.specs.List.{remove};
ghost use Rattle.mp_keep.specs.Keeper.{IsNew, removal_of, removal_at};
ghost use Rattle.mp_keep.specs.Keeps.{is_owner, slot_with, free_slot, path_slot, with_order, with_owner, with_removal};

use crate::keep::copied;
use crate::keep_error::KeepError;
use crate::removal::Removal;
use crate::stage::Stage;
use mp_words::entry::{Closing, Grace, KeepEntry, OrderEntry};
use mp_words::numbers::{Ctrl, Slot};
use mp_words::op::Maker;
use mp_words::order::Order;
use mp_words::row::Policy;
use std::alloc::Global;
use std::marker::Model;

/// The most entries that a keeper may have.
const MOST_ENTRIES: usize = 2_147_483_648;

/// The room that each call needs.
const ROOM: usize = 80;

/// The one who adds and removes paths. It knows the list of paths, whose each slot is, the removals under way, and what
/// it made.
#[derive(Drop)]
pub struct Keeper {
    order: Order,
    owners: [Option<Ctrl>; 15],
    removals: Vec<Removal>,
    flips: u32,
    entries: Vec<KeepEntry>,
}

impl Model for Keeper {
    ghost use Rattle.std.specs.Prelude.{vec_len, vec_capacity};
    ghost use Rattle.mp_keep.specs.Keeper.{KeeperView, room_of};

    ghost Value = { KeeperView };

    ghost view = { λ k. record { order = k.order; owners = k.owners; removals = k.removals.items; flips = k.flips; entries = k.entries.items; spare = room_of (vec_len k.entries) (vec_capacity k.entries) (vec_len k.removals) (vec_capacity k.removals) } };
}

impl Keeper {
    /// A keeper of this list of paths, whose slots have these controllers. It takes no memory.
    pub fn make(alloc: Global, order: Order, owners: [Option<Ctrl>; 15]) -> Keeper
        ensures { IsNew order owners result }
    {
        Keeper {
            order,
            owners,
            removals: Vec::new(alloc),
            flips: 0,
            entries: Vec::new(alloc),
        }
    }

    /// Makes room for what the next call makes, at most 80 entries. A keeper has at most 2^31 entries.
    ///
    /// # Errors
    ///
    /// `NoMemory` where memory runs out, and never where there was room. The keeper is as it was but for its room.
    pub fn reserve(&mut self) -> Result<(), KeepError>
        ensures room { OnOk result (80 ≤ self.new.spare) }
        ensures kept { self.new ≡ record (self.old) { spare = self.new.spare } }
        ensures more { self.old.spare ≤ self.new.spare }
        ensures cause { OnErr result (self.old.spare < 80) }
    {
        if self.entries.len() > MOST_ENTRIES - ROOM {
            return Err(KeepError::NoMemory);
        }
        self.removals.reserve(1).map_err(|_| KeepError::NoMemory)?;
        self.entries.reserve(ROOM).map_err(|_| KeepError::NoMemory)
    }

    /// The lists of paths that were stored and the closings of grace periods, in the order in which they were made.
    pub fn entries(&self) -> &[KeepEntry]
        ensures { result.now ≡ self.now.entries }
    {
        self.entries.as_slice()
    }

    /// Whether a removal is under way.
    pub fn reaping(&self) -> bool
        ensures { result ≡ not (length self.now.removals == 0) }
    {
        !self.removals.is_empty()
    }

    /// The list of paths. Where there is room, the entries are fewer than 2^31.
    pub(crate) fn list(&self) -> Order
        ensures order { result ≡ self.now.order }
        ensures room { 1 ≤ self.now.spare → length self.now.entries < 2147483648 }
    {
        self.order
    }

    /// Whether eight paths are listed.
    pub(crate) fn is_full(&self) -> bool
        ensures { result ≡ (self.now.order.len == 8) }
    {
        self.order.len == 8
    }

    /// The flips so far.
    pub(crate) fn flips(&self) -> u32
        ensures { result ≡ self.now.flips }
    {
        self.flips
    }

    /// The slot that a controller has.
    pub(crate) fn slot_with(&self, ctrl: Ctrl) -> Option<Slot>
        requires { length self.now.owners ≡ 15 }
        ensures { result ≡ slot_with self.now ctrl }
    {
        first_owned(&self.owners, &Some(ctrl))
    }

    /// The least free slot.
    pub(crate) fn free_slot(&self) -> Option<Slot>
        requires { length self.now.owners ≡ 15 }
        ensures { result ≡ free_slot self.now }
    {
        first_owned(&self.owners, &None)
    }

    /// Whether a slot is under removal.
    pub(crate) fn is_removed(&self, slot: Slot) -> bool
        ensures { result ≡ is_some (removal_of self.now.removals slot) }
    {
        is_among(self.removals.as_slice(), slot)
    }

    /// The slot of a controller's path that isn't under removal.
    pub(crate) fn path_slot(&self, ctrl: Ctrl) -> Option<Slot>
        requires { length self.now.owners ≡ 15 }
        ensures { result ≡ path_slot self.now ctrl }
    {
        let slot = self.slot_with(ctrl)?;
        if self.is_removed(slot) {
            None
        } else {
            Some(slot)
        }
    }

    /// How many removals are under way.
    pub fn removals(&self) -> usize
        ensures { result ≡ length self.now.removals }
    {
        self.removals.len()
    }

    /// The removal at a place.
    pub(crate) fn removal(&self, place: usize) -> Removal
        requires { place < length self.now.removals }
        ensures { result ≡ removal_at self.now place }
    {
        self.removals[place]
    }

    /// Appends an entry, for which there is room.
    fn note(&mut self, entry: KeepEntry)
        requires { 1 ≤ self.old.spare }
        ensures { self.new ≡ record (self.old) { entries = self.old.entries ++ entry ∷ []; spare = self.old.spare - 1 } }
    {
        // The proof of a push needs each type inside an entry named here.
        let _: (Option<OrderEntry>, Option<Closing>, Option<Grace>) = (None, None, None);
        let _: (Option<Order>, Option<Policy>, Option<Maker>) = (None, None, None);
        let _: Option<Slot> = None;
        self.entries.push_reserved(entry);
    }

    /// Takes over a list of paths that was stored.
    pub(crate) fn take_order(&mut self, entry: &OrderEntry)
        requires { 1 ≤ self.old.spare }
        ensures { self.new ≡ with_order entry.now self.old }
    {
        self.order = copied(entry).order;
        self.note(KeepEntry::Order(copied(entry)));
    }

    /// Gives a slot a controller, or none.
    pub(crate) fn own(&mut self, slot: Slot, owner: Option<Ctrl>)
        requires { length self.old.owners ≡ 15 }
        ensures { self.new ≡ with_owner slot owner self.old }
    {
        self.owners[slot.get() as usize] = owner;
    }

    /// Begins a removal, for which there is room.
    pub(crate) fn begin(&mut self, slot: Slot, mark: u32)
        requires { 1 ≤ self.old.spare }
        ensures { self.new ≡ record (with_removal slot mark self.old) { spare = self.new.spare } }
    {
        self.removals.push_reserved(Removal {
            slot,
            mark,
            stage: Stage::Marked,
        });
    }

    /// Ends the removal at a place.
    pub(crate) fn end(&mut self, place: usize)
        requires { place < length self.old.removals }
        ensures { self.new ≡ record (self.old) { removals = remove self.old.removals place; spare = self.new.spare } }
    {
        let _ = self.removals.remove(place);
    }

    /// The removal at a place has come to this stage.
    pub(crate) fn reach(&mut self, place: usize, stage: Stage)
        requires { place < length self.old.removals }
        ensures { self.new ≡ record (self.old) { removals = slice_set self.old.removals place (record (removal_at self.old place) { stage = stage }) } }
    {
        self.removals[place].stage = stage;
    }

    /// Appends a closing, for which there is room.
    pub(crate) fn close(&mut self, closing: Closing)
        requires { 1 ≤ self.old.spare }
        ensures { self.new ≡ record (self.old) { entries = self.old.entries ++ KeepEntry.Closing closing ∷ []; spare = self.old.spare - 1 } }
    {
        self.note(KeepEntry::Closing(closing));
    }

    /// Counts a flip.
    pub(crate) fn turn(&mut self)
        requires { self.old.flips < 4294967295 }
        ensures { self.new ≡ record (self.old) { flips = self.old.flips + 1 } }
    {
        self.flips += 1;
    }
}

/// The first slot with this controller, or with none.
fn first_owned(owners: &[Option<Ctrl>; 15], owner: &Option<Ctrl>) -> Option<Slot>
    ensures { result ≡ position (is_owner owner.now) owners.now }
{
    for n in 0..15 {
        if is_owner(&owners[n], owner) {
            return Some(slot_of(n));
        }
    }
    None
}

/// The slot of a number.
fn slot_of(n: usize) -> Slot
    requires { n < 15 }
    ensures { result ≡ n }
{
    Slot::make(n as u32).unwrap()
}

/// Whether a slot has this controller, or none where none is asked for.
fn is_owner(has: &Option<Ctrl>, owner: &Option<Ctrl>) -> bool
    ensures { result ≡ is_owner owner.now has.now }
{
    match (has, owner) {
        (None, None) => true,
        (Some(has), Some(owner)) => has.get() == owner.get(),
        _ => false,
    }
}

/// Whether a slot is among these under removal.
fn is_among(removals: &[Removal], slot: Slot) -> bool
    ensures { result ≡ is_some (removal_of removals.now slot) }
{
    for place in 0..removals.len() {
        if removals[place].slot.get() == slot.get() {
            return true;
        }
    }
    false
}
