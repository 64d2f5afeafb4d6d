//! Whether two sections read the same.

ghost use Rattle.mp_words.specs.Like.{Tells, at_ticket};

use crate::note::Note;
use crate::numbers::Slot;
use crate::order::{Order, policy_code};
use crate::row::{Row, cstate_code};

/// Whether two notes differ in their tickets at most.
pub fn is_like(a: &Note, b: &Note) -> bool
    ensures { Tells result (at_ticket b.now.ticket a.now) b.now }
{
    a.lane.get() == b.lane.get()
        && a.side == b.side
        && a.reading.len == b.reading.len
        && are_same_slots(&a.reading.slots, &b.reading.slots)
        && is_same_current(&a.current, &b.current)
        && is_same_listing(&a.order, &b.order)
        && are_same_marks(&a.read, &b.read)
        && are_same_depths(&a.depths, &b.depths)
        && are_same_rows(&a.reading.rows, &b.reading.rows)
}

/// Whether two current paths are the same, if they were read.
fn is_same_current(a: &Option<Option<Slot>>, b: &Option<Option<Slot>>) -> bool
    ensures { Tells result a.now b.now }
{
    match (a, b) {
        (None, None) => true,
        (Some(a), Some(b)) => is_same_slot(a, b),
        _ => false,
    }
}

/// Whether two slots are the same, if there are any.
fn is_same_slot(a: &Option<Slot>, b: &Option<Slot>) -> bool
    ensures { Tells result a.now b.now }
{
    match (a, b) {
        (None, None) => true,
        (Some(a), Some(b)) => a.get() == b.get(),
        _ => false,
    }
}

/// Whether two orders are the same, if there are any.
fn is_same_listing(a: &Option<Order>, b: &Option<Order>) -> bool
    ensures { Tells result a.now b.now }
{
    match (a, b) {
        (None, None) => true,
        (Some(a), Some(b)) => is_same_order(a, b),
        _ => false,
    }
}

/// Whether two orders are the same.
fn is_same_order(a: &Order, b: &Order) -> bool
    ensures { Tells result a.now b.now }
{
    a.version == b.version
        && policy_code(a.policy) == policy_code(b.policy)
        && a.len == b.len
        && are_same_slots(&a.slots, &b.slots)
}

/// Whether two rows are the same.
fn is_same_row(a: &Row, b: &Row) -> bool
    ensures { Tells result a.now b.now }
{
    // With no early end, so that the bytes that lie side by side are compared at once.
    (a.version == b.version)
        & (a.ctrl.get() == b.ctrl.get())
        & (cstate_code(a.cstate) == cstate_code(b.cstate))
        & (a.state == b.state)
        & (a.pending == b.pending)
        & (a.ready == b.ready)
        & (a.armed == b.armed)
        & (a.marked == b.marked)
        & (a.ana == b.ana)
}

/// Whether two depths are the same, if they were read.
fn is_same_depth(a: &Option<u32>, b: &Option<u32>) -> bool
    ensures { Tells result a.now b.now }
{
    match (a, b) {
        (None, None) => true,
        (Some(a), Some(b)) => *a == *b,
        _ => false,
    }
}

/// Whether the same slots stand in the same places.
fn are_same_slots(a: &[Slot; 8], b: &[Slot; 8]) -> bool
    ensures { Tells result a.now b.now }
{
    let mut same = true;
    for place in 0..8 {
        same = same & (a[place].get() == b[place].get());
    }
    same
}

/// Whether the same places are marked.
fn are_same_marks(a: &[bool; 8], b: &[bool; 8]) -> bool
    ensures { Tells result a.now b.now }
{
    let mut same = true;
    for place in 0..8 {
        same = same & (a[place] == b[place]);
    }
    same
}

/// Whether the same depths stand in the same places.
fn are_same_depths(a: &[Option<u32>; 8], b: &[Option<u32>; 8]) -> bool
    ensures { Tells result a.now b.now }
{
    let mut same = true;
    for place in 0..8 {
        same = same & is_same_depth(&a[place], &b[place]);
    }
    same
}

/// Whether the same rows stand in the same places.
fn are_same_rows(a: &[Row; 8], b: &[Row; 8]) -> bool
    ensures { Tells result a.now b.now }
{
    let mut same = true;
    for place in 0..8 {
        same = same & is_same_row(&a[place], &b[place]);
    }
    same
}
