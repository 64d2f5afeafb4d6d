//! What each policy chooses of three paths.

ghost use Rattle.std.specs.Prelude.{◌≡◌};

use crate::choice::{depth, numa, round_robin};
use mp_words::near::Near;
use mp_words::numbers::{Ctrl, Node, Slot};
use mp_words::reading::Reading;
use mp_words::row::{CState, Row};
use mp_words::states::{NON_OPTIMIZED, OPTIMIZED};
use std::test::Fail;

/// The row of a live and ready path of the controller, in an ANA state.
fn path(ctrl: u32, state: u8) -> Row {
    Row {
        version: 0,
        ctrl: Ctrl::make(ctrl).unwrap_or(Ctrl::make(0).unwrap()),
        cstate: CState::Live,
        state,
        pending: false,
        ready: true,
        armed: false,
        marked: false,
        ana: true,
    }
}

/// Three paths in slots 0 to 2, of the controllers 0 to 2, in these states.
fn reading(first: u8, second: u8, third: u8) -> Reading
    ensures { result.len ≡ 3 }
{
    let zero = Slot::make(0).unwrap();
    let mut slots = [zero; 8];
    slots[1] = Slot::make(1).unwrap();
    slots[2] = Slot::make(2).unwrap();
    let mut rows = [path(0, first); 8];
    rows[1] = path(1, second);
    rows[2] = path(2, third);
    Reading {
        len: 3,
        slots,
        rows,
    }
}

/// The number of the slot that was chosen, and 15 where none was.
fn number(choice: Option<Slot>) -> u32 {
    match choice {
        Some(slot) => slot.get(),
        None => 15,
    }
}

#[test]
fn numa_takes_the_nearest(rt: HostRuntime) {
    let (left, right) = (Node::make(0).unwrap(), Node::make(1).unwrap());
    let mut near = Near {
        nodes: 2,
        distance: [[0; 8]; 8],
        home: [None; 64],
    };
    near.distance[0] = [10, 20, 0, 0, 0, 0, 0, 0];
    near.distance[1] = [20, 10, 0, 0, 0, 0, 0, 0];
    near.home[0] = Some(left);
    near.home[1] = Some(right);
    near.home[2] = Some(right);
    let all = reading(OPTIMIZED, OPTIMIZED, OPTIMIZED);
    assert_eq!(rt; number(numa(&all, left, &near)), 0);
    assert_eq!(rt; number(numa(&all, right, &near)), 1);
    let last = reading(NON_OPTIMIZED, NON_OPTIMIZED, OPTIMIZED);
    assert_eq!(rt; number(numa(&last, left, &near)), 2);
}

#[test]
fn round_robin_takes_turns(rt: HostRuntime) {
    let slow = reading(NON_OPTIMIZED, NON_OPTIMIZED, NON_OPTIMIZED);
    assert_eq!(rt; number(round_robin(&slow, None)), 0);
    assert_eq!(rt; number(round_robin(&slow, Slot::make(0))), 2);
    assert_eq!(rt; number(round_robin(&slow, Slot::make(2))), 1);
    assert_eq!(rt; number(round_robin(&slow, Slot::make(1))), 0);
    let mixed = reading(OPTIMIZED, NON_OPTIMIZED, OPTIMIZED);
    assert_eq!(rt; number(round_robin(&mixed, Slot::make(0))), 2);
    assert_eq!(rt; number(round_robin(&mixed, Slot::make(2))), 0);
    assert_eq!(rt; number(round_robin(&mixed, Slot::make(9))), 0);
}

#[test]
fn queue_depth_takes_the_fewest(rt: HostRuntime) {
    let all = reading(OPTIMIZED, OPTIMIZED, NON_OPTIMIZED);
    assert_eq!(rt; number(depth(&all, &[0, 0, 0, 0, 0, 0, 0, 0])), 0);
    assert_eq!(rt; number(depth(&all, &[1, 0, 0, 0, 0, 0, 0, 0])), 1);
    assert_eq!(rt; number(depth(&all, &[1, 1, 0, 0, 0, 0, 0, 0])), 0);
    let lost = reading(3, 4, 15);
    assert_eq!(rt; number(depth(&lost, &[0, 0, 0, 0, 0, 0, 0, 0])), 15);
}
