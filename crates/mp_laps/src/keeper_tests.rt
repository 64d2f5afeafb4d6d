//! What each of the keeper's calls answers over the words of two paths, and what stands there afterwards.

ghost use Rattle.std.specs.Prelude.{◌≡◌, ◌≤◌, ◌∷◌, None, Some, true, replicate};
ghost use Rattle.std.specs.List.{last_or};
ghost use Rattle.mp_words.specs.TwoPaths as listed;
ghost use Rattle.mp_words.specs.declared.trying.Outcome.TheVariants as outcome;
ghost use Rattle.mp_words.specs.Request.{outcome_of, asked_of};
ghost use Rattle.mp_core.specs.Views.{has_flight};
ghost use Rattle.mp_keep.specs.Keeper.{StandsTo};
ghost use Rattle.mp_plain.specs.Told.{told_core, core_begun};
ghost use Rattle.mp_plain.specs.TwoPaths.{two_path_words};
ghost use Rattle.mp_laps.specs.Keeping.{Leaves, Sends, StillStands};
ghost use Rattle.mp_laps.specs.Tabled.{Steady};

use crate::bench::{one_node, two_paths};
use mp_core::gate::NoGate;
use mp_core::steps::{KeeperSteps, Steps};
use mp_keep::add_error::AddError;
use mp_keep::added::Added;
use mp_keep::keeper::Keeper;
use mp_keep::laws::{a_keeper_still_stands, a_new_keeper_stands, room_leaves_the_keeper};
use mp_keep::reaped::Reaped;
use mp_keep::remove_error::RemoveError;
use mp_keep::stop::Stop;
use mp_plain::plain::Plain;
use mp_submit::finish::{Finished, finish};
use mp_submit::submit::{Submitted, submit};
use mp_words::answers::Answers;
use mp_words::entry::{Grace, KeepEntry, OrderEntry, RowEntry};
use mp_words::flight::Flight;
use mp_words::numbers::{Ctrl, LaneId, Node, ReqId, Slot};
use mp_words::op::{Gift, Maker};
use mp_words::order::Order;
use mp_words::request::Request;
use mp_words::row::Policy;
use std::alloc::Global;
use std::test::Fail;

/// The list of two paths under NUMA.
pub(crate) fn two_listed() -> Order
    ensures { result ≡ listed.two_paths }
{
    let mut slots = [Slot::make(0).unwrap(); 8];
    slots[1] = Slot::make(1).unwrap();
    Order {
        version: 0,
        policy: Policy::Numa,
        len: 2,
        slots,
    }
}

/// The controllers of two paths.
pub(crate) fn two_owners() -> [Option<Ctrl>; 15]
    ensures { result ≡ Some 0 ∷ Some 1 ∷ replicate 13 None }
{
    let mut owners = [None; 15];
    owners[0] = Some(Ctrl::make(0).unwrap());
    owners[1] = Some(Ctrl::make(1).unwrap());
    owners
}

/// The keeper of the words of two paths, over which nobody has stepped yet.
pub(crate) fn keeper_of(alloc: Global, plain: &Plain) -> Keeper
    requires { told_core plain.now ≡ core_begun (told_core plain.now).home (record { words = two_path_words; allowance = 100 }) }
    ensures { StandsTo result (told_core plain.now).view }
{
    a_new_keeper_stands();
    Keeper::make(alloc, two_listed(), two_owners())
}

/// Makes room for the keeper's next call, and says whether there is.
pub(crate) fn has_room<S: KeeperSteps>(keeper: &mut Keeper, steps: &S) -> bool
    requires { StandsTo keeper.old (S.core steps.now).view }
    ensures stands { StandsTo keeper.new (S.core steps.now).view }
    ensures room { result ≡ true → 80 ≤ keeper.new.spare }
{
    room_leaves_the_keeper();
    keeper.reserve().is_ok()
}

/// A line of lane 0.
pub(crate) fn at(line: u32) -> Maker {
    Maker::Line {
        lane: LaneId::make(0).unwrap(),
        line,
    }
}

/// Adds an optimized path of a controller without ANA, or answers nothing where memory ran out.
#[tactic(auto, using(crate::proofs::Tabling::steady_all, crate::proofs::Tabling::add_steady))]
pub(crate) fn add<S: KeeperSteps>(
    keeper: &mut Keeper,
    steps: &mut S,
    ctrl: Ctrl,
    line: u32,
) -> Option<Result<Added, AddError>>
    requires left { 2 ≤ (S.core steps.old).view.left }
    requires closed { (S.core steps.old).view.inside ≡ None }
    requires stands { StandsTo keeper.old (S.core steps.old).view }
    ensures { Steady 2 keeper.new (S.core steps.old) (S.core steps.new) }
{
    if !has_room(keeper, steps) {
        return None;
    }
    let gift = Gift {
        ctrl,
        ana: false,
        state: 1,
        pending: false,
        armed: false,
    };
    Some(keeper.add(steps, gift, at(line)))
}

/// Begins the removal of a controller's path, or answers nothing where memory ran out.
#[tactic(auto, using(crate::proofs::Tabling::steady_all, crate::proofs::Tabling::remove_steady))]
pub(crate) fn remove<S: KeeperSteps>(
    keeper: &mut Keeper,
    steps: &mut S,
    ctrl: Ctrl,
    line: u32,
) -> Option<Result<RowEntry, RemoveError>>
    requires left { 1 ≤ (S.core steps.old).view.left }
    requires closed { (S.core steps.old).view.inside ≡ None }
    requires stands { StandsTo keeper.old (S.core steps.old).view }
    ensures { Steady 1 keeper.new (S.core steps.old) (S.core steps.new) }
{
    if !has_room(keeper, steps) {
        return None;
    }
    Some(keeper.remove(steps, ctrl, at(line)))
}

/// Sets the policy to round robin, or answers nothing where memory ran out.
#[tactic(auto, using(crate::proofs::Keeping::leaves_all, crate::proofs::Keeping::policy_leaves))]
pub(crate) fn go_round<S: KeeperSteps>(
    keeper: &mut Keeper,
    steps: &mut S,
    line: u32,
) -> Option<OrderEntry>
    requires left { 1 ≤ (S.core steps.old).view.left }
    requires closed { (S.core steps.old).view.inside ≡ None }
    requires stands { StandsTo keeper.old (S.core steps.old).view }
    ensures { Leaves 1 keeper.new (S.core steps.old) (S.core steps.new) }
{
    if !has_room(keeper, steps) {
        return None;
    }
    Some(keeper.set_policy(steps, Policy::RoundRobin, at(line)))
}

/// Carries the removals as far as they go, or answers nothing where memory ran out.
#[tactic(auto, using(crate::proofs::Tabling::steady_all, crate::proofs::Tabling::reap_steady))]
pub(crate) fn reap<S: KeeperSteps>(keeper: &mut Keeper, steps: &mut S, line: u32) -> Option<Reaped>
    requires left { 16 ≤ (S.core steps.old).view.left }
    requires closed { (S.core steps.old).view.inside ≡ None }
    requires stands { StandsTo keeper.old (S.core steps.old).view }
    ensures { Steady 16 keeper.new (S.core steps.old) (S.core steps.new) }
{
    if !has_room(keeper, steps) {
        return None;
    }
    Some(keeper.reap(steps, at(line)))
}

/// Submits a request.
fn send(keeper: &Keeper, plain: &mut Plain, request: &mut Request) -> Submitted
    requires left { 1 ≤ (told_core plain.old).view.left }
    requires closed { (told_core plain.old).view.inside ≡ None }
    requires stands { StandsTo keeper.now (told_core plain.old).view }
    requires spare { 1 ≤ request.old.spare }
    requires waiting { outcome_of (last_or None (asked_of request.old).tries) ≡ outcome.Waiting }
    ensures { Sends keeper.now (told_core plain.old) (told_core plain.new) request.new result }
{
    a_keeper_still_stands();
    submit(plain, &NoGate, &one_node(), request)
}

/// Finishes a flight, and says whether its request is done with status 0.
fn is_done(
    keeper: &Keeper,
    plain: &mut Plain,
    flight: Flight,
    request: &mut Request,
    answers: &Answers,
) -> bool
    requires left { 1 ≤ (told_core plain.old).view.left }
    requires closed { (told_core plain.old).view.inside ≡ None }
    requires stands { StandsTo keeper.now (told_core plain.old).view }
    requires flies { has_flight flight (told_core plain.old).view ≡ true }
    requires sent { outcome_of (last_or None (asked_of request.old).tries) ≡ outcome.Sent }
    ensures { result ≡ true → StillStands keeper.now (told_core plain.old) (told_core plain.new) }
{
    a_keeper_still_stands();
    match finish(plain, &NoGate, flight, request, answers) {
        Finished::Done(status) => status == 0,
        Finished::Back(_) => false,
        Finished::Moved(flight, _, _) => {
            plain.end(flight);
            false
        }
    }
}

/// Whether the maker is this line of lane 0.
pub(crate) fn is_at(by: &Maker, line: u32) -> bool {
    match by {
        Maker::Line { lane, line: made } => lane.get() == 0 && *made == line,
        _ => false,
    }
}

/// Whether the list of paths has this version, and these slots alone under round robin or else NUMA.
pub(crate) fn is_list(order: &Order, version: u32, round: bool, slots: &[u32]) -> bool {
    let policy = match order.policy {
        Policy::Numa => !round,
        Policy::RoundRobin => round,
        Policy::QueueDepth => false,
    };
    if order.version != version || !policy || usize::from(order.len) != slots.len() {
        return false;
    }
    for place in 0..8 {
        let slot = if place < slots.len() { slots[place] } else { 0 };
        if order.slots[place].get() != slot {
            return false;
        }
    }
    true
}

/// Whether the list that was stored by a line is this one under round robin.
pub(crate) fn is_round(entry: &OrderEntry, line: u32, version: u32, slots: &[u32]) -> bool {
    is_at(&entry.by, line) && is_list(&entry.order, version, true, slots)
}

/// Whether the policy was set, with this list of paths.
fn went_round(entry: &Option<OrderEntry>, line: u32, version: u32, slots: &[u32]) -> bool {
    match entry {
        Some(entry) => is_round(entry, line, version, slots),
        None => false,
    }
}

/// Whether a path was added in this slot, with this version of its row and this list of paths.
pub(crate) fn was_added(
    end: &Option<Result<Added, AddError>>,
    line: u32,
    slot: u32,
    row: u32,
    version: u32,
    slots: &[u32],
) -> bool {
    match end {
        Some(Ok(added)) => {
            added.row.slot.get() == slot
                && added.row.row.version == row
                && is_at(&added.row.by, line)
                && is_round(&added.order, line, version, slots)
        }
        _ => false,
    }
}

/// Whether no path was added, since the controller has this slot.
fn is_already(end: &Option<Result<Added, AddError>>, slot: u32) -> bool {
    match end {
        Some(Err(AddError::Already(has))) => has.get() == slot,
        _ => false,
    }
}

/// Whether this slot was marked, with this version of its row.
pub(crate) fn was_marked(
    end: &Option<Result<RowEntry, RemoveError>>,
    line: u32,
    slot: u32,
    row: u32,
) -> bool {
    match end {
        Some(Ok(entry)) => {
            entry.slot.get() == slot
                && entry.row.version == row
                && entry.row.marked
                && !entry.row.ready
                && is_at(&entry.by, line)
        }
        _ => false,
    }
}

/// Whether the controller had no path, by this list of paths under round robin.
fn had_no_path(end: &Option<Result<RowEntry, RemoveError>>, version: u32, slots: &[u32]) -> bool {
    match end {
        Some(Err(RemoveError::NoPath(order))) => is_list(order, version, true, slots),
        _ => false,
    }
}

/// Whether this slot was freed, with this version of its row and so many flips so far.
pub(crate) fn was_freed(end: &Option<Reaped>, line: u32, slot: u32, row: u32, flips: u32) -> bool {
    match end {
        Some(Reaped::Freed(entry, turned)) => {
            entry.slot.get() == slot
                && entry.row.version == row
                && entry.row.state == 0
                && is_at(&entry.by, line)
                && *turned == flips
        }
        _ => false,
    }
}

/// Whether no slot was freed, since so many flights are on this slot.
pub(crate) fn flew(end: &Option<Reaped>, slot: u32, depth: u32) -> bool {
    match end {
        Some(Reaped::Again(stopped, Stop::Depth(flights))) => {
            stopped.get() == slot && *flights == depth
        }
        _ => false,
    }
}

/// Whether the entry at a place is a list of paths that a line stored, under round robin or else NUMA.
pub(crate) fn lists_at(
    entries: &[KeepEntry],
    place: usize,
    line: u32,
    version: u32,
    round: bool,
    slots: &[u32],
) -> bool {
    match entries.get(place) {
        Some(KeepEntry::Order(entry)) => {
            is_at(&entry.by, line) && is_list(&entry.order, version, round, slots)
        }
        _ => false,
    }
}

/// Whether the entry at a place is a look of slot 0's removal, marked by version 1, in its first grace period or else its
/// second: the side with its entries, and the version of the list of paths then.
pub(crate) fn closes_at(
    entries: &[KeepEntry],
    place: usize,
    line: u32,
    first: bool,
    side: u8,
    sections: u32,
    order: u32,
) -> bool {
    match entries.get(place) {
        Some(KeepEntry::Closing(closing)) => {
            let grace = match closing.grace {
                Grace::A => first,
                Grace::B => !first,
            };
            grace
                && closing.slot.get() == 0
                && closing.side == side
                && closing.entries == sections
                && closing.order == order
                && closing.mark == 1
                && is_at(&closing.by, line)
        }
        _ => false,
    }
}

#[test]
fn a_path_is_added_removed_and_freed(rt: HostRuntime) -> Result<(), Fail> {
    let alloc = rt.alloc();
    let mut plain = Plain::make(alloc, &two_paths(), 100)?;
    let mut keeper = keeper_of(alloc, &plain);
    let (first, third) = (Ctrl::make(0).unwrap(), Ctrl::make(2).unwrap());
    let set = go_round(&mut keeper, &mut plain, 1);
    assert!(rt; went_round(&set, 1, 1, &[0, 1]));
    assert_eq!(rt; plain.words().order, 0xFFFF_FF10_4000_0001);
    let added = add(&mut keeper, &mut plain, third, 2);
    assert!(rt; was_added(&added, 2, 2, 1, 2, &[0, 1, 2]));
    assert_eq!(rt; plain.words().rows[2], 0x0000_4242_0000_0001);
    assert_eq!(rt; plain.words().order, 0xFFFF_F210_4000_0002);
    let again = add(&mut keeper, &mut plain, third, 3);
    assert!(rt; is_already(&again, 2));
    let marked = remove(&mut keeper, &mut plain, first, 4);
    assert!(rt; was_marked(&marked, 4, 0, 1));
    assert_eq!(rt; plain.words().rows[0], 0x0001_0240_0000_0001);
    let none = remove(&mut keeper, &mut plain, first, 5);
    assert!(rt; had_no_path(&none, 2, &[0, 1, 2]));
    assert_eq!(rt; plain.words().order, 0xFFFF_F210_4000_0002);
    assert!(rt; keeper.reaping());
    let freed = reap(&mut keeper, &mut plain, 6);
    assert!(rt; was_freed(&freed, 6, 0, 2, 2));
    assert!(rt; !keeper.reaping());
    assert_eq!(rt; plain.words().index, 0);
    assert_eq!(rt; plain.words().rows[0], 2);
    assert_eq!(rt; plain.words().order, 0xFFFF_FF21_4000_0003);
    let idle = reap(&mut keeper, &mut plain, 7);
    assert!(rt; matches!(idle, Some(Reaped::Idle)));
    let back = add(&mut keeper, &mut plain, first, 8);
    assert!(rt; was_added(&back, 8, 0, 3, 4, &[1, 2, 0]));
    assert_eq!(rt; plain.words().rows[0], 0x0000_4240_0000_0003);
    assert_eq!(rt; plain.words().rows[1], 0x0000_4241_0000_0000);
    assert_eq!(rt; plain.words().order, 0xFFFF_F021_4000_0004);
    let made = keeper.entries();
    assert_eq!(rt; made.len(), 8);
    assert!(rt; lists_at(made, 0, 1, 1, true, &[0, 1]));
    assert!(rt; lists_at(made, 1, 2, 2, true, &[0, 1, 2]));
    assert!(rt; closes_at(made, 2, 6, true, 1, 0, 2));
    assert!(rt; closes_at(made, 3, 6, true, 0, 0, 2));
    assert!(rt; lists_at(made, 4, 6, 3, true, &[1, 2]));
    assert!(rt; closes_at(made, 5, 6, false, 0, 0, 3));
    assert!(rt; closes_at(made, 6, 6, false, 1, 0, 3));
    assert!(rt; lists_at(made, 7, 8, 4, true, &[1, 2, 0]));
    Ok(())
}

#[test]
fn a_flight_keeps_a_slot(rt: HostRuntime) -> Result<(), Fail> {
    let alloc = rt.alloc();
    let mut plain = Plain::make(alloc, &two_paths(), 100)?;
    let mut keeper = keeper_of(alloc, &plain);
    let first = Ctrl::make(0).unwrap();
    let answers = Answers::make(alloc);
    let mut request = Request::make(alloc, ReqId::make(7).unwrap(), Node::make(0).unwrap());
    request.reserve()?;
    match send(&keeper, &mut plain, &mut request) {
        Submitted::Sent(flight) => {
            assert_eq!(rt; flight.slot.get(), 0);
            assert_eq!(rt; plain.words().depths[0], 1);
            let marked = remove(&mut keeper, &mut plain, first, 1);
            assert!(rt; was_marked(&marked, 1, 0, 1));
            let again = reap(&mut keeper, &mut plain, 2);
            assert!(rt; flew(&again, 0, 1));
            assert!(rt; keeper.reaping());
            assert_eq!(rt; plain.words().rows[0], 0x0001_0240_0000_0001);
            assert_eq!(rt; plain.words().order, 0xFFFF_FFF1_0000_0001);
            if is_done(&keeper, &mut plain, flight, &mut request, &answers) {
                assert_eq!(rt; plain.words().depths[0], 0);
                let freed = reap(&mut keeper, &mut plain, 3);
                assert!(rt; was_freed(&freed, 3, 0, 2, 2));
                assert!(rt; !keeper.reaping());
                assert_eq!(rt; plain.words().rows[0], 2);
            } else {
                assert!(rt; false);
            }
        }
        Submitted::Listed => assert!(rt; false),
        Submitted::Failed => assert!(rt; false),
    }
    let made = keeper.entries();
    assert_eq!(rt; made.len(), 5);
    assert!(rt; closes_at(made, 0, 2, true, 1, 0, 0));
    assert!(rt; closes_at(made, 1, 2, true, 0, 1, 0));
    assert!(rt; lists_at(made, 2, 2, 1, false, &[1]));
    assert!(rt; closes_at(made, 3, 2, false, 0, 1, 1));
    assert!(rt; closes_at(made, 4, 2, false, 1, 0, 1));
    Ok(())
}
