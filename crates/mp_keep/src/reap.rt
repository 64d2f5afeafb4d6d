//! Removals are carried as far as they go.

ghost use Rattle.std.specs.Prelude.{◌≡◌, ◌≤◌, ◌<◌, None, length};
ghost use Rattle.mp_words.specs.Facts.{IsOrder};
ghost use Rattle.mp_core.specs.Kinds.{IsNext, status_at};
ghost use Rattle.mp_core.specs.Status.{bare};
ghost use Rattle.mp_change.specs.Clears.{cleared_upto};
ghost use Rattle.mp_keep.specs.declared.stage.Stage.TheVariants as at;
ghost use Rattle.mp_keep.specs.Keeper.{StandsTo, removal_at, is_past};
ghost use Rattle.mp_keep.specs.Keeps.{with_order};
ghost use Rattle.mp_keep.specs.Walks.{AtPlace, MayWalk, LooksOnce, Walks, Reaps, FreesRow, next_side, next_grace, next_stage, first_of, ended_by, entry_without, closed_keeper, closed_core, unlisted_core};

use crate::clear::clear_slot;
use crate::deep::Deep;
use crate::keep::{keep, made_by, store};
use crate::keeper::Keeper;
use crate::orders::without_slot;
use crate::reaped::Reaped;
use crate::removal::Removal;
use crate::stage::Stage;
use crate::stop::Stop;
use mp_core::steps::KeeperSteps;
use mp_words::entry::{Closing, Grace, RowEntry};
use mp_words::numbers::Slot;
use mp_words::op::{Maker, Op};

impl Keeper {
    /// Carries the removals under way as far as they go, the oldest first, and frees at most one slot. For each it
    /// makes sure that every section from before its mark has ended (grace period A), clears the current words of the
    /// slot and takes it from the list, makes sure that every section from before that has ended (grace period B), and
    /// frees the slot where no flight is on it. No section is open, at least 16 units are left, and there is room for
    /// 80 entries. It takes no memory.
    ///
    /// - `Idle` comes exactly where no removal is under way.
    /// - `Again` with a section comes where somebody is inside a side, with a depth where every removal is past its
    ///   grace periods and has flights. The number isn't 0. Where no lane is out and its own pass has no flight,
    ///   neither comes.
    pub fn reap<S: KeeperSteps>(&mut self, steps: &mut S, by: Maker) -> Reaped
        requires left { 16 ≤ (S.core steps.old).view.left }
        requires closed { (S.core steps.old).view.inside ≡ None }
        requires spare { 80 ≤ self.old.spare }
        requires stands { StandsTo self.old (S.core steps.old).view }
        ensures { Reaps self.old self.new (S.core steps.old) (S.core steps.new) by result }
    {
        self.walk(steps, 0, None, &by)
    }

    /// Walks over the removals from a place on.
    fn walk<S: KeeperSteps>(
        &mut self,
        steps: &mut S,
        place: usize,
        first: Option<Deep>,
        by: &Maker,
    ) -> Reaped
        requires may { MayWalk self.old (S.core steps.old).view place }
        requires stands { StandsTo self.old (S.core steps.old).view }
        ensures { Walks self.old self.new (S.core steps.old) (S.core steps.new) by.now place first result }
    {
        if place >= self.removals() {
            return ended_by(&first);
        }
        let removal = self.removal(place);
        if is_past(&removal.stage) {
            let depth = steps.keeper_depth(removal.slot);
            if depth == 0 {
                let flips = self.flips();
                return Reaped::Freed(self.free(steps, place, removal.slot, by), flips);
            }
            return self.walk(
                steps,
                place + 1,
                Some(first_of(&first, removal.slot, depth)),
                by,
            );
        }
        let inside = self.look(steps, place, by);
        if inside > 0 {
            return stopped(&removal, inside);
        }
        self.walk(steps, place, first, by)
    }

    /// Looks at the side at which the removal at a place looks next, and says how many are inside. Where nobody is, that
    /// is a closing, and the removal goes on to its next stage.
    fn look<S: KeeperSteps>(&mut self, steps: &mut S, place: usize, by: &Maker) -> u32
        requires left { 1 ≤ (S.core steps.old).view.left }
        requires spare { 2 ≤ self.old.spare }
        requires at { AtPlace self.old place }
        requires stands { StandsTo self.old (S.core steps.old).view }
        ensures { LooksOnce self.old self.new (S.core steps.old) (S.core steps.new) by.now place result }
    {
        let removal = self.removal(place);
        let version = self.list().version;
        let found = steps.scan(next_side(&removal.stage));
        if found.inside == 0 {
            self.close_at(steps, place, &removal, found.entries, version, by);
        }
        found.inside
    }

    /// Notes a closing of the removal at a place, and does what follows: behind the first closing of a grace period it
    /// flips, and behind the second of A it takes the slot from the list.
    fn close_at<S: KeeperSteps>(
        &mut self,
        steps: &mut S,
        place: usize,
        removal: &Removal,
        entries: u32,
        version: u32,
        by: &Maker,
    )
        requires left { 1 ≤ (S.core steps.old).view.left }
        requires spare { 2 ≤ self.old.spare }
        requires within { place < length self.old.removals }
        requires removal { removal.now ≡ removal_at self.old place }
        requires version { version ≡ self.old.order.version }
        requires flips { self.old.flips < 4294967295 }
        requires below { self.old.order.version < 4294967295 }
        requires lawful { IsOrder self.old.order }
        requires next { removal.now.stage ≡ at.HalfA → IsNext (cleared_upto removal.now.slot 8 (S.core steps.old).view) (entry_without self.old removal.now.slot by.now).order }
        ensures keeper { self.new ≡ closed_keeper by.now place entries self.old }
        ensures core { S.core steps.new ≡ closed_core by.now place self.old (S.core steps.old) }
    {
        self.close(closing_of(removal, entries, version, by));
        self.reach(place, next_stage(&removal.stage));
        match removal.stage {
            Stage::Marked | Stage::Unlisted => {
                steps.flip();
                self.turn();
            }
            Stage::HalfA => self.unlist(steps, removal.slot, by),
            Stage::HalfB | Stage::Past => (),
        }
    }

    /// Clears the current words of a slot, and takes it from the list.
    fn unlist<S: KeeperSteps>(&mut self, steps: &mut S, slot: Slot, by: &Maker)
        requires left { 1 ≤ (S.core steps.old).view.left }
        requires spare { 1 ≤ self.old.spare }
        requires below { self.old.order.version < 4294967295 }
        requires lawful { IsOrder self.old.order }
        requires next { IsNext (cleared_upto slot 8 (S.core steps.old).view) (entry_without self.old slot by.now).order }
        ensures keeper { self.new ≡ with_order (entry_without self.old slot by.now) self.old }
        ensures core { S.core steps.new ≡ unlisted_core slot (entry_without self.old slot by.now) (S.core steps.old) }
    {
        clear_slot(steps, slot);
        let order = self.list();
        let order = without_slot(&order, slot);
        let entry = made_by(&order, by);
        store(steps, &entry);
        self.take_order(&entry);
    }

    /// Frees the slot of the removal at a place, whose depth was just read as 0.
    fn free<S: KeeperSteps>(
        &mut self,
        steps: &mut S,
        place: usize,
        slot: Slot,
        by: &Maker,
    ) -> RowEntry
        requires left { 1 ≤ (S.core steps.old).view.left }
        requires within { place < length self.old.removals }
        requires slot { slot ≡ (removal_at self.old place).slot }
        requires sized { length self.old.owners ≡ 15 }
        requires bare { status_at slot (S.core steps.old).view ≡ bare }
        ensures { FreesRow self.old self.new (S.core steps.old) (S.core steps.new) by.now place result }
    {
        let entry = keep(steps, slot, Op::Free, by);
        self.own(slot, None);
        self.end(place);
        entry
    }
}

/// The closing that a removal's next look at a side is.
fn closing_of(removal: &Removal, entries: u32, order: u32, by: &Maker) -> Closing
    ensures { result ≡ record { slot = removal.now.slot; grace = next_grace removal.now.stage; side = next_side removal.now.stage; entries = entries; order = order; mark = removal.now.mark; by = by.now } }
{
    Closing {
        slot: removal.slot,
        grace: next_grace(&removal.stage),
        side: next_side(&removal.stage),
        entries,
        order,
        mark: removal.mark,
        by: *by,
    }
}

/// Whether both grace periods are over.
fn is_past(stage: &Stage) -> bool
    ensures { result ≡ is_past stage.now }
{
    match stage {
        Stage::Marked | Stage::HalfA | Stage::Unlisted | Stage::HalfB => false,
        Stage::Past => true,
    }
}

/// The side of a removal's next look.
fn next_side(stage: &Stage) -> u8
    ensures side { result ≡ next_side stage.now }
    ensures below { result < 2 }
{
    match stage {
        Stage::Marked | Stage::HalfB => 1,
        Stage::HalfA | Stage::Unlisted | Stage::Past => 0,
    }
}

/// The grace period of a removal's next look.
fn next_grace(stage: &Stage) -> Grace
    ensures { result ≡ next_grace stage.now }
{
    match stage {
        Stage::Marked | Stage::HalfA => Grace::A,
        Stage::Unlisted | Stage::HalfB | Stage::Past => Grace::B,
    }
}

/// The stage after a removal's next closing.
fn next_stage(stage: &Stage) -> Stage
    ensures { result ≡ next_stage stage.now }
{
    match stage {
        Stage::Marked => Stage::HalfA,
        Stage::HalfA => Stage::Unlisted,
        Stage::Unlisted => Stage::HalfB,
        Stage::HalfB | Stage::Past => Stage::Past,
    }
}

/// The first depth that wasn't 0.
fn first_of(first: &Option<Deep>, slot: Slot, depth: u32) -> Deep
    ensures { result ≡ first_of first.now slot depth }
{
    match first {
        None => Deep { slot, depth },
        Some(deep) => *deep,
    }
}

/// The answer of a walk that has come to its end.
fn ended_by(first: &Option<Deep>) -> Reaped
    ensures { result ≡ ended_by first.now }
{
    match first {
        None => Reaped::Idle,
        Some(deep) => Reaped::Again(deep.slot, Stop::Depth(deep.depth)),
    }
}

/// The answer of a walk that met somebody inside a side.
fn stopped(removal: &Removal, inside: u32) -> Reaped
    ensures { result ≡ Reaped.Again removal.now.slot (Stop.Section (next_grace removal.now.stage) (next_side removal.now.stage) inside) }
{
    Reaped::Again(
        removal.slot,
        Stop::Section {
            grace: next_grace(&removal.stage),
            side: next_side(&removal.stage),
            inside,
        },
    )
}
