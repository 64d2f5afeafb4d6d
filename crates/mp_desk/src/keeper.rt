//! The keeper's calls at a desk.

ghost use Rattle.std.specs.Prelude.{◌≡◌, ◌≤◌, ◌∷◌, [], List, OnOk, map};
ghost use Rattle.mp_words.specs.Effect.{IsState};
ghost use Rattle.mp_words.specs.declared.answers.Answer.{Answer};
ghost use Rattle.mp_words.specs.declared.near.Near.{Near};
ghost use Rattle.mp_record.specs.declared.event.Event.TheVariants as event;
ghost use Rattle.mp_keep.specs.Keeper.{StandsTo};
ghost use Rattle.mp_keep.specs.Walks as walk;
ghost use Rattle.mp_desk.specs.Calls.{add, reap, remove, set_policy, Sits};
ghost use Rattle.mp_desk.specs.DeskView.{entering, noting, unended};
ghost use Rattle.mp_desk.specs.Desks.{desk_of, stand, HasRoom, KeeperBreaks, KeeperDoes, KeeperLeaves};
ghost use Rattle.mp_desk.specs.Says.{added_said, entry_added, entry_marked, is_begun, marked_said, reaped_said};

use crate::desk::Desk;
use crate::full::Full;
use crate::halt::Halt;
use crate::pay::can_pay;
use mp_core::steps::KeeperSteps;
use mp_keep::add_error::AddError;
use mp_keep::added::Added;
use mp_keep::keeper::Keeper;
use mp_keep::reaped::Reaped;
use mp_keep::remove_error::RemoveError;
use mp_keep::stop::Stop;
use mp_record::event::Said;
use mp_words::entry::RowEntry;
use mp_words::numbers::Ctrl;
use mp_words::op::{Gift, Maker};
use mp_words::row::Policy;

impl Desk {
    /// Adds a path by a line, and notes what came of it. It needs two units. The pass sits at this desk, and the keeper
    /// stands to its steps.
    ///
    /// # Errors
    ///
    /// `Spent` where fewer units are left. `NoMemory` where memory runs out, before any step.
    pub fn add<S: KeeperSteps>(
        &mut self,
        steps: &mut S,
        keeper: &mut Keeper,
        line: u32,
        gift: Gift,
    ) -> Result<(), Halt>
        requires sits { Sits (S.core steps.old) (desk_of self.old) }
        requires stands { StandsTo keeper.old (S.core steps.old).view }
        requires state { IsState gift.state }
        ensures does { (near : Near) (answers : List Answer) → KeeperDoes result (record { near = near; answers = answers; line = line }) (add gift) (stand (S.core steps.old) (desk_of self.old) keeper.old) (stand (S.core steps.new) (desk_of self.new) keeper.new) }
        ensures breaks { (near : Near) (answers : List Answer) → KeeperBreaks result (record { near = near; answers = answers; line = line }) (add gift) (stand (S.core steps.old) (desk_of self.old) keeper.old) (stand (S.core steps.new) (desk_of self.new) keeper.new) }
        ensures leaves { KeeperLeaves (S.core steps.old) (S.core steps.new) (desk_of self.new) keeper.new }
        ensures weight { unended (desk_of self.new) ≤ unended (desk_of self.old) }
    {
        if !can_pay(steps, 2) {
            return Err(Halt::Spent);
        }
        if self.reserve_with(keeper).is_err() {
            return Err(Halt::NoMemory);
        }
        let by = Maker::Line {
            lane: steps.lane(),
            line,
        };
        let answer = keeper.add(steps, gift, by);
        self.note_added(line, &answer);
        Ok(())
    }

    /// Begins the removal of a controller's path by a line, and notes what came of it. It needs a unit, and one more for
    /// each time that another change of the row comes between. The pass sits at this desk, and the keeper stands to its
    /// steps.
    ///
    /// # Errors
    ///
    /// `Spent` where no unit is left. `NoMemory` where memory runs out, before the step.
    pub fn remove<S: KeeperSteps>(
        &mut self,
        steps: &mut S,
        keeper: &mut Keeper,
        line: u32,
        ctrl: Ctrl,
    ) -> Result<(), Halt>
        requires sits { Sits (S.core steps.old) (desk_of self.old) }
        requires stands { StandsTo keeper.old (S.core steps.old).view }
        ensures does { (near : Near) (answers : List Answer) → KeeperDoes result (record { near = near; answers = answers; line = line }) (remove ctrl) (stand (S.core steps.old) (desk_of self.old) keeper.old) (stand (S.core steps.new) (desk_of self.new) keeper.new) }
        ensures breaks { (near : Near) (answers : List Answer) → KeeperBreaks result (record { near = near; answers = answers; line = line }) (remove ctrl) (stand (S.core steps.old) (desk_of self.old) keeper.old) (stand (S.core steps.new) (desk_of self.new) keeper.new) }
        ensures leaves { KeeperLeaves (S.core steps.old) (S.core steps.new) (desk_of self.new) keeper.new }
        ensures weight { unended (desk_of self.new) ≤ unended (desk_of self.old) }
    {
        for _ in 0..steps.left() {
            if self.reserve_with(keeper).is_err() {
                return Err(Halt::NoMemory);
            }
            let by = Maker::Line {
                lane: steps.lane(),
                line,
            };
            let answer = keeper.remove(steps, ctrl, by);
            if self.note_marked(line, &answer) {
                return Ok(());
            }
        }
        Err(Halt::Spent)
    }

    /// Sets the policy by a line, and notes it. It needs a unit. The pass sits at this desk, and the keeper stands to its
    /// steps.
    ///
    /// # Errors
    ///
    /// `Spent` where no unit is left. `NoMemory` where memory runs out, before the step.
    pub fn set_policy<S: KeeperSteps>(
        &mut self,
        steps: &mut S,
        keeper: &mut Keeper,
        line: u32,
        policy: Policy,
    ) -> Result<(), Halt>
        requires sits { Sits (S.core steps.old) (desk_of self.old) }
        requires stands { StandsTo keeper.old (S.core steps.old).view }
        ensures does { (near : Near) (answers : List Answer) → KeeperDoes result (record { near = near; answers = answers; line = line }) (set_policy policy) (stand (S.core steps.old) (desk_of self.old) keeper.old) (stand (S.core steps.new) (desk_of self.new) keeper.new) }
        ensures breaks { (near : Near) (answers : List Answer) → KeeperBreaks result (record { near = near; answers = answers; line = line }) (set_policy policy) (stand (S.core steps.old) (desk_of self.old) keeper.old) (stand (S.core steps.new) (desk_of self.new) keeper.new) }
        ensures leaves { KeeperLeaves (S.core steps.old) (S.core steps.new) (desk_of self.new) keeper.new }
        ensures weight { unended (desk_of self.new) ≤ unended (desk_of self.old) }
    {
        if !can_pay(steps, 1) {
            return Err(Halt::Spent);
        }
        if self.reserve_with(keeper).is_err() {
            return Err(Halt::NoMemory);
        }
        let by = Maker::Line {
            lane: steps.lane(),
            line,
        };
        let entry = keeper.set_policy(steps, policy, by);
        let said = Said::Policy(entry.order.version);
        self.notes.push_said(line, said);
        Ok(())
    }

    /// Carries the removals as far as they go by a line, and notes what came of it. It needs sixteen units. The pass sits
    /// at this desk, and the keeper stands to its steps.
    ///
    /// # Errors
    ///
    /// `Spent` where fewer units are left. `NoMemory` where memory runs out, before any step.
    pub fn reap<S: KeeperSteps>(
        &mut self,
        steps: &mut S,
        keeper: &mut Keeper,
        line: u32,
    ) -> Result<(), Halt>
        requires sits { Sits (S.core steps.old) (desk_of self.old) }
        requires stands { StandsTo keeper.old (S.core steps.old).view }
        ensures does { (near : Near) (answers : List Answer) → KeeperDoes result (record { near = near; answers = answers; line = line }) reap (stand (S.core steps.old) (desk_of self.old) keeper.old) (stand (S.core steps.new) (desk_of self.new) keeper.new) }
        ensures breaks { (near : Near) (answers : List Answer) → KeeperBreaks result (record { near = near; answers = answers; line = line }) reap (stand (S.core steps.old) (desk_of self.old) keeper.old) (stand (S.core steps.new) (desk_of self.new) keeper.new) }
        ensures leaves { KeeperLeaves (S.core steps.old) (S.core steps.new) (desk_of self.new) keeper.new }
        ensures weight { unended (desk_of self.new) ≤ unended (desk_of self.old) }
    {
        if !can_pay(steps, 16) {
            return Err(Halt::Spent);
        }
        if self.reserve_with(keeper).is_err() {
            return Err(Halt::NoMemory);
        }
        let by = Maker::Line {
            lane: steps.lane(),
            line,
        };
        let answer = keeper.reap(steps, by);
        self.note_reaped(line, &answer);
        Ok(())
    }

    /// Makes room for what one call of the keeper's adds.
    fn reserve_with(&mut self, keeper: &mut Keeper) -> Result<(), Full>
        ensures room { OnOk result (HasRoom self.new) }
        ensures spare { OnOk result (80 ≤ keeper.new.spare) }
        ensures desk { desk_of self.new ≡ desk_of self.old }
        ensures keeper { keeper.new ≡ record (keeper.old) { spare = keeper.new.spare } }
    {
        self.reserve()?;
        keeper.reserve().map_err(|_| Full::NoMemory)
    }

    /// Notes how an add ended.
    fn note_added(&mut self, line: u32, answer: &Result<Added, AddError>)
        requires { HasRoom self.old }
        ensures { desk_of self.new ≡ entering (entry_added answer.now) (noting (event.At line (added_said answer.now) ∷ []) (desk_of self.old)) }
    {
        let said = added_said(answer);
        self.notes.push_said(line, said);
        if let Ok(added) = answer {
            self.rows.push(added.row);
        }
    }

    /// Notes how the begin of a removal ended. Answers whether it did.
    fn note_marked(&mut self, line: u32, answer: &Result<RowEntry, RemoveError>) -> bool
        requires { HasRoom self.old }
        ensures desk { desk_of self.new ≡ entering (entry_marked answer.now) (noting (map (event.At line) (marked_said answer.now)) (desk_of self.old)) }
        ensures over { result ≡ is_begun answer.now }
    {
        match answer {
            Ok(entry) => {
                let said = Said::Marked(entry.slot, entry.row.version);
                self.notes.push_said(line, said);
                self.rows.push(*entry);
                true
            }
            Err(RemoveError::NoPath(order)) => {
                let said = Said::NoPath(order.version);
                self.notes.push_said(line, said);
                true
            }
            Err(RemoveError::Moved(_)) => false,
        }
    }

    /// Notes how a reap ended.
    fn note_reaped(&mut self, line: u32, answer: &Reaped)
        requires { HasRoom self.old }
        ensures { desk_of self.new ≡ entering (walk.entries_of answer.now) (noting (event.At line (reaped_said answer.now) ∷ []) (desk_of self.old)) }
    {
        let said = reaped_said(answer);
        self.notes.push_said(line, said);
        if let Reaped::Freed(entry, _) = answer {
            self.rows.push(*entry);
        }
    }
}

/// What a line says of how its add ended.
fn added_said(answer: &Result<Added, AddError>) -> Said
    ensures { result ≡ added_said answer.now }
{
    match answer {
        Ok(added) => Said::Added(
            added.row.slot,
            added.row.row.version,
            added.order.order.version,
        ),
        Err(AddError::Already(slot)) => Said::Already(*slot),
        Err(AddError::NoSlot) => Said::NoSlot,
        Err(AddError::OrderFull) => Said::OrderFull,
    }
}

/// What a line says of how its reap ended.
fn reaped_said(answer: &Reaped) -> Said
    ensures { result ≡ reaped_said answer.now }
{
    match answer {
        Reaped::Idle => Said::Idle,
        Reaped::Freed(entry, flips) => Said::Freed(entry.slot, entry.row.version, *flips),
        Reaped::Again(slot, stop) => match stop {
            Stop::Section {
                grace,
                side,
                inside,
            } => Said::AgainSection(*slot, *grace, *side, *inside),
            Stop::Depth(depth) => Said::AgainDepth(*slot, *depth),
        },
    }
}
