//! A lane.

ghost use Rattle.std.specs.Prelude.{◌≡◌, ◌≤◌, ◌+◌, ◌∷◌, [], List, true, false, filter, length, count_by, IfOk, OnErr};
ghost use Rattle.std.specs.List.{AllByRecursion};
ghost use Rattle.mp_desk.specs.Calls.{EndsAll, IsWaiting, Sits};
ghost use Rattle.mp_desk.specs.Desks.{stand, KeepsStand, Leaves};
ghost use Rattle.mp_desk.specs.DeskView.{unended};
ghost use Rattle.mp_desk.specs.Gains.{Gains, UsesSections};
ghost use Rattle.mp_desk.specs.Noted.{kept_of};
ghost use Rattle.mp_keep.specs.Keeper.{KeeperView, StandsTo};
ghost use Rattle.mp_record.specs.RunView.{is_plain};
ghost use Rattle.mp_script.specs.declared.script.Numbered1.{Numbered1};
ghost use Rattle.mp_lane.specs.Lines.{reads_of};
ghost use Rattle.mp_lane.specs.Steps.{behind, has_line, line_of, start_at, HasNoKeeperLine, IsBroken, IsToStep, MayRead, Runs, RunsBeside, Settles, StepTo};
ghost use Rattle.mp_lane.specs.LaneView.{next_submits, submits, wants_next, wants_of, weight_of};

use crate::error::LaneError;
use crate::keeper_lines::run_keeper_line;
use crate::lines::{finish_line, run_line};
use crate::stepped::Stepped;
use crate::wants::Wants;
use mp_core::gate::Gate;
use mp_core::steps::{KeeperSteps, Steps};
use mp_desk::desk::Desk;
use mp_desk::halt::Halt;
use mp_desk::laws::{a_lanes_calls_use_a_unit_for_each_section, calls_note_what_the_pass_gains};
use mp_desk::noted::Noted;
use mp_desk::roomy::Roomy;
use mp_keep::keeper::Keeper;
use mp_record::notes::LaneNotes;
use mp_script::script::{LanePlan, Line, World};
use mp_words::answers::Answers;
use mp_words::entry::RowEntry;
use mp_words::numbers::LaneId;
use mp_words::request::Request;
use std::alloc::Global;
use std::marker::Model;
use std::mem;

/// A lane of a script: its plan, as far as it was run, the list that it was given, and its desk.
#[derive(Drop)]
pub struct Lane {
    alloc: Global,
    id: LaneId,
    plan: LanePlan,
    next: usize,
    list: Vec<Request>,
    listed: bool,
    over: bool,
    desk: Desk,
}

impl Model for Lane {
    ghost use Rattle.std.specs.Prelude.{◌≡◌, drop, false, []};
    ghost use Rattle.std.specs.List.{AllByRecursion};
    ghost use Rattle.mp_desk.specs.Calls.{IsWaiting};
    ghost use Rattle.mp_desk.specs.Desks.{desk_of};
    ghost use Rattle.mp_lane.specs.LaneView.{LaneView};

    ghost Value = { LaneView };

    ghost view = { λ l. record { id = l.id; keeper = l.plan.keeper; rest = drop l.next l.plan.lines; list = l.list.items; listed = l.listed; over = l.over; desk = desk_of l.desk } };

    ghost invariant = { λ l. AllByRecursion IsWaiting l.list.items × AllByRecursion IsWaiting l.desk.out.items × (l.listed ≡ false → l.list.items ≡ []) };
}

impl Lane {
    /// A lane that has run nothing yet. It takes no memory.
    pub fn make(alloc: Global, id: LaneId, plan: LanePlan) -> Lane
        ensures lane { result ≡ record { id = id; keeper = plan.keeper; rest = plan.lines; list = []; listed = false; over = false; desk = record { flying = []; out = []; ended = []; events = []; rows = []; keeps = true } } }
        ensures weight { weight_of result ≡ count_by (λ l. submits l.line) plan.lines }
    {
        Lane::beginning(alloc, id, plan, true)
    }

    /// A lane that has run nothing yet, and keeps no section that it notes. It takes no memory.
    pub fn make_plain(alloc: Global, id: LaneId, plan: LanePlan) -> Lane
        ensures lane { result ≡ record { id = id; keeper = plan.keeper; rest = plan.lines; list = []; listed = false; over = false; desk = record { flying = []; out = []; ended = []; events = []; rows = []; keeps = false } } }
        ensures weight { weight_of result ≡ count_by (λ l. submits l.line) plan.lines }
    {
        Lane::beginning(alloc, id, plan, false)
    }

    /// A lane that has run nothing yet, and keeps the sections that it notes, or doesn't.
    fn beginning(alloc: Global, id: LaneId, plan: LanePlan, keeps: bool) -> Lane
        ensures lane { result ≡ record { id = id; keeper = plan.keeper; rest = plan.lines; list = []; listed = false; over = false; desk = record { flying = []; out = []; ended = []; events = []; rows = []; keeps = keeps } } }
        ensures weight { weight_of result ≡ count_by (λ l. submits l.line) plan.lines }
    {
        Lane {
            alloc,
            id,
            plan,
            next: 0,
            list: Vec::new(alloc),
            listed: false,
            over: false,
            desk: Desk::make(alloc, keeps),
        }
    }

    /// What the lane wants next.
    pub fn wants(&self) -> Wants
        ensures { result ≡ wants_of self.now }
    {
        if self.over {
            return Wants::Nothing;
        }
        match self.plan.lines.as_slice().get(self.next) {
            None => Wants::End,
            Some(numbered) => wants_for(&numbered.line, self.listed),
        }
    }

    /// Hands the list to a lane that wants it. It then wants its line.
    pub fn give(&mut self, taken: Vec<Request>)
        requires wants { wants_of self.old ≡ Wants.List }
        requires waiting { AllByRecursion IsWaiting taken.items }
        ensures lane { self.new ≡ record (self.old) { list = taken.items; listed = true } }
        ensures wants { wants_of self.new ≡ Wants.Line }
        ensures weight { weight_of self.new ≡ weight_of self.old + length taken.items }
    {
        self.list = taken;
        self.listed = true;
    }

    /// Runs the next line, or the lane's end. The lane wants a line or its end, and isn't the keeper's; the pass has its
    /// number and its flights; each page that it names has at most 65,536 bytes.
    ///
    /// What it appends to the notes is what the pass gained: its sections, in order, each of which took a unit, and so are
    /// the entries of rows. `Spent` comes exactly where fewer units are left than the next call needs. Then, and after a
    /// refusal, every flight is ended, no section is open, and the lane wants nothing. No step raises the lane's weight.
    /// Where memory runs out the calls before are done, and of the one that breaks off the tries that met another change of
    /// the row, and none else.
    ///
    /// # Errors
    ///
    /// `NoMemory` where memory runs out.
    pub fn step<S: Steps, G: Gate>(
        &mut self,
        steps: &mut S,
        gate: &G,
        world: &World,
        answers: &Answers,
    ) -> Result<Stepped, LaneError>
        requires wants { IsToStep (wants_of self.old) }
        requires lane { (S.core steps.old).lane ≡ self.old.id }
        requires sits { Sits (S.core steps.old) self.old.desk }
        requires plan { HasNoKeeperLine self.old.rest }
        requires pages { MayRead world.now.pages self.old.rest }
        ensures does { (k : KeeperView) → StepTo result (reads_of world.now answers.now) self.old self.new (stand (S.core steps.old) self.old.desk k) (stand (S.core steps.new) self.new.desk k) }
        ensures leaves { Leaves (S.core steps.old) (S.core steps.new) self.new.desk }
        ensures breaks { (k : KeeperView) → OnErr result (IsBroken (reads_of world.now answers.now) self.old self.new (stand (S.core steps.old) self.old.desk k) (stand (S.core steps.new) self.new.desk k)) }
        ensures gains { (k : KeeperView) → Gains (stand (S.core steps.old) self.old.desk k) (stand (S.core steps.new) self.new.desk k) }
        ensures uses { (k : KeeperView) → UsesSections (stand (S.core steps.old) self.old.desk k) (stand (S.core steps.new) self.new.desk k) }
        ensures stands { KeepsStand (S.core steps.old) (S.core steps.new) }
        ensures weight { weight_of self.new ≤ weight_of self.old }
    {
        calls_note_what_the_pass_gains();
        a_lanes_calls_use_a_unit_for_each_section();
        let ran = self.run(steps, gate, world, answers);
        self.settle(steps, ran)
    }

    /// The same for the keeper's lane, where the keeper stands to the steps. However the step ends, it stands to them then.
    ///
    /// # Errors
    ///
    /// `NoMemory` where memory runs out.
    pub fn step_keeper<S: KeeperSteps, G: Gate>(
        &mut self,
        steps: &mut S,
        gate: &G,
        world: &World,
        answers: &Answers,
        keeper: &mut Keeper,
    ) -> Result<Stepped, LaneError>
        requires wants { IsToStep (wants_of self.old) }
        requires lane { (S.core steps.old).lane ≡ self.old.id }
        requires sits { Sits (S.core steps.old) self.old.desk }
        requires pages { MayRead world.now.pages self.old.rest }
        requires stands { StandsTo keeper.old (S.core steps.old).view }
        ensures does { StepTo result (reads_of world.now answers.now) self.old self.new (stand (S.core steps.old) self.old.desk keeper.old) (stand (S.core steps.new) self.new.desk keeper.new) }
        ensures leaves { Leaves (S.core steps.old) (S.core steps.new) self.new.desk }
        ensures stands { StandsTo keeper.new (S.core steps.new).view }
        ensures breaks { OnErr result (IsBroken (reads_of world.now answers.now) self.old self.new (stand (S.core steps.old) self.old.desk keeper.old) (stand (S.core steps.new) self.new.desk keeper.new)) }
        ensures gains { Gains (stand (S.core steps.old) self.old.desk keeper.old) (stand (S.core steps.new) self.new.desk keeper.new) }
        ensures weight { weight_of self.new ≤ weight_of self.old }
    {
        calls_note_what_the_pass_gains();
        let ran = self.run_keeper(steps, gate, world, answers, keeper);
        self.settle(steps, ran)
    }

    /// Goes on behind the line that was run. At the end the lane is over, and so it is where the line or the end failed,
    /// when every flight is ended too.
    fn settle<S: Steps>(
        &mut self,
        steps: &mut S,
        ran: Result<bool, Halt>,
    ) -> Result<Stepped, LaneError>
        requires lane { (S.core steps.old).lane ≡ self.old.id }
        requires sits { Sits (S.core steps.old) self.old.desk }
        requires list { self.old.list ≡ [] }
        requires ran { IfOk ran (λ ran. ran ≡ has_line self.old.rest) }
        ensures settles { Settles ran result self.old self.new (S.core steps.old) (S.core steps.new) }
        ensures leaves { Leaves (S.core steps.old) (S.core steps.new) self.new.desk }
        ensures stands { KeepsStand (S.core steps.old) (S.core steps.new) }
    {
        match ran {
            Ok(true) => {
                self.go_on();
                Ok(Stepped::Ran)
            }
            Ok(false) => {
                self.end();
                Ok(Stepped::Ended)
            }
            Err(halt) => {
                self.stop(steps);
                match halt {
                    Halt::Spent => Ok(Stepped::Spent),
                    Halt::NoMemory => Err(LaneError::NoMemory),
                }
            }
        }
    }

    /// Runs the next line of the keeper's lane, and answers true, or its end.
    fn run_keeper<S: KeeperSteps, G: Gate>(
        &mut self,
        steps: &mut S,
        gate: &G,
        world: &World,
        answers: &Answers,
        keeper: &mut Keeper,
    ) -> Result<bool, Halt>
        requires sits { Sits (S.core steps.old) self.old.desk }
        requires pages { MayRead world.now.pages self.old.rest }
        requires stands { StandsTo keeper.old (S.core steps.old).view }
        ensures lane { self.new ≡ record (self.old) { list = []; desk = self.new.desk } }
        ensures runs { Runs result (reads_of world.now answers.now) (line_of self.old) (start_at (reads_of world.now answers.now) self.old) (stand (S.core steps.old) self.old.desk keeper.old) (stand (S.core steps.new) self.new.desk keeper.new) }
        ensures ran { IfOk result (λ ran. ran ≡ has_line self.old.rest) }
        ensures leaves { Leaves (S.core steps.old) (S.core steps.new) self.new.desk }
        ensures stands { StandsTo keeper.new (S.core steps.new).view }
        ensures weight { unended self.new.desk ≤ unended self.old.desk + (length self.old.list + next_submits self.old.rest) }
        ensures fails { OnErr result (unended self.new.desk ≤ unended self.old.desk + length self.old.list) }
    {
        let list = mem::replace(&mut self.list, Vec::new(self.alloc));
        match self.plan.lines.as_slice().get(self.next) {
            None => match finish_line(&mut self.desk, steps, gate, answers, 0, &None) {
                Ok(()) => Ok(false),
                Err(halt) => Err(halt),
            },
            Some(numbered) => {
                let line = numbered.number;
                let asked = numbered.line;
                match run_keeper_line(
                    self.alloc,
                    &mut self.desk,
                    keeper,
                    steps,
                    gate,
                    world,
                    answers,
                    list,
                    line,
                    asked,
                ) {
                    Ok(()) => Ok(true),
                    Err(halt) => Err(halt),
                }
            }
        }
    }

    /// The next line was run: the lane goes on to the one behind it.
    fn go_on(&mut self)
        requires line { has_line self.old.rest ≡ true }
        requires list { self.old.list ≡ [] }
        ensures { self.new ≡ record (self.old) { rest = behind self.old.rest; listed = false } }
    {
        // The proof needs its range.
        let _lines = self.plan.lines.len();
        self.next += 1;
        self.listed = false;
    }

    /// The lane has come to its end.
    fn end(&mut self)
        requires { self.old.list ≡ [] }
        ensures { self.new ≡ record (self.old) { listed = false; over = true } }
    {
        self.listed = false;
        self.over = true;
    }

    /// Runs the next line, and answers true, or the lane's end.
    fn run<S: Steps, G: Gate>(
        &mut self,
        steps: &mut S,
        gate: &G,
        world: &World,
        answers: &Answers,
    ) -> Result<bool, Halt>
        requires sits { Sits (S.core steps.old) self.old.desk }
        requires plan { HasNoKeeperLine self.old.rest }
        requires pages { MayRead world.now.pages self.old.rest }
        ensures lane { self.new ≡ record (self.old) { list = []; desk = self.new.desk } }
        ensures runs { RunsBeside result (reads_of world.now answers.now) (line_of self.old) (start_at (reads_of world.now answers.now) self.old) (S.core steps.old) (S.core steps.new) self.old.desk self.new.desk }
        ensures ran { IfOk result (λ ran. ran ≡ has_line self.old.rest) }
        ensures leaves { Leaves (S.core steps.old) (S.core steps.new) self.new.desk }
        ensures stands { KeepsStand (S.core steps.old) (S.core steps.new) }
        ensures weight { unended self.new.desk ≤ unended self.old.desk + (length self.old.list + next_submits self.old.rest) }
        ensures fails { OnErr result (unended self.new.desk ≤ unended self.old.desk + length self.old.list) }
    {
        let list = mem::replace(&mut self.list, Vec::new(self.alloc));
        match self.plan.lines.as_slice().get(self.next) {
            None => match finish_line(&mut self.desk, steps, gate, answers, 0, &None) {
                Ok(()) => Ok(false),
                Err(halt) => Err(halt),
            },
            Some(numbered) => {
                let line = numbered.number;
                let asked = numbered.line;
                match run_line(
                    self.alloc,
                    &mut self.desk,
                    steps,
                    gate,
                    world,
                    answers,
                    list,
                    line,
                    asked,
                ) {
                    Ok(()) => Ok(true),
                    Err(halt) => Err(halt),
                }
            }
        }
    }

    /// Hands over what is to be listed, in order. Each of these requests waits.
    pub fn take_out(&mut self) -> Vec<Request>
        ensures out { result.items ≡ self.old.desk.out }
        ensures waiting { AllByRecursion IsWaiting result.items }
        ensures lane { self.new ≡ record (self.old) { desk = record (self.old.desk) { out = [] } } }
        ensures weight { weight_of self.new + length result.items ≡ weight_of self.old }
    {
        if self.desk.out.is_empty() {
            return Vec::new(self.alloc);
        }
        let out = mem::replace(&mut self.desk.out, Roomy::make(self.alloc));
        out.into_vec()
    }

    /// Ends every flight, one step each. The lane then wants nothing. It takes no memory. The pass has the lane's number, and
    /// its flights are the lane's.
    pub fn stop<S: Steps>(&mut self, steps: &mut S)
        requires lane { (S.core steps.old).lane ≡ self.old.id }
        requires sits { Sits (S.core steps.old) self.old.desk }
        ensures ends { EndsAll (S.core steps.old) (S.core steps.new) self.old.desk self.new.desk }
        ensures leaves { Leaves (S.core steps.old) (S.core steps.new) self.new.desk }
        ensures lane { self.new ≡ record (self.old) { list = []; listed = false; over = true; desk = self.new.desk } }
        ensures stands { KeepsStand (S.core steps.old) (S.core steps.new) }
        ensures weight { weight_of self.new ≤ weight_of self.old }
    {
        self.desk.end_all(steps);
        self.list = Vec::new(self.alloc);
        self.listed = false;
        self.over = true;
    }

    /// The notes, the row entries that the lane made, and the requests that ended here. A lane that keeps no section has
    /// none among its notes.
    pub fn close(self) -> (LaneNotes, Vec<RowEntry>, Vec<Request>)
        requires { wants_of self ≡ Wants.Nothing }
        ensures notes { result.0.events ≡ kept_of self.desk.keeps self.desk.events }
        ensures rows { result.1.items ≡ self.desk.rows }
        ensures ended { result.2.items ≡ self.desk.ended }
    {
        let (notes, rows, ended) = self.parts();
        (notes.into_kept(), rows, ended)
    }

    /// The same with the notes but for the sections, whether they were kept or not.
    ///
    /// # Errors
    ///
    /// `NoMemory` where memory runs out.
    pub fn close_plain(self) -> Result<(LaneNotes, Vec<RowEntry>, Vec<Request>), LaneError>
        requires { wants_of self ≡ Wants.Nothing }
        ensures notes { IfOk result (λ closed. closed.0.events ≡ filter is_plain self.desk.events) }
        ensures rows { IfOk result (λ closed. closed.1.items ≡ self.desk.rows) }
        ensures ended { IfOk result (λ closed. closed.2.items ≡ self.desk.ended) }
    {
        let alloc = self.alloc;
        let (notes, rows, ended) = self.parts();
        match notes.into_plain(alloc) {
            Ok(plain) => Ok((plain, rows, ended)),
            Err(_) => Err(LaneError::NoMemory),
        }
    }

    /// What was noted, the row entries that the lane made, and the requests that ended here.
    fn parts(self) -> (Noted, Vec<RowEntry>, Vec<Request>)
        ensures events { result.0.events ≡ self.desk.events }
        ensures keeps { result.0.keeps ≡ self.desk.keeps }
        ensures rows { result.1.items ≡ self.desk.rows }
        ensures ended { result.2.items ≡ self.desk.ended }
    {
        let Lane {
            alloc: _,
            id: _,
            plan: _,
            next: _,
            list: _,
            listed: _,
            over: _,
            desk,
        } = self;
        let Desk {
            flights: _,
            out: _,
            ended,
            notes,
            rows,
        } = desk;
        (notes, rows.into_vec(), ended.into_vec())
    }
}

/// What a lane wants whose next line is this one.
fn wants_for(line: &Line, listed: bool) -> Wants
    ensures { (l : Numbered1) (rest : List Numbered1) → l.line ≡ line.now → result ≡ wants_next listed (l ∷ rest) }
{
    match line {
        Line::Requeue => { if listed { Wants::Line } else { Wants::List } }
        _ => Wants::Line,
    }
}
