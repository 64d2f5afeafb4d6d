//! What is done once every lane has ended.

ghost use Rattle.std.specs.Prelude.{◌≡◌, ◌<◌, ◌++◌, ◌∷◌, [], List, length, IfErr, OnOk};
ghost use Rattle.std.specs.List.{AllByRecursion};
ghost use Rattle.mp_plain.specs.Told.{told_core};
ghost use Rattle.mp_words.specs.declared.answers.Answer.{Answer};
ghost use Rattle.mp_words.specs.declared.near.Near.{Near};
ghost use Rattle.mp_keep.specs.Keeper.{KeeperView, StandsTo};
ghost use Rattle.mp_desk.specs.Calls.{IsWaiting, Sits};
ghost use Rattle.mp_record.specs.declared.event.Event.TheVariants as event;
ghost use Rattle.mp_record.specs.declared.event.Said.TheVariants as said;
ghost use Rattle.mp_desk.specs.DeskView.{noting};
ghost use Rattle.mp_desk.specs.Desks.{desk_of};
ghost use Rattle.mp_run.specs.Draining.{drain_means, drain_stand, some_fly, ReapsDo, Rounds, RoundsDo, Sends, SendsEach};
ghost use Rattle.mp_run.specs.DrainAll.{Drains};
ghost use Rattle.mp_run.specs.Runner.{left_of, state_by, IsTied, Story};
ghost use Rattle.mp_legal.specs.Inputs.{inputs_for};
ghost use Rattle.mp_legal.specs.Units.{pay_drain};

use crate::desk_laws::desk_laws;
use crate::runner::{Runner, put_all};
use mp_core::gate::NoGate;
use mp_desk::desk::Desk;
use mp_desk::halt::Halt;
use mp_desk::roomy::Roomy;
use mp_keep::keeper::Keeper;
use mp_plain::plain::Plain;
use mp_record::event::Said;
use mp_requeue::private::Private;
use mp_script::script::{Script, World};
use mp_words::answers::Answers;
use mp_words::near::Near;
use mp_words::numbers::LaneId;
use mp_words::request::Request;
use std::alloc::Global;
use std::mem;

/// The lane of the drain.
pub fn drain_lane() -> LaneId
    ensures { result ≡ 16 }
{
    LaneId::make(16).unwrap()
}

/// Whether something flies at a desk.
fn is_aloft(desk: &Desk) -> bool
    ensures { result ≡ some_fly desk.now.flights.flying }
{
    desk.flights.count(&None) > 0
}

/// Submits a request that waits, and ends it at once if it was sent. Answers whether it was.
fn send(
    plain: &mut Plain,
    desk: &mut Desk,
    near: &Near,
    answers: &Answers,
    request: Request,
) -> Result<bool, Halt>
    requires sits { Sits (told_core plain.old) (desk_of desk.old) }
    requires waiting { IsWaiting request }
    ensures sends { (k : KeeperView) → Sends result (drain_means near.now answers.now) request (drain_stand plain.old desk.old k) (drain_stand plain.new desk.new k) }
    ensures sits { Sits (told_core plain.new) (desk_of desk.new) }
{
    match desk.submit(plain, &NoGate, near, request) {
        Ok(()) => (),
        Err(halt) => return Err(halt),
    }
    let sent = is_aloft(desk);
    match desk.finish(plain, &NoGate, answers, &None) {
        Ok(()) => Ok(sent),
        Err(halt) => Err(halt),
    }
}

/// Submits these requests in turn, and ends each at once that was sent. Answers whether one was.
fn send_each(
    plain: &mut Plain,
    desk: &mut Desk,
    near: &Near,
    answers: &Answers,
    requests: Vec<Request>,
) -> Result<bool, Halt>
    requires sits { Sits (told_core plain.old) (desk_of desk.old) }
    requires waiting { AllByRecursion IsWaiting requests.items }
    ensures sends { (k : KeeperView) → SendsEach result (drain_means near.now answers.now) requests.items (drain_stand plain.old desk.old k) (drain_stand plain.new desk.new k) }
    ensures sits { Sits (told_core plain.new) (desk_of desk.new) }
{
    let mut any = false;
    for request in requests {
        match send(plain, desk, near, answers, request) {
            Ok(sent) => any = any | sent,
            Err(halt) => return Err(halt),
        }
    }
    Ok(any)
}

/// Puts what is to be listed to the end of the list.
fn put_out(alloc: Global, desk: &mut Desk, list: &mut Private<Request>) -> Result<(), Halt>
    ensures list { OnOk result (list.new ≡ list.old ++ desk.old.out.items) }
    ensures desk { desk_of desk.new ≡ record (desk_of desk.old) { out = [] } }
    ensures refused { IfErr result (λ why. why ≡ Halt.NoMemory) }
{
    let out = mem::replace(&mut desk.out, Roomy::make(alloc));
    match put_all(list, out.into_vec()) {
        Ok(()) => Ok(()),
        Err(_) => Err(Halt::NoMemory),
    }
}

/// Notes that a list of so many requests is submitted.
fn say_list(desk: &mut Desk, count: usize) -> Result<(), Halt>
    ensures said { OnOk result (desk_of desk.new ≡ noting (event.At 0 (said.Requeue count) ∷ []) (desk_of desk.old)) }
    ensures refused { IfErr result (λ why. why ≡ Halt.NoMemory) }
{
    let Ok(count) = u32::try_from(count) else {
        return Err(Halt::NoMemory);
    };
    if desk.say(0, Said::Requeue(count)).is_err() {
        return Err(Halt::NoMemory);
    }
    Ok(())
}

/// Makes a round over requests that were taken from the list, which is empty. Answers whether one was sent.
fn round_over(
    alloc: Global,
    plain: &mut Plain,
    desk: &mut Desk,
    list: &mut Private<Request>,
    requests: Vec<Request>,
    near: &Near,
    answers: &Answers,
) -> Result<bool, Halt>
    requires sits { Sits (told_core plain.old) (desk_of desk.old) }
    requires waiting { AllByRecursion IsWaiting requests.items }
    requires taken { list.old ≡ [] }
    ensures rounds { (k : KeeperView) → Rounds result (drain_means near.now answers.now) requests.items list.new (drain_stand plain.old desk.old k) (drain_stand plain.new desk.new k) }
    ensures waiting { OnOk result (AllByRecursion IsWaiting list.new) }
    ensures sits { OnOk result (Sits (told_core plain.new) (desk_of desk.new)) }
{
    match say_list(desk, requests.len()) {
        Ok(()) => (),
        Err(halt) => return Err(halt),
    }
    match send_each(plain, desk, near, answers, requests) {
        Err(halt) => Err(halt),
        Ok(sent) => match put_out(alloc, desk, list) {
            Err(halt) => Err(halt),
            Ok(()) => Ok(sent),
        },
    }
}

/// Makes a round over the list, which it takes whole. Answers whether a request was sent.
fn round(
    alloc: Global,
    plain: &mut Plain,
    desk: &mut Desk,
    list: &mut Private<Request>,
    near: &Near,
    answers: &Answers,
) -> Result<bool, Halt>
    requires sits { Sits (told_core plain.old) (desk_of desk.old) }
    requires waiting { AllByRecursion IsWaiting list.old }
    ensures rounds { (k : KeeperView) → Rounds result (drain_means near.now answers.now) list.old list.new (drain_stand plain.old desk.old k) (drain_stand plain.new desk.new k) }
    ensures waiting { OnOk result (AllByRecursion IsWaiting list.new) }
    ensures sits { OnOk result (Sits (told_core plain.new) (desk_of desk.new)) }
{
    let requests = list.take_all();
    let answer = round_over(alloc, plain, desk, list, requests, near, answers);
    answer
}

/// Makes rounds over the list behind one in which a request was sent or not, at most so many. The first that sends
/// nothing is the last.
fn rounds(
    alloc: Global,
    plain: &mut Plain,
    desk: &mut Desk,
    list: &mut Private<Request>,
    near: &Near,
    answers: &Answers,
    most: usize,
    first: bool,
) -> Result<(), Halt>
    requires sits { Sits (told_core plain.old) (desk_of desk.old) }
    requires waiting { AllByRecursion IsWaiting list.old }
    ensures rounds { (k : KeeperView) → RoundsDo result (drain_means near.now answers.now) most first list.old list.new (drain_stand plain.old desk.old k) (drain_stand plain.new desk.new k) }
{
    let mut sent = first;
    for _ in 0..most {
        if !sent {
            return Ok(());
        }
        match round(alloc, plain, desk, list, near, answers) {
            Ok(more) => sent = more,
            Err(halt) => return Err(halt),
        }
    }
    Ok(())
}

/// Carries the removals once for each that is under way.
fn reap_each(plain: &mut Plain, keeper: &mut Keeper, desk: &mut Desk) -> Result<(), Halt>
    requires sits { Sits (told_core plain.old) (desk_of desk.old) }
    requires stands { StandsTo keeper.old (told_core plain.old).view }
    ensures reaps { (near : Near) (answers : List Answer) → ReapsDo result (drain_means near answers) (length keeper.old.removals) (drain_stand plain.old desk.old keeper.old) (drain_stand plain.new desk.new keeper.new) }
    ensures sits { OnOk result (Sits (told_core plain.new) (desk_of desk.new)) }
{
    for _ in 0..keeper.removals() {
        match desk.reap(plain, keeper, 0) {
            Ok(()) => (),
            Err(halt) => return Err(halt),
        }
    }
    Ok(())
}

impl Runner {
    /// Carries the removals once for each that is under way, and then makes rounds over those that wait, each of which
    /// takes the list whole. The first that sends nothing is the last.
    pub fn drain_all(&mut self, alloc: Global, world: &World, script: &Script) -> Result<(), Halt>
        requires tied { (s : Story) × IsTied self.old s }
        requires quiet { self.old.drain.flights.flying ≡ [] }
        ensures drains { (s : Story) → IsTied self.old s → Drains result (pay_drain (inputs_for world.now script.now) (state_by self.old s) (left_of 16 self.old)) self.old self.new s }
    {
        desk_laws();
        let near = &world.topology.near;
        let answers = &script.answers;
        self.plain.turn(drain_lane());
        match reap_each(&mut self.plain, &mut self.keeper, &mut self.drain) {
            Ok(()) => (),
            Err(halt) => return Err(halt),
        }
        let requests = self.list.take_all();
        let Some(most) = requests.len().checked_add(answers.len()) else {
            return Err(Halt::NoMemory);
        };
        match round_over(
            alloc,
            &mut self.plain,
            &mut self.drain,
            &mut self.list,
            requests,
            near,
            answers,
        ) {
            Err(halt) => Err(halt),
            Ok(sent) => rounds(
                alloc,
                &mut self.plain,
                &mut self.drain,
                &mut self.list,
                near,
                answers,
                most,
                sent,
            ),
        }
    }
}
