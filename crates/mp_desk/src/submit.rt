//! A submit at a desk.

ghost use Rattle.std.specs.Prelude.{◌≡◌, ◌≤◌, ◌+◌, ◌++◌, ◌∷◌, ℕ, [], List, None, Some, length, map, OnErr};
ghost use Rattle.std.specs.List.{last_or, AllByRecursion};
ghost use Rattle.mp_words.specs.declared.answers.Answer.{Answer};
ghost use Rattle.mp_words.specs.declared.trying.Try.{Try};
ghost use Rattle.mp_desk.specs.Calls.{submit, IsWaiting, Sits};
ghost use Rattle.mp_desk.specs.Desks.{desk_of, placed, BreaksCall, BreaksCalls, DoesCall, DoesCalls, KeepsStand, Leaves};
ghost use Rattle.mp_desk.specs.DeskView.{unended};
ghost use Rattle.mp_desk.specs.Says.{section, try_event};
ghost use Rattle.mp_record.specs.declared.event.Event.TheVariants as event;

use crate::aloft::Aloft;
use crate::desk::Desk;
use crate::flying::Flying;
use crate::halt::Halt;
use crate::last::last_of;
use crate::noted::Noted;
use crate::pay::can_pay;
use mp_core::gate::Gate;
use mp_core::steps::Steps;
use mp_submit::submit::{Submitted, submit};
use mp_words::near::Near;
use mp_words::numbered::Numbered;
use mp_words::numbers::ReqId;
use mp_words::request::Request;
use mp_words::trying::Try;

impl Desk {
    /// Makes a try of a request that waits, and notes it: the request is on its way, to be listed, or has failed. It needs
    /// a unit. The pass sits at this desk.
    ///
    /// # Errors
    ///
    /// `Spent` where no unit is left; the request leaves the run. `NoMemory` where memory runs out, before any step.
    pub fn submit<S: Steps, G: Gate>(
        &mut self,
        steps: &mut S,
        gate: &G,
        near: &Near,
        mut request: Request,
    ) -> Result<(), Halt>
        requires sits { Sits (S.core steps.old) (desk_of self.old) }
        requires waiting { IsWaiting request }
        ensures does { (answers : List Answer) (line : ℕ) → DoesCall result (record { near = near.now; answers = answers; line = line }) (submit request) (S.core steps.old) (S.core steps.new) (desk_of self.old) (desk_of self.new) }
        ensures breaks { (answers : List Answer) (line : ℕ) → BreaksCall result (record { near = near.now; answers = answers; line = line }) (submit request) (S.core steps.old) (S.core steps.new) (desk_of self.old) (desk_of self.new) }
        ensures leaves { Leaves (S.core steps.old) (S.core steps.new) (desk_of self.new) }
        ensures stands { KeepsStand (S.core steps.old) (S.core steps.new) }
        ensures weight { unended (desk_of self.new) ≤ unended (desk_of self.old) + 1 }
        ensures fails { OnErr result ((S.core steps.new ≡ S.core steps.old) × (desk_of self.new ≡ desk_of self.old)) }
    {
        if !can_pay(steps, 1) {
            return Err(Halt::Spent);
        }
        if self.reserve().is_err() || request.reserve().is_err() {
            return Err(Halt::NoMemory);
        }
        let answer = submit(steps, gate, near, &mut request);
        note_try(&mut self.notes, &request);
        self.put(request, answer);
        Ok(())
    }

    /// Makes a try of each of these requests, in order, which all wait. Each needs a unit. The pass sits at this desk.
    ///
    /// # Errors
    ///
    /// `Spent` where no unit is left to one; it and those behind it leave the run. `NoMemory` where memory runs out.
    pub fn submit_each<S: Steps, G: Gate>(
        &mut self,
        steps: &mut S,
        gate: &G,
        near: &Near,
        requests: Vec<Request>,
    ) -> Result<(), Halt>
        requires sits { Sits (S.core steps.old) (desk_of self.old) }
        requires waiting { AllByRecursion IsWaiting requests.items }
        ensures does { (answers : List Answer) (line : ℕ) → DoesCalls result (record { near = near.now; answers = answers; line = line }) (map submit requests.items) (S.core steps.old) (S.core steps.new) (desk_of self.old) (desk_of self.new) }
        ensures breaks { (answers : List Answer) (line : ℕ) → BreaksCalls result (record { near = near.now; answers = answers; line = line }) (map submit requests.items) (S.core steps.old) (S.core steps.new) (desk_of self.old) (desk_of self.new) }
        ensures leaves { Leaves (S.core steps.old) (S.core steps.new) (desk_of self.new) }
        ensures stands { KeepsStand (S.core steps.old) (S.core steps.new) }
        ensures weight { unended (desk_of self.new) ≤ unended (desk_of self.old) + length requests.items }
    {
        for request in requests {
            match self.submit(steps, gate, near, request) {
                Ok(()) => (),
                Err(halt) => return Err(halt),
            }
        }
        Ok(())
    }

    /// Puts a request where its try sent it.
    fn put(&mut self, request: Request, answer: Submitted)
        requires flights { 1 ≤ self.old.flights.spare }
        requires out { 1 ≤ self.old.out.spare }
        requires ended { 1 ≤ self.old.ended.spare }
        ensures { desk_of self.new ≡ placed answer request (desk_of self.old) }
    {
        match answer {
            Submitted::Sent(flight) => {
                let flight = Aloft::of(flight);
                self.flights.push(Flying { flight, request });
            }
            Submitted::Listed => self.out.push(request),
            Submitted::Failed => self.ended.push(request),
        }
    }
}

/// Notes the last try of a request, with its section.
fn note_try(notes: &mut Noted, request: &Request)
    requires room { 2 ≤ notes.old.spare }
    requires tried { (made : Try) × (last_or None request.now.tries ≡ Some made) }
    ensures events { (made : Try) → last_or None request.now.tries ≡ Some made → notes.new.events ≡ notes.old.events ++ section made.note ∷ try_event request.now made ∷ [] }
    ensures keeps { notes.new.keeps ≡ notes.old.keeps }
{
    match request.tries().last_whole() {
        Some(made) => note_made(notes, request.id(), made),
        None => note_unkept(notes, request),
    }
}

/// Notes the last try of a request, which isn't kept whole.
#[inline(never)]
fn note_unkept(notes: &mut Noted, request: &Request)
    requires room { 2 ≤ notes.old.spare }
    requires tried { (made : Try) × (last_or None request.now.tries ≡ Some made) }
    ensures events { (made : Try) → last_or None request.now.tries ≡ Some made → notes.new.events ≡ notes.old.events ++ section made.note ∷ try_event request.now made ∷ [] }
    ensures keeps { notes.new.keeps ≡ notes.old.keeps }
{
    note_made(notes, request.id(), &last_of(request));
}

/// Notes a try of a request, with its section.
fn note_made(notes: &mut Noted, req: ReqId, made: &Try)
    requires { 2 ≤ notes.old.spare }
    ensures events { notes.new.events ≡ notes.old.events ++ section made.now.note ∷ event.Try req made.now.hop made.now.end ∷ [] }
    ensures keeps { notes.new.keeps ≡ notes.old.keeps }
{
    notes.push_section(&made.note, &None);
    notes.push_try(req, made.hop, made.end);
}
