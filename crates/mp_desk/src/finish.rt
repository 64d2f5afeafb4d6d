//! The finish of flights at a desk.

ghost use Rattle.std.specs.Prelude.{◌≡◌, ◌≤◌, ◌+◌, ◌++◌, ◌∷◌, ℕ, [], None, Some, map};
ghost use Rattle.std.specs.List.{last_or};
ghost use Rattle.mp_words.specs.declared.near.Near.{Near};
ghost use Rattle.mp_words.specs.declared.trying.Try.{Try};
ghost use Rattle.mp_record.specs.declared.event.Event.TheVariants as event;
ghost use Rattle.mp_desk.specs.Calls.{finish, Sits};
ghost use Rattle.mp_desk.specs.DeskView.{entering, landing, noting, unended};
ghost use Rattle.mp_desk.specs.Desks.{desk_of, BreaksCalls, BreaksFlight, DoesCalls, DoesFlight, HasRoom, IsTaken, KeepsStand, Leaves};
ghost use Rattle.mp_desk.specs.Indexed.{flying_of};
ghost use Rattle.mp_desk.specs.Says.{back_in, end_event, entries_back, section};

use crate::aloft::Aloft;
use crate::desk::Desk;
use crate::flying::Flying;
use crate::halt::Halt;
use crate::last::last_of;
use crate::noted::Noted;
use mp_core::gate::Gate;
use mp_core::steps::Steps;
use mp_submit::finish::{Finished, finish};
use mp_words::answers::Answers;
use mp_words::note::Note;
use mp_words::numbered::Numbered;
use mp_words::numbers::ReqId;
use mp_words::request::Request;
use mp_words::trying::{Back, Try};

impl Desk {
    /// Ends the flights of a number, where one is named, or all, in the order sent, by the scripted statuses of their
    /// hops, and notes it: each request has ended, or is to be listed. Each needs a unit. The pass sits at this desk.
    ///
    /// # Errors
    ///
    /// `Spent` where no unit is left to one, which is ended. `NoMemory` where memory runs out.
    pub fn finish<S: Steps, G: Gate>(
        &mut self,
        steps: &mut S,
        gate: &G,
        answers: &Answers,
        named: &Option<ReqId>,
    ) -> Result<(), Halt>
        requires sits { Sits (S.core steps.old) (desk_of self.old) }
        ensures does { (near : Near) (line : ℕ) → DoesCalls result (record { near = near; answers = answers.now; line = line }) (map finish (flying_of named.now self.old.flights.flying)) (S.core steps.old) (S.core steps.new) (desk_of self.old) (desk_of self.new) }
        ensures breaks { (near : Near) (line : ℕ) → BreaksCalls result (record { near = near; answers = answers.now; line = line }) (map finish (flying_of named.now self.old.flights.flying)) (S.core steps.old) (S.core steps.new) (desk_of self.old) (desk_of self.new) }
        ensures leaves { Leaves (S.core steps.old) (S.core steps.new) (desk_of self.new) }
        ensures stands { KeepsStand (S.core steps.old) (S.core steps.new) }
        ensures weight { unended (desk_of self.new) ≤ unended (desk_of self.old) }
    {
        for _ in 0..self.flights.count(named) {
            match self.flights.take(named) {
                None => (),
                Some(flying) => match self.finish_one(steps, gate, answers, flying) {
                    Ok(()) => (),
                    Err(halt) => return Err(halt),
                },
            }
        }
        Ok(())
    }

    /// Ends a flight that was taken from the desk.
    fn finish_one<S: Steps, G: Gate>(
        &mut self,
        steps: &mut S,
        gate: &G,
        answers: &Answers,
        flying: Flying,
    ) -> Result<(), Halt>
        requires taken { IsTaken flying (S.core steps.old) (desk_of self.old) }
        ensures does { (near : Near) (line : ℕ) → DoesFlight result (record { near = near; answers = answers.now; line = line }) flying (S.core steps.old) (S.core steps.new) (desk_of self.old) (desk_of self.new) }
        ensures breaks { (near : Near) (line : ℕ) → BreaksFlight result (record { near = near; answers = answers.now; line = line }) flying (S.core steps.old) (S.core steps.new) (desk_of self.old) (desk_of self.new) }
        ensures leaves { Leaves (S.core steps.old) (S.core steps.new) (desk_of self.new) }
        ensures stands { KeepsStand (S.core steps.old) (S.core steps.new) }
        ensures weight { unended (desk_of self.new) ≤ unended (desk_of self.old) + 1 }
    {
        let Flying {
            flight,
            mut request,
        } = flying;
        for _ in 0..steps.left() {
            if self.reserve().is_err() {
                steps.end(flight.flight());
                return Err(Halt::NoMemory);
            }
            match finish(steps, gate, flight.flight(), &mut request, answers) {
                Finished::Done(_) => {
                    self.land(request);
                    return Ok(());
                }
                Finished::Back(note) => {
                    self.land_back(request, &note);
                    return Ok(());
                }
                Finished::Moved(again, row, note) => {
                    let moved = Some((Aloft::of(again).slot, row.version));
                    self.notes.push_section(&note, &moved);
                }
            }
        }
        steps.end(flight.flight());
        Err(Halt::Spent)
    }

    /// Notes how the last try of a request ended, and puts the request where it belongs.
    fn land(&mut self, request: Request)
        requires room { HasRoom self.old }
        requires tried { (made : Try) × (last_or None request.tries ≡ Some made) }
        ensures { desk_of self.new ≡ landing request (back_in (last_or None request.tries)) (entering (entries_back (back_in (last_or None request.tries))) (noting (end_event request (last_or None request.tries)) (desk_of self.old))) }
    {
        let back = note_end(&mut self.notes, &request);
        self.take_back(request, &back);
    }

    /// Notes the section of a failover and how the last try of its request ended, and puts the request where it belongs.
    #[inline(never)]
    fn land_back(&mut self, request: Request, entered: &Note)
        requires room { HasRoom self.old }
        requires tried { (made : Try) × (last_or None request.tries ≡ Some made) }
        ensures { desk_of self.new ≡ landing request (back_in (last_or None request.tries)) (entering (entries_back (back_in (last_or None request.tries))) (noting (section entered.now ∷ end_event request (last_or None request.tries)) (desk_of self.old))) }
    {
        self.notes.push_section(entered, &None);
        let back = note_end(&mut self.notes, &request);
        self.take_back(request, &back);
    }

    /// Puts a request where it belongs once its flight has ended, and it came back so or didn't.
    fn take_back(&mut self, request: Request, back: &Option<Back>)
        requires out { 1 ≤ self.old.out.spare }
        requires ended { 1 ≤ self.old.ended.spare }
        requires rows { 1 ≤ self.old.rows.spare }
        ensures { desk_of self.new ≡ landing request back.now (entering (entries_back back.now) (desk_of self.old)) }
    {
        match back {
            None => self.ended.push(request),
            Some(Back::Unset) => self.out.push(request),
            Some(Back::Set(entry)) => {
                self.rows.push(*entry);
                self.out.push(request);
            }
        }
    }
}

/// Notes how the last try of a request ended, and answers how the request came back, where it did.
fn note_end(notes: &mut Noted, request: &Request) -> Option<Back>
    requires room { 1 ≤ notes.old.spare }
    requires tried { (made : Try) × (last_or None request.now.tries ≡ Some made) }
    ensures events { notes.new.events ≡ notes.old.events ++ end_event request.now (last_or None request.now.tries) }
    ensures keeps { notes.new.keeps ≡ notes.old.keeps }
    ensures back { result ≡ back_in (last_or None request.now.tries) }
{
    match request.tries().last_whole() {
        Some(last) => note_last(notes, request.id(), request.next() - 1, last),
        None => note_unkept(notes, request),
    }
}

/// Notes how the last try of a request ended, which isn't kept whole, and answers how the request came back, where it did.
#[inline(never)]
fn note_unkept(notes: &mut Noted, request: &Request) -> Option<Back>
    requires room { 1 ≤ notes.old.spare }
    requires tried { (made : Try) × (last_or None request.now.tries ≡ Some made) }
    ensures events { notes.new.events ≡ notes.old.events ++ end_event request.now (last_or None request.now.tries) }
    ensures keeps { notes.new.keeps ≡ notes.old.keeps }
    ensures back { result ≡ back_in (last_or None request.now.tries) }
{
    note_last(notes, request.id(), request.next() - 1, &last_of(request))
}

/// Notes how a try ended, and answers how its request came back, where it did.
fn note_last(notes: &mut Noted, req: ReqId, hop: u32, last: &Try) -> Option<Back>
    requires { 1 ≤ notes.old.spare }
    ensures events { notes.new.events ≡ notes.old.events ++ event.Fin req hop last.now.statuses last.now.count last.now.back ∷ [] }
    ensures keeps { notes.new.keeps ≡ notes.old.keeps }
    ensures back { result ≡ last.now.back }
{
    notes.push_end(req, hop, &last.statuses, last.count, &last.back);
    last.back
}
