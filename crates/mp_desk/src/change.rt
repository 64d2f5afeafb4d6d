//! A row change at a desk.

ghost use Rattle.std.specs.Prelude.{◌≡◌, ◌≤◌, ◌∷◌, [], List, true, map};
ghost use Rattle.mp_words.specs.declared.answers.Answer.{Answer};
ghost use Rattle.mp_words.specs.declared.near.Near.{Near};
ghost use Rattle.mp_record.specs.declared.event.Event.TheVariants as event;
ghost use Rattle.mp_change.specs.Changes.{IsLineOp};
ghost use Rattle.mp_desk.specs.Calls.{change, Sits};
ghost use Rattle.mp_desk.specs.DeskView.{entering, noting, unended};
ghost use Rattle.mp_desk.specs.Desks.{desk_of, BreaksCall, DoesCall, HasRoom, KeepsStand, Leaves};
ghost use Rattle.mp_desk.specs.Says.{entry_in, is_over, said_of, section_of};

use crate::desk::Desk;
use crate::halt::Halt;
use mp_change::change::{ChangeEnd, Changing, change};
use mp_core::gate::Gate;
use mp_core::steps::Steps;
use mp_record::event::Said;
use mp_words::note::Note;
use mp_words::numbers::Ctrl;
use mp_words::op::{Maker, Op};

impl Desk {
    /// Changes the row of a controller's first listed path by a line, and notes what came of it. It needs a unit, and one
    /// more for each time that another change of the row comes between. The pass sits at this desk.
    ///
    /// # Errors
    ///
    /// `Spent` where no unit is left. `NoMemory` where memory runs out, before the step.
    pub fn change<S: Steps, G: Gate>(
        &mut self,
        steps: &mut S,
        gate: &G,
        line: u32,
        ctrl: Ctrl,
        op: &Op,
    ) -> Result<(), Halt>
        requires sits { Sits (S.core steps.old) (desk_of self.old) }
        requires op { IsLineOp op.now }
        ensures does { (near : Near) (answers : List Answer) → DoesCall result (record { near = near; answers = answers; line = line }) (change ctrl op.now) (S.core steps.old) (S.core steps.new) (desk_of self.old) (desk_of self.new) }
        ensures breaks { (near : Near) (answers : List Answer) → BreaksCall result (record { near = near; answers = answers; line = line }) (change ctrl op.now) (S.core steps.old) (S.core steps.new) (desk_of self.old) (desk_of self.new) }
        ensures leaves { Leaves (S.core steps.old) (S.core steps.new) (desk_of self.new) }
        ensures stands { KeepsStand (S.core steps.old) (S.core steps.new) }
        ensures weight { unended (desk_of self.new) ≤ unended (desk_of self.old) }
    {
        for _ in 0..steps.left() {
            if self.reserve().is_err() {
                return Err(Halt::NoMemory);
            }
            let by = Maker::Line {
                lane: steps.lane(),
                line,
            };
            let Changing { end, note } = change(steps, gate, ctrl, *op, by);
            if self.note_change(line, &end, note) {
                return Ok(());
            }
        }
        Err(Halt::Spent)
    }

    /// Notes the section of a row change, and what the line says of how it ended. Answers whether it did.
    fn note_change(&mut self, line: u32, end: &ChangeEnd, note: Note) -> bool
        requires room { HasRoom self.old }
        ensures desk { desk_of self.new ≡ entering (entry_in end.now) (noting (section_of note end.now ∷ map (event.At line) (said_of end.now)) (desk_of self.old)) }
        ensures over { result ≡ is_over end.now }
    {
        if let ChangeEnd::Moved(slot, row) = end {
            let moved = Some((*slot, row.version));
            self.notes.push_section(&note, &moved);
            return false;
        }
        self.notes.push_section(&note, &None);
        let said = said_of(end);
        self.notes.push_said(line, said);
        if let ChangeEnd::Changed(entry) = end {
            self.rows.push(*entry);
        }
        true
    }
}

/// What a line says of how its row change ended, which met no other row.
fn said_of(end: &ChangeEnd) -> Said
    requires still { is_over end.now ≡ true }
    ensures { said_of end.now ≡ result ∷ [] }
{
    match end {
        ChangeEnd::Changed(entry) => Said::Changed(entry.slot, entry.row.version),
        ChangeEnd::Refused(slot, row) => Said::Refused(*slot, row.version, row.cstate),
        ChangeEnd::NotArmed(slot, row) => Said::NotArmed(*slot, row.version),
        ChangeEnd::NoPath(order) => Said::NoPath(order.version),
        ChangeEnd::Moved(_, _) => unreachable!(),
    }
}
