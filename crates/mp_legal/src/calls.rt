//! Calls that are made of steps are steps of the plain run, where the words are told. The functions do nothing: each
//! one's contract is a law.

ghost use Rattle.std.specs.Prelude.{◌≡◌, ◌∷◌, [], ℕ, List, None, true, map};
ghost use Rattle.std.specs.List.{last_or};
ghost use Rattle.mp_script.specs.Distinct.{IsDistinct};
ghost use Rattle.mp_words.specs.declared.near.Near.{Near};
ghost use Rattle.mp_words.specs.declared.answers.Answer.{Answer};
ghost use Rattle.mp_words.specs.declared.flight.Flight.{Flight};
ghost use Rattle.mp_words.specs.declared.note.Note.{Note};
ghost use Rattle.mp_words.specs.declared.op.Op.{Op};
ghost use Rattle.mp_words.specs.declared.trying.Try.{Try};
ghost use Rattle.mp_words.specs.declared.trying.Outcome.TheVariants as outcome;
ghost use Rattle.mp_words.specs.Request.{asked_of, outcome_of};
ghost use Rattle.mp_words.specs.RequestView.{RequestView};
ghost use Rattle.mp_record.specs.declared.event.Event.TheVariants as event;
ghost use Rattle.mp_core.specs.declared.view.Seen.{Seen};
ghost use Rattle.mp_core.specs.Core.{Core};
ghost use Rattle.mp_core.specs.Memory.{Memory};
ghost use Rattle.mp_core.specs.Views.{has_flight};
ghost use Rattle.mp_change.specs.declared.change.ChangeEnd.{ChangeEnd};
ghost use Rattle.mp_change.specs.Changes.{ChangesPath};
ghost use Rattle.mp_submit.specs.declared.finish.Finished.{Finished};
ghost use Rattle.mp_submit.specs.declared.submit.Submitted.{Submitted};
ghost use Rattle.mp_submit.specs.Finishes.{Finishes};
ghost use Rattle.mp_submit.specs.Submits.{Submits};
ghost use Rattle.mp_legal.specs.PlainChange.{changed};
ghost use Rattle.mp_legal.specs.PlainFinish.{finished, entries_of};
ghost use Rattle.mp_legal.specs.PlainLine.{flights_of};
ghost use Rattle.mp_legal.specs.PlainState.{request_of};
ghost use Rattle.mp_legal.specs.PlainSubmit.{submitted};
ghost use Rattle.mp_legal.specs.Stepped.{Place, maker_of};
ghost use Rattle.mp_legal.specs.ToldCalls.{IsStep, with_try, try_event, with_end, end_event, back_in, units_of, said_of, entry_in};
ghost use Rattle.mp_legal.specs.ToldState.{Beside, IsAt, state_in};

/// A submit is the plain run's submit of the request.
pub fn submit_is_the_plain_step()
    ensures { (near : Near) (a b : Core) (before after : RequestView) (answer : Submitted) (made : Try) (m : Memory) (x : Beside) → Submits near a b before after answer made → IsAt a m x → request_of (state_in m x) before.id ≡ asked_of before → IsStep (submitted near a.lane (state_in m x) before.id) 1 a b (with_try a.lane after made x) [] (try_event after made ∷ []) }
{}

/// A finish is the plain run's finish of the flight.
pub fn finish_is_the_plain_step()
    ensures { (answers : List Answer) (a b : Core) (f : Flight) (before after : RequestView) (answer : Finished) (m : Memory) (x : Beside) → Finishes answers a b f before after answer → IsAt a m x → f.req ≡ before.id → f.lane ≡ a.lane → has_flight f a.view ≡ true → outcome_of (last_or None (asked_of before).tries) ≡ outcome.Sent → IsDistinct (map (λ g. g.req) (flights_of a.lane (state_in m x))) → request_of (state_in m x) before.id ≡ asked_of before → IsStep (finished answers a.lane (state_in m x) f) (units_of (back_in (last_or None after.tries))) a b (with_end f after x) (entries_of (back_in (last_or None after.tries))) (end_event after (last_or None after.tries)) }
{}

/// A row change of a controller's path is the plain run's.
pub fn change_is_the_plain_step()
    ensures { (at : Place) (ctrl : ℕ) (op : Op) (a b : Core) (ending : ChangeEnd) (n : Note) (seen : Seen) (m : Memory) (x : Beside) → ChangesPath ctrl op (maker_of at) a b ending n seen → IsAt a m x → IsStep (changed at (state_in m x) ctrl op) 1 a b x (entry_in ending) (map (event.At at.line) (said_of ending)) }
{}
