//! What the calls of desks leave. The functions do nothing: each one's contract is a law.

ghost use Rattle.std.specs.Prelude.{List};
ghost use Rattle.std.specs.List.{AllByRecursion};
ghost use Rattle.mp_keep.specs.Keeper.{KeeperView, StandsTo};
ghost use Rattle.mp_desk.specs.Calls.{BreaksTo, CallTo, CallsTo, DeskCall, EndsAll, IsLaneCall, Means, Stand, StopsTo};
ghost use Rattle.mp_desk.specs.Gains.{Gains, UsesSections};

/// A submit, a finish and a row change leave a keeper standing to its steps, whatever other lanes do.
pub fn a_lanes_call_leaves_the_keeper()
    ensures { (w : Means) (c : DeskCall) (p q : Stand) (k : KeeperView) → IsLaneCall c → CallTo w c p q → StandsTo k p.core.view → StandsTo k q.core.view }
{}

/// What a pass gains by the calls of its desk is what was noted there: the sections that it finished are those of the
/// events that were added, in order, and the entries of rows that it made are those that were kept.
pub fn calls_note_what_the_pass_gains()
    ensures done { (w : Means) (calls : List DeskCall) (p q : Stand) → CallsTo w calls p q → Gains p q }
    ensures stopped { (w : Means) (calls : List DeskCall) (p q : Stand) → StopsTo w calls p q → Gains p q }
    ensures broken { (w : Means) (calls : List DeskCall) (p q : Stand) → BreaksTo w calls p q → Gains p q }
    ensures ended { (p q : Stand) → EndsAll p.core q.core p.desk q.desk → Gains p q }
{}

/// A lane's calls use a unit for each section that was noted, and none else.
pub fn a_lanes_calls_use_a_unit_for_each_section()
    ensures done { (w : Means) (calls : List DeskCall) (p q : Stand) → AllByRecursion IsLaneCall calls → CallsTo w calls p q → UsesSections p q }
    ensures stopped { (w : Means) (calls : List DeskCall) (p q : Stand) → AllByRecursion IsLaneCall calls → StopsTo w calls p q → UsesSections p q }
    ensures broken { (w : Means) (calls : List DeskCall) (p q : Stand) → AllByRecursion IsLaneCall calls → BreaksTo w calls p q → UsesSections p q }
{}
