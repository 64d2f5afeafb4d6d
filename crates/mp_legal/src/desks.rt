//! The calls of a lane's desk are steps of the plain run, where the words are told. The functions do nothing: each
//! one's contract is a law.

ghost use Rattle.std.specs.Prelude.{◌≡◌, ◌+◌, ◌-◌, ◌<◌, ◌==◌, count_by, ◌∷◌, [], ℕ, List, Some, None, map, slice_set};
ghost use Rattle.std.specs.List.{flat_map};
ghost use Rattle.mp_core.specs.Core.{Core};
ghost use Rattle.mp_core.specs.Memory.{Memory};
ghost use Rattle.mp_keep.specs.Keeper.{KeeperView, StandsTo};
ghost use Rattle.mp_desk.specs.DeskView.{DeskView};
ghost use Rattle.mp_desk.specs.Calls.{DeskCall, Means, Stand, CallTo, StopTo, CallsTo, StopsTo, EndsAll, needs};
ghost use Rattle.mp_legal.specs.PlainCall.{Inputs, call};
ghost use Rattle.mp_legal.specs.PlainState.{State};
ghost use Rattle.mp_legal.specs.Stepped.{Place, each, tells};
ghost use Rattle.mp_legal.specs.ToldDesks.{GoesBy, SitsAt, MayCall, MayCalls, Leads, FallsBy, Stops, IsLaneCall, plain_of, place_at, submitted_by, times};
ghost use Rattle.mp_legal.specs.ToldState.{Beside, state_in};
ghost use Rattle.mp_legal.specs.Units.{each_paid, pay_call, settled, uses};

/// A call of a desk is the plain run's call, which can be paid, and uses its units.
pub fn a_call_is_the_plain_call()
    ensures { (i : Inputs) (w : Means) (c : DeskCall) (p q : Stand) (before : List ℕ) (m : Memory) (x : Beside) → GoesBy i w → SitsAt p before m x → MayCall c p m x → CallTo w c p q → Leads (call i (place_at w p) (state_in m x) (plain_of c)) (c ∷ []) p q before m x × (q.core.view.left ≡ p.core.view.left - uses (plain_of c) (call i (place_at w p) (state_in m x) (plain_of c))) × (pay_call i (place_at w p) (state_in m x) p.core.view.left (plain_of c) ≡ record { step = call i (place_at w p) (state_in m x) (plain_of c); left = Some q.core.view.left }) }
{}

/// A call of a desk stops where the plain run's call can't be paid, and has done nothing but that a flight fell which it
/// was to finish.
pub fn a_stop_is_the_plain_stop()
    ensures { (w : Means) (c : DeskCall) (p q : Stand) (before : List ℕ) (m : Memory) (x : Beside) → SitsAt p before m x → StopTo w c p q → (p.core.view.left < needs c) × FallsBy c p q × ((i : Inputs) (at : Place) (s : State) → pay_call i at s p.core.view.left (plain_of c) ≡ record { step = tells s []; left = None }) }
{}

/// The calls of a desk are the plain run's calls, each of which could be paid.
pub fn calls_are_the_plain_calls()
    ensures { (i : Inputs) (w : Means) (calls : List DeskCall) (p q : Stand) (before : List ℕ) (m : Memory) (x : Beside) → GoesBy i w → SitsAt p before m x → MayCalls calls p m x → CallsTo w calls p q → Leads (each (call i (place_at w p)) (state_in m x) (map plain_of calls)) calls p q before m x × (each_paid (pay_call i (place_at w p)) (state_in m x) p.core.view.left (map plain_of calls) ≡ record { step = each (call i (place_at w p)) (state_in m x) (map plain_of calls); left = Some q.core.view.left }) }
{}

/// The calls of a desk of which one stops are those of the plain run that could be paid.
pub fn stopped_calls_are_the_plain_stop()
    ensures { (i : Inputs) (w : Means) (calls : List DeskCall) (p q : Stand) (before : List ℕ) (m : Memory) (x : Beside) → GoesBy i w → SitsAt p before m x → MayCalls calls p m x → StopsTo w calls p q → Stops (each_paid (pay_call i (place_at w p)) (state_in m x) p.core.view.left (map plain_of calls)) calls p q before m x }
{}

/// Where all flights of a desk have ended the lane has none in the plain run.
pub fn ended_flights_are_gone()
    ensures { (p : Stand) (b : Core) (e : DeskView) (before : List ℕ) (m : Memory) (x : Beside) → SitsAt p before m x → EndsAll p.core b p.desk e → Leads (tells (record (state_in m x) { flights = slice_set x.flights p.core.lane [] }) []) [] p (record { core = b; desk = e; keeper = p.keeper }) before m x }
{}

/// A lane that stopped for want of units, and whose flights have then ended, is settled as in the plain run.
pub fn a_spent_lane_is_settled()
    ensures { (i : Inputs) (w : Means) (calls : List DeskCall) (p q : Stand) (b : Core) (e : DeskView) (before : List ℕ) (m : Memory) (x : Beside) → GoesBy i w → SitsAt p before m x → MayCalls calls p m x → StopsTo w calls p q → EndsAll q.core b q.desk e → Leads (settled p.core.lane (each_paid (pay_call i (place_at w p)) (state_in m x) p.core.view.left (map plain_of calls))).step calls p (record { core = b; desk = e; keeper = q.keeper }) before m x }
{}

/// Calls lose no request: a desk has as many of each number as it had, and those that were submitted.
pub fn calls_keep_the_requests()
    ensures { (w : Means) (calls : List DeskCall) (p q : Stand) → CallsTo w calls p q → (req : ℕ) → times req q.desk ≡ times req p.desk + count_by (λ n. n == req) (flat_map submitted_by calls) }
{}
