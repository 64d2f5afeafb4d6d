//! What the desks of the lanes keep from turn to turn of the plain run, where the words are told. The functions do
//! nothing: each one's contract is a law.

ghost use Rattle.std.specs.Prelude.{◌≡◌, [], ℕ, List, false, map};
ghost use Rattle.std.specs.List.{AllByRecursion};
ghost use Rattle.mp_script.specs.Distinct.{IsDistinct};
ghost use Rattle.mp_words.specs.RequestView.{RequestView};
ghost use Rattle.mp_core.specs.Memory.{Memory};
ghost use Rattle.mp_keep.specs.Keeper.{KeeperView};
ghost use Rattle.mp_desk.specs.declared.flying.Flying.{Flying};
ghost use Rattle.mp_desk.specs.DeskView.{flying_with};
ghost use Rattle.mp_desk.specs.Calls.{DeskCall, Stand, finish, submit};
ghost use Rattle.mp_legal.specs.Numbers.{has_req};
ghost use Rattle.mp_legal.specs.PlainCall as plain;
ghost use Rattle.mp_legal.specs.PlainLine.{flights_of, flights_with};
ghost use Rattle.mp_legal.specs.Stepped.{Stepped};
ghost use Rattle.mp_legal.specs.ToldDesks.{SitsAt, MaySubmit, MayCalls, Leads, IsNext, AreElsewhere, IsSameIn, plain_of, with_request, with_waiting, once_listed};
ghost use Rattle.mp_legal.specs.ToldKeeper.{KeepsAt};
ghost use Rattle.mp_legal.specs.ToldState.{Beside, state_in};

/// A desk has the flights that the plain run has of its lane, and of each request.
pub fn a_desk_has_the_lanes_flights()
    ensures { (p : Stand) (before : List ℕ) (m : Memory) (x : Beside) → SitsAt p before m x → (flights_of p.core.lane (state_in m x) ≡ map (λ f. f.flight) p.desk.flying) × ((req : ℕ) → flights_with req (flights_of p.core.lane (state_in m x)) ≡ map (λ f. f.flight) (flying_with req p.desk.flying)) }
{}

/// Finishes may be made of whatever flights, and are those of the plain run.
pub fn finishes_may_be_made()
    ensures { (p : Stand) (m : Memory) (x : Beside) (flying : List Flying) → MayCalls (map finish flying) p m x × (map plain_of (map finish flying) ≡ map plain.finish (map (λ f. f.flight) flying)) }
{}

/// Submits may be made of requests that each may be submitted and are distinct, and are those of the plain run.
pub fn submits_may_be_made()
    ensures { (p : Stand) (m : Memory) (x : Beside) (requests : List RequestView) → AllByRecursion (λ r. MaySubmit r p x) requests → IsDistinct (map (λ r. r.id) requests) → MayCalls (map submit requests) p m x × (map plain_of (map submit requests) ≡ map plain.submit (map (λ r. r.id) requests)) }
{}

/// A request with a number that the run hasn't may be submitted once it stands in the run, where the lane sits as
/// before, and no other request is changed.
pub fn a_new_request_may_be_submitted()
    ensures { (p : Stand) (before : List ℕ) (m : Memory) (x : Beside) (r : RequestView) → SitsAt p before m x → r.tries ≡ [] → has_req r.id x.requests ≡ false → SitsAt p before m (with_request r x) × MaySubmit r p (with_request r x) × ((req : ℕ) → (req ≡ r.id → ⊥) → IsSameIn req x (with_request r x)) }
{}

/// A lane that has nothing to list sits at its desk whatever is listed.
pub fn a_list_is_taken()
    ensures { (p : Stand) (before : List ℕ) (m : Memory) (x : Beside) (waiting : List ℕ) → SitsAt p before m x → p.desk.out ≡ [] → SitsAt p waiting m (with_waiting waiting x) }
{}

/// A lane whose requests were listed sits at its desk.
pub fn a_list_is_given()
    ensures { (p : Stand) (before : List ℕ) (m : Memory) (x : Beside) → SitsAt p before m x → SitsAt (once_listed p) x.waiting m x }
{}

/// A lane elsewhere that has nothing to list still sits at its desk, where none of the calls was about its requests.
pub fn the_other_lanes_still_sit()
    ensures { (step : Stepped) (calls : List DeskCall) (p q r s : Stand) (before since : List ℕ) (m : Memory) (x : Beside) → (l : Leads step calls p q before m x) → SitsAt r since m x → (r.core.lane ≡ p.core.lane → ⊥) → r.desk.out ≡ [] → AreElsewhere calls r.desk → IsNext q r s → SitsAt s l.beside.waiting l.memory l.beside }
{}

/// A keeper agrees with a run whatever flies in it, waits and stands in it.
pub fn a_keeper_looks_at_no_request()
    ensures { (k : KeeperView) (m : Memory) (x y : Beside) → KeepsAt k (state_in m x) → y.removals ≡ x.removals → y.flips ≡ x.flips → KeepsAt k (state_in m y) }
{}
