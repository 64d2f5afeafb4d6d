//! The keeper's calls are steps of the plain run, where the words are told. The functions do nothing: each one's contract
//! is a law.

ghost use Rattle.std.specs.Prelude.{◌≡◌, ◌∷◌, [], ℕ, List, Result, map};
ghost use Rattle.mp_words.specs.Effect.{IsState};
ghost use Rattle.mp_words.specs.declared.entry.OrderEntry.{OrderEntry};
ghost use Rattle.mp_words.specs.declared.entry.RowEntry.{RowEntry};
ghost use Rattle.mp_words.specs.declared.op.Gift.{Gift};
ghost use Rattle.mp_words.specs.declared.row.Policy.{Policy};
ghost use Rattle.mp_record.specs.declared.event.Event.TheVariants as event;
ghost use Rattle.mp_record.specs.declared.event.Said.TheVariants as said;
ghost use Rattle.mp_core.specs.Core.{Core};
ghost use Rattle.mp_core.specs.Memory.{Memory};
ghost use Rattle.mp_keep.specs.declared.added.Added.{Added};
ghost use Rattle.mp_keep.specs.declared.add_error.AddError.{AddError};
ghost use Rattle.mp_keep.specs.declared.reaped.Reaped.{Reaped};
ghost use Rattle.mp_keep.specs.declared.remove_error.RemoveError.{RemoveError};
ghost use Rattle.mp_keep.specs.Keeper.{KeeperView, StandsTo};
ghost use Rattle.mp_keep.specs.Keeps.{Adds, Removes, SetsPolicy};
ghost use Rattle.mp_keep.specs.Walks.{Reaps, entries_of};
ghost use Rattle.mp_legal.specs.PlainKeep.{added, policy_set, reaped, removed};
ghost use Rattle.mp_legal.specs.Stepped.{Place, maker_of};
ghost use Rattle.mp_legal.specs.ToldKeeper.{IsKeeperStep, KeepsAt, NobodyInside, added_said, entry_added, entry_marked, marked_said, reaped_said};
ghost use Rattle.mp_legal.specs.ToldState.{Beside, IsAt, state_in};

/// An add is the plain run's add. The ANA state is from 1 to 15, as the call itself requires.
pub fn add_is_the_plain_step()
    ensures { (at : Place) (gift : Gift) (k l : KeeperView) (a b : Core) (answer : Result Added AddError) (m : Memory) (x : Beside) → Adds k l a b gift (maker_of at) answer → IsAt a m x → StandsTo k a.view → KeepsAt k (state_in m x) → IsState gift.state → IsKeeperStep (added at (state_in m x) gift) k l a b x (entry_added answer) (event.At at.line (added_said answer) ∷ []) }
{}

/// The begin of a removal is the plain run's.
pub fn remove_is_the_plain_step()
    ensures { (at : Place) (ctrl : ℕ) (k l : KeeperView) (a b : Core) (answer : Result RowEntry RemoveError) (m : Memory) (x : Beside) → Removes k l a b ctrl (maker_of at) answer → IsAt a m x → StandsTo k a.view → KeepsAt k (state_in m x) → IsKeeperStep (removed at (state_in m x) ctrl) k l a b x (entry_marked answer) (map (event.At at.line) (marked_said answer)) }
{}

/// A change of the policy is the plain run's.
pub fn policy_is_the_plain_step()
    ensures { (at : Place) (policy : Policy) (k l : KeeperView) (a b : Core) (entry : OrderEntry) (m : Memory) (x : Beside) → SetsPolicy k l a b policy (maker_of at) entry → IsAt a m x → StandsTo k a.view → KeepsAt k (state_in m x) → IsKeeperStep (policy_set at (state_in m x) policy) k l a b x [] (event.At at.line (said.Policy entry.order.version) ∷ []) }
{}

/// A reap is the plain run's, where nobody is inside a side.
pub fn reap_is_the_plain_step()
    ensures { (at : Place) (k l : KeeperView) (a b : Core) (answer : Reaped) (m : Memory) (x : Beside) → Reaps k l a b (maker_of at) answer → IsAt a m x → NobodyInside m → StandsTo k a.view → KeepsAt k (state_in m x) → IsKeeperStep (reaped at (state_in m x)) k l a b x (entries_of answer) (event.At at.line (reaped_said answer) ∷ []) }
{}
