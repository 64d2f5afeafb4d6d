//! When a keeper stands to its steps. The functions do nothing: each one's contract is a law.

ghost use Rattle.std.specs.Prelude.{ℕ, List, Option};
ghost use Rattle.mp_words.specs.declared.order.Order.{Order};
ghost use Rattle.mp_core.specs.declared.view.View.{View};
ghost use Rattle.mp_core.specs.Views.{cleared};
ghost use Rattle.mp_keep.specs.Keeper.{KeeperView, StandsTo, SameKeeping, IsNew, AtStart};

/// A new keeper stands to steps that began with its list of paths and its controllers.
pub fn a_new_keeper_stands()
    ensures { (order : Order) (owners : List (Option ℕ)) (k : KeeperView) (v : View) → IsNew order owners k → AtStart order owners v → StandsTo k v }
{}

/// A keeper stands to its steps as long as the keeper's part that it knows stays, whatever else its pass does.
pub fn a_keeper_still_stands()
    ensures { (k : KeeperView) (v w : View) → SameKeeping v w → StandsTo k v → StandsTo k w }
{}

/// A keeper stands to its steps after its pass cleared a current word.
pub fn a_clear_leaves_the_keeper()
    ensures { (k : KeeperView) (node slot : ℕ) (v : View) → StandsTo k v → StandsTo k (cleared node slot v) }
{}

/// A keeper stands to its steps however much room it has.
pub fn room_leaves_the_keeper()
    ensures { (k : KeeperView) (v : View) (room : ℕ) → StandsTo k v → StandsTo (record k { spare = room }) v }
{}
