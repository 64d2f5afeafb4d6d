//! What a list of checks says, in words of its own.

ghost use Rattle.std.specs.Prelude.{◌≡◌, ◌↔◌, ℕ, Bool, List, Some, None};
ghost use Rattle.mp_checks.specs.Checks.{IsLeast, IsFirst, each_from, first_fault, AllPass};

/// The refusal is that of the first check that fails: all checks before it pass.
pub fn fault_is_first()
    ensures { (checks : List (Bool × ℕ)) (fault : ℕ) → (first_fault checks ≡ Some fault) ↔ IsFirst checks fault }
{}

/// There is no refusal where all checks pass, and only there.
pub fn no_fault_where_all_pass()
    ensures { (checks : List (Bool × ℕ)) → (first_fault checks ≡ None) ↔ AllPass checks }
{}

/// In checks of each item in turn, a fault is the least pair of item and check that fails.
pub fn each_is_least()
    ensures { (f : ℕ → ℕ → List (Bool × ℕ)) (xs : List ℕ) (fault : ℕ) → first_fault (each_from f 0 xs) ≡ Some fault → IsLeast f xs fault }
{}
