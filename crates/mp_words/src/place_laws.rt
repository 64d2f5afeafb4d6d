//! What it means that a slot or a path is found in a list.

ghost use Rattle.std.specs.Prelude.{◌≡◌, ◌==◌, ◌<◌, ◌++◌, ◌∷◌, ℕ, List, Some, None, true, false, length, get_or};
ghost use Rattle.std.specs.List.{list_any};
ghost use Rattle.mp_words.specs.declared.path.Path.{Path};
ghost use Rattle.mp_words.specs.Places.{place_of};
ghost use Rattle.mp_words.specs.PathTable.{has_ctrl, path_with, IsFirstWith};

/// The place of a slot is the first where it stands, and the length of the list where it doesn't stand.
pub fn slots_have_places()
    ensures stands { (slot : ℕ) (slots : List ℕ) → place_of slot slots < length slots → get_or slots (place_of slot slots) 0 ≡ slot }
    ensures first { (slot : ℕ) (slots : List ℕ) (k : ℕ) → k < length slots → ((j : ℕ) → j < k → (get_or slots j 0 == slot) ≡ false) → (get_or slots k 0 == slot) ≡ true → place_of slot slots ≡ k }
    ensures missing { (slot : ℕ) (slots : List ℕ) → ((j : ℕ) → j < length slots → (get_or slots j 0 == slot) ≡ false) → place_of slot slots ≡ length slots }
{}

/// The path that is found by its controller is the first of that controller, and there is one unless none is the
/// controller's.
pub fn paths_are_found()
    ensures first { (ctrl : ℕ) (paths : List Path) (path : Path) → path_with ctrl paths ≡ Some path → IsFirstWith ctrl paths path }
    ensures none { (ctrl : ℕ) (paths : List Path) → path_with ctrl paths ≡ None → list_any (has_ctrl ctrl) paths ≡ false }
{}
