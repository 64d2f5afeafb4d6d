//! What the choices mean, in the subject's own words, for all lists of paths.

ghost use Rattle.std.specs.Prelude.{◌≡◌, ◌↔◌, ℕ, List, Option, Some, None, false};
ghost use Rattle.mp_words.specs.declared.near.Near.{Near};
ghost use Rattle.mp_words.specs.declared.path.Path.{Path};
ghost use Rattle.mp_policy.specs.Choices.{numa_choice, queue_depth_choice, round_robin_choice, has_usable};
ghost use Rattle.mp_policy.specs.Means.{IsNumaChoice, IsQueueDepthChoice, IsNearestChoice, IsNextChoice, IsUsableOf, IsWalk, is_listed};

/// Of the enabled optimized paths NUMA chooses the one of which none has a lesser distance, and none before it an
/// equal one; without an enabled optimized path the same holds of the enabled non-optimized ones.
pub fn numa_takes_the_first_of_the_nearest()
    ensures { (near : Near) (node : ℕ) (paths : List Path) (path : Path) → numa_choice near node paths ≡ Some path → IsNumaChoice near node paths path }
{}

/// Of the enabled optimized paths queue depth chooses the one of which none has fewer active commands, and none before
/// it as few; without an enabled optimized path the same holds of the enabled non-optimized ones.
pub fn queue_depth_takes_the_first_of_the_fewest()
    ensures { (depth : ℕ → ℕ) (paths : List Path) (path : Path) → queue_depth_choice depth paths ≡ Some path → IsQueueDepthChoice depth paths path }
{}

/// Where the last choice is listed, round robin walks from behind its path, round the end, to before it, and takes the
/// first of these that exists: the first enabled optimized path of the walk; the last choice, if it is enabled and
/// optimized; the last enabled non-optimized path of the walk; the last choice, if it is enabled and non-optimized.
pub fn round_robin_takes_the_next()
    ensures { (slot : ℕ) (paths walk : List Path) (last path : Path) → IsWalk slot paths walk last → round_robin_choice (Some slot) paths ≡ Some path → IsNextChoice last walk path }
{}

/// Without a listed last choice round robin takes the first enabled optimized path, else the first enabled
/// non-optimized one: the choice of NUMA at equal distances.
pub fn round_robin_begins_with_the_first()
    ensures { (last : Option ℕ) (paths : List Path) (path : Path) → is_listed last paths ≡ false → round_robin_choice last paths ≡ Some path → IsNearestChoice (λ other. 0) paths path }
{}

/// Each policy chooses no path exactly where none is usable.
pub fn none_is_chosen_where_none_is_usable()
    ensures numa { (near : Near) (node : ℕ) (paths : List Path) → (numa_choice near node paths ≡ None) ↔ (has_usable paths ≡ false) }
    ensures round_robin { (last : Option ℕ) (paths : List Path) → (round_robin_choice last paths ≡ None) ↔ (has_usable paths ≡ false) }
    ensures queue_depth { (depth : ℕ → ℕ) (paths : List Path) → (queue_depth_choice depth paths ≡ None) ↔ (has_usable paths ≡ false) }
{}

/// What a policy chooses is one of the paths, and usable.
pub fn what_is_chosen_is_usable()
    ensures numa { (near : Near) (node : ℕ) (paths : List Path) (path : Path) → numa_choice near node paths ≡ Some path → IsUsableOf paths path }
    ensures round_robin { (last : Option ℕ) (paths : List Path) (path : Path) → round_robin_choice last paths ≡ Some path → IsUsableOf paths path }
    ensures queue_depth { (depth : ℕ → ℕ) (paths : List Path) (path : Path) → queue_depth_choice depth paths ≡ Some path → IsUsableOf paths path }
{}
