//! How many units a run needs at most. The functions do nothing: each one's contract is a law.

ghost use Rattle.std.specs.Prelude.{◌≡◌, ◌+◌, ◌*◌, ◌≤◌, ℕ, List, Ok, length};
ghost use Rattle.mp_topology.specs.Facts.{IsTopology};
ghost use Rattle.mp_script.specs.Distinct.{IsDistinct};
ghost use Rattle.mp_script.specs.Facts.{IsScript, IsOver, submits_in};
ghost use Rattle.mp_script.specs.declared.script.LanePlan.{LanePlan};
ghost use Rattle.mp_script.specs.declared.script.Script.{Script};
ghost use Rattle.mp_script.specs.declared.script.World.{World};
ghost use Rattle.mp_legal.specs.Enough.{listings};
ghost use Rattle.mp_legal.specs.Fitting.{AreRead};
ghost use Rattle.mp_legal.specs.PlainCall.{Inputs};
ghost use Rattle.mp_legal.specs.PlainRun.{plain_run, run_over};
ghost use Rattle.mp_legal.specs.RunCalls.{run_calls};
ghost use Rattle.mp_legal.specs.Units.{serial_over, serial_run};
ghost use Rattle.mp_run.specs.Bound.{lines_bound, requeues, units_bound};

use mp_legal::paths::{
    listed_tries_find_no_usable_path, untouched_paths_stay_usable, worlds_are_read,
};
use mp_legal::units::{calls_use_at_most_their_needs, sixteen_more_than_all_are_enough};
use mp_policy::laws::none_is_chosen_where_none_is_usable;

/// A run lists each request for want of a usable path at most at its submit, at each line that takes the list, and
/// twice in the drain.
pub fn listings_are_few()
    ensures { (i : Inputs) (lanes : List LanePlan) → length lanes ≤ 16 → IsDistinct (submits_in lanes) → listings (run_calls i lanes) ≤ (requeues lanes + 3) * length (submits_in lanes) }
{
    none_is_chosen_where_none_is_usable();
}

/// Where the bound of its lines is within the allowance, no lane and no drain of a run is spent, and the run is the
/// plain run.
pub fn runs_within_the_bound_of_their_lines_are_not_spent()
    ensures { (allowance : ℕ) (i : Inputs) (lanes : List LanePlan) → AreRead i → length lanes ≤ 16 → IsDistinct (submits_in lanes) → lines_bound i lanes ≤ allowance → serial_run allowance i lanes ≡ Ok (plain_run i lanes) }
{
    calls_use_at_most_their_needs();
    sixteen_more_than_all_are_enough();
    none_is_chosen_where_none_is_usable();
}

/// Where its bound is within the allowance, no lane and no drain of a run is spent, and the run is the plain run. The
/// bound is a number of the script's text and the opening alone.
pub fn runs_within_their_bound_are_not_spent()
    ensures { (allowance : ℕ) (world : World) (script : Script) → IsTopology world.topology → IsScript script → IsOver world.topology (length world.pages) script → units_bound world script ≤ allowance → serial_over allowance world script ≡ Ok (run_over world script) }
{
    worlds_are_read();
    calls_use_at_most_their_needs();
    sixteen_more_than_all_are_enough();
    listed_tries_find_no_usable_path();
    untouched_paths_stay_usable();
    none_is_chosen_where_none_is_usable();
}
