//! Where the units of a run are enough. The functions do nothing: each one's contract is a law.

ghost use Rattle.std.specs.Prelude.{◌≡◌, ◌+◌, ◌<◌, ◌≤◌, ℕ, List, Ok, length};
ghost use Rattle.std.specs.List.{AllByRecursion};
ghost use Rattle.mp_record.specs.RunView.{RunView};
ghost use Rattle.mp_script.specs.declared.script.LanePlan.{LanePlan};
ghost use Rattle.mp_legal.specs.Enough.{CanPay, units_used};
ghost use Rattle.mp_legal.specs.Fitting.{AreRead};
ghost use Rattle.mp_legal.specs.PlainCall.{Inputs};
ghost use Rattle.mp_legal.specs.PlainRun.{plain_run};
ghost use Rattle.mp_legal.specs.RunCalls.{calls_by, run_calls};
ghost use Rattle.mp_legal.specs.Units.{needs, serial_run, uses};

use mp_policy::laws::what_is_chosen_is_usable;

/// Where the allowance pays for the calls of each lane and of the drain, in their order, no lane is spent: the run is
/// the plain run.
pub fn units_are_enough()
    ensures { (allowance : ℕ) (i : Inputs) (lanes : List LanePlan) → length lanes ≤ 16 → ((lane : ℕ) → lane < 17 → CanPay allowance (calls_by lane (run_calls i lanes))) → serial_run allowance i lanes ≡ Ok (plain_run i lanes) }
{}

/// No other allowance is enough: where there is a run, the allowance pays for the calls of each lane and of the drain.
pub fn runs_are_paid_for()
    ensures { (allowance : ℕ) (i : Inputs) (lanes : List LanePlan) (run : RunView) → length lanes ≤ 16 → serial_run allowance i lanes ≡ Ok run → (lane : ℕ) → lane < 17 → CanPay allowance (calls_by lane (run_calls i lanes)) }
{}

/// Sixteen units more than the calls of each lane and of the drain use are enough.
pub fn sixteen_more_are_enough()
    ensures { (allowance : ℕ) (i : Inputs) (lanes : List LanePlan) → length lanes ≤ 16 → ((lane : ℕ) → lane < 17 → units_used (calls_by lane (run_calls i lanes)) + 16 ≤ allowance) → serial_run allowance i lanes ≡ Ok (plain_run i lanes) }
{}

/// Sixteen units more than all calls of the run use are enough.
pub fn sixteen_more_than_all_are_enough()
    ensures { (allowance : ℕ) (i : Inputs) (lanes : List LanePlan) → length lanes ≤ 16 → units_used (run_calls i lanes) + 16 ≤ allowance → serial_run allowance i lanes ≡ Ok (plain_run i lanes) }
{}

/// Each call of a run uses at most the units that it needs.
pub fn calls_use_at_most_their_needs()
    ensures { (i : Inputs) (lanes : List LanePlan) → AreRead i → AllByRecursion (λ c. uses c.done c.step ≤ needs c.done) (run_calls i lanes) }
{
    what_is_chosen_is_usable();
}
