//! What the definitions of a run say, in words of their own. The functions do nothing: each one's contract is a law.

ghost use Rattle.std.specs.Prelude.{◌≡◌, ◌≤◌, ℕ, ◌+◌, false, List, Ok, Err, IsOk, length};
ghost use Rattle.std.specs.List.{list_any, AllByRecursion};
ghost use Rattle.mp_checks.specs.Marks.{has};
ghost use Rattle.mp_script.specs.Distinct.{IsDistinct};
ghost use Rattle.mp_script.specs.Facts.{submits_in};
ghost use Rattle.mp_legal.specs.Numbers.{has_req};
ghost use Rattle.mp_run.specs.Told.{IsOver};
ghost use Rattle.mp_run.specs.Trails.{AreTold, IsScripted, all_events};
ghost use Rattle.mp_record.specs.RunView.{RunView};
ghost use Rattle.mp_script.specs.declared.script.LanePlan.{LanePlan};
ghost use Rattle.mp_legal.specs.CaseUnits as case;
ghost use Rattle.mp_legal.specs.PlainCall.{Inputs};
ghost use Rattle.mp_legal.specs.PlainRun.{plain_run};
ghost use Rattle.mp_legal.specs.PlainState.{State};
ghost use Rattle.mp_legal.specs.Drain.{round, rounds, rounds_from, most_rounds, is_sent};
ghost use Rattle.mp_run.specs.LastRound.{last_round, CanDrain};
ghost use Rattle.mp_legal.specs.Units.{serial_run};

/// The last round of a drain sends nothing, whatever the rows, the list and the scripted statuses: the bound of rounds
/// is never what ends them.
pub fn last_round_sends_nothing()
    ensures { (i : Inputs) (s : State) → CanDrain s → list_any is_sent (last_round i (most_rounds i s) (round i s)).events ≡ false }
{}

/// A greater bound of rounds changes nothing.
pub fn more_rounds_change_nothing()
    ensures { (i : Inputs) (s : State) (more : ℕ) → CanDrain s → rounds_from i (most_rounds i s + more) (round i s) ≡ rounds i s }
{}

/// A run for which the units are enough is the plain run, whatever the allowance is.
pub fn paid_run_is_the_plain_run()
    ensures { (allowance : ℕ) (i : Inputs) (lanes : List LanePlan) (run : RunView) → serial_run allowance i lanes ≡ Ok run → run ≡ plain_run i lanes }
{}

/// A run loses no request: in the end each that was submitted is done, failed or listed.
pub fn no_request_is_lost()
    ensures { (i : Inputs) (plans : List LanePlan) → length plans ≤ 16 → IsDistinct (submits_in plans) → AllByRecursion IsOver (plain_run i plans).requests }
{}

/// A run tells of the requests that its lanes submit, and of no others.
pub fn each_request_is_told()
    ensures { (i : Inputs) (plans : List LanePlan) (req : ℕ) → length plans ≤ 16 → has_req req (plain_run i plans).requests ≡ has (submits_in plans) req }
{}

/// A run tells each try of each request once, and its end once where it was sent, with how it went; and it tells of no
/// other.
pub fn each_try_is_told()
    ensures { (i : Inputs) (plans : List LanePlan) → length plans ≤ 16 → IsDistinct (submits_in plans) → AreTold (plain_run i plans).requests (all_events (plain_run i plans)) }
{}

/// A run leaves each request's tries as the script has them: each is made of a request that waits, one that was sent has
/// the statuses of its attempts and comes back where they fail over, and another has none.
pub fn attempts_are_those_of_the_tries()
    ensures { (i : Inputs) (plans : List LanePlan) → length plans ≤ 16 → IsDistinct (submits_in plans) → AllByRecursion (IsScripted i.answers) (plain_run i plans).requests }
{}

/// Three units are enough for two submits and the lane's end.
pub fn three_units_are_enough_for_two()
    ensures { IsOk (serial_run 3 case.inputs case.two_submits) }
{}

/// With three units a lane of three submits is spent: its end needs one more.
pub fn three_units_are_spent_by_three()
    ensures { serial_run 3 case.inputs case.three_submits ≡ Err 0 }
{}

/// Four units are enough for three submits and the lane's end.
pub fn four_units_are_enough_for_three()
    ensures { IsOk (serial_run 4 case.inputs case.three_submits) }
{}
