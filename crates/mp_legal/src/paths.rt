//! Paths fit in each state of a run, and the history of each slot follows. The functions do nothing: each one's contract
//! is a law.

ghost use Rattle.std.specs.Prelude.{◌≡◌, ◌∷◌, ◌++◌, ◌*◌, true, false, ℕ, List, length, map};
ghost use Rattle.std.specs.List.{AllByRecursion, enumerate_from, list_any};
ghost use Rattle.mp_words.specs.declared.entry.KeepEntry.TheVariants as keep;
ghost use Rattle.mp_script.specs.declared.script.LanePlan.{LanePlan};
ghost use Rattle.mp_script.specs.declared.script.Script.{Script};
ghost use Rattle.mp_script.specs.declared.script.World.{World};
ghost use Rattle.mp_script.specs.Facts.{IsOver};
ghost use Rattle.mp_topology.specs.Facts.{IsTopology};
ghost use Rattle.mp_policy.specs.Choices.{has_usable};
ghost use Rattle.mp_legal.specs.Enough.{lists};
ghost use Rattle.mp_legal.specs.Fitting.{AreRead, EntryFits, FreesIdle, IsHistory, PathsFit, TellsFlips, unlistings};
ghost use Rattle.mp_legal.specs.Inputs.{inputs_for};
ghost use Rattle.mp_legal.specs.Opening.{first_order, opening, opening_entry};
ghost use Rattle.mp_legal.specs.PlainCall.{Inputs};
ghost use Rattle.mp_legal.specs.PlainRun.{plain_run, rows_in, state_left};
ghost use Rattle.mp_legal.specs.PlainState.{paths_of};
ghost use Rattle.mp_legal.specs.RunCalls.{Called, orders_made, rows_made, run_calls};
ghost use Rattle.mp_legal.specs.Unnamed.{stays_usable};

use mp_page::laws::stated_state_is_in_range;
use mp_policy::laws::{none_is_chosen_where_none_is_usable, what_is_chosen_is_usable};

/// What the readers give is read.
pub fn worlds_are_read()
    ensures { (world : World) (script : Script) → IsTopology world.topology → AreRead (inputs_for world script) }
{
    stated_state_is_in_range();
}

/// The history of each slot is its opening and what the calls of the run made, in their order.
pub fn calls_make_the_rows()
    ensures { (i : Inputs) (lanes : List LanePlan) → (plain_run i lanes).rows ≡ map (rows_in (rows_made (run_calls i lanes))) (map opening_entry (enumerate_from 0 (opening i).rows)) }
{}

/// The history of the list is that of the opening and those that the calls of the run made, in their order.
pub fn calls_make_the_lists()
    ensures { (i : Inputs) (lanes : List LanePlan) → (plain_run i lanes).keeping ≡ map keep.Order (first_order i ∷ orders_made (run_calls i lanes)) }
{}

/// In each state, at the opening, before and after each call of each turn and of the drain, and at the end, at most eight
/// paths are listed, each once, and each controller has at most one path that isn't freed.
pub fn paths_fit_in_each_state()
    ensures { (i : Inputs) (lanes : List LanePlan) → AreRead i → PathsFit (opening i) × AllByRecursion (λ c. PathsFit c.before × PathsFit c.step.state) (run_calls i lanes) × PathsFit (state_left i lanes) }
{
    what_is_chosen_is_usable();
}

/// Each list of paths of a run has at most eight paths, each once.
pub fn lists_fit()
    ensures { (i : Inputs) (lanes : List LanePlan) → AreRead i → AllByRecursion EntryFits (plain_run i lanes).keeping }
{
    what_is_chosen_is_usable();
}

/// A slot that is freed has no flight on it.
pub fn freed_slots_are_idle()
    ensures { (i : Inputs) (lanes : List LanePlan) → AllByRecursion (λ c. AllByRecursion (FreesIdle c.before) c.step.rows) (run_calls i lanes) }
{}

/// The history of each slot follows: each row is the effect of its operation on the row before, versions 0, 1, 2 and so
/// on; a path is given to a free slot alone, and only a marked one is freed.
pub fn histories_follow()
    ensures { (i : Inputs) (lanes : List LanePlan) → AreRead i → AllByRecursion IsHistory (plain_run i lanes).rows }
{
    what_is_chosen_is_usable();
}

/// After each call the flips are twice the lists by which a slot left the list so far.
pub fn flips_are_twice_the_unlistings()
    ensures { (i : Inputs) (lanes : List LanePlan) (before behind : List Called) (c : Called) → AreRead i → run_calls i lanes ≡ before ++ c ∷ behind → c.step.state.flips ≡ 2 * unlistings (opening i).order (orders_made before ++ c.step.orders) }
{
    what_is_chosen_is_usable();
}

/// What a freed slot tells of flips is their number.
pub fn freed_slots_tell_the_flips()
    ensures { (i : Inputs) (lanes : List LanePlan) → AllByRecursion (λ c. AllByRecursion (TellsFlips c.step.state.flips) c.step.events) (run_calls i lanes) }
{}

/// A request is listed only where no listed path is usable.
pub fn listed_tries_find_no_usable_path()
    ensures { (i : Inputs) (lanes : List LanePlan) → AllByRecursion (λ c. lists c ≡ true → has_usable (paths_of c.before) ≡ false) (run_calls i lanes) }
{
    none_is_chosen_where_none_is_usable();
}

/// Where an opening path's controller is live and without ANA, and no line changes its state, ends its timeout or
/// removes its path, some listed path is usable before each call of the run.
pub fn untouched_paths_stay_usable()
    ensures { (world : World) (script : Script) → IsTopology world.topology → IsOver world.topology (length world.pages) script → list_any (stays_usable world.topology script.lanes) world.topology.opening ≡ true
        → AllByRecursion (λ c. has_usable (paths_of c.before) ≡ true) (run_calls (inputs_for world script) script.lanes) }
{}
