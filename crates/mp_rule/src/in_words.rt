//! The rule, part by part, in a reader's words.

ghost use Rattle.std.specs.Prelude.{List};
ghost use Rattle.mp_core.specs.declared.view.Start.{Start};
ghost use Rattle.mp_core.specs.declared.view.View.{View};
ghost use Rattle.mp_core.specs.Memory.{Memory};
ghost use Rattle.mp_rule.specs.Holds.{Holds};
ghost use Rattle.mp_rule.specs.Parts.{SidesCount, RowsRecorded, OrderKept, DepthsCount, ScannedIsEmpty, MarkIsSeen, UnlistingIsSeen, ReuseIsSafe};

/// Each part of the rule follows from it.
pub fn the_rule_has_these_parts()
    ensures sides_count { (start : Start) (m : Memory) (views : List View) → Holds start m views → SidesCount m views }
    ensures rows_recorded { (start : Start) (m : Memory) (views : List View) → Holds start m views → RowsRecorded start m views }
    ensures order_kept { (start : Start) (m : Memory) (views : List View) → Holds start m views → OrderKept start m views }
    ensures depths_count { (start : Start) (m : Memory) (views : List View) → Holds start m views → DepthsCount start m views }
    ensures scanned_is_empty { (start : Start) (m : Memory) (views : List View) → Holds start m views → ScannedIsEmpty views }
    ensures mark_is_seen { (start : Start) (m : Memory) (views : List View) → Holds start m views → MarkIsSeen views }
    ensures unlisting_is_seen { (start : Start) (m : Memory) (views : List View) → Holds start m views → UnlistingIsSeen start m views }
    ensures reuse_is_safe { (start : Start) (m : Memory) (views : List View) → Holds start m views → ReuseIsSafe start m views }
{}
