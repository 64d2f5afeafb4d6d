//! The checks of one line.

ghost use Rattle.std.specs.Prelude.{◌≡◌, true, false, unwrap_or, OnOk};
ghost use Rattle.mp_checks.specs.Checks.{Reads};
ghost use Rattle.mp_script.specs.Shape.{shape};
ghost use Rattle.mp_script.specs.Wording.{has_numbers, is_named};
ghost use Rattle.mp_script.specs.Numbers.{AreNumbers, ctrl_of};
ghost use Rattle.mp_script.specs.Before.{Before, answer_of};
ghost use Rattle.mp_script.specs.Lines.{stands, is_keepers, is_within, shape_checks};
ghost use Rattle.mp_script.specs.Building.{IsEarlier, has_some};

use crate::earlier::{Earlier, begins_lane, repeats};
use crate::errors::ScriptError;
use crate::numbers::Numbers;
use crate::setting::Setting;
use crate::shapes::LineShape;
use crate::wording::{has_numbers, is_named, is_submitted};
use mp_words::numbers::Ctrl;

/// Whether the line is one of the first 65,536 and begins one of the first sixteen lanes, if any.
fn is_within(number: u32, lanes: u32, line: &LineShape<'_>) -> bool
    ensures { result ≡ is_within number lanes (shape line.now) }
{
    number <= 65536 && !(begins_lane(line) && lanes >= 16)
}

/// Whether the line stands where it may, after so many lanes have begun.
fn stands(lanes: u32, line: &LineShape<'_>) -> bool
    ensures { result ≡ stands lanes (shape line.now) }
{
    match *line {
        LineShape::Skipped | LineShape::Lane | LineShape::Keeper => true,
        LineShape::Unknown => false,
        LineShape::Answer(..) => lanes == 0,
        _ => lanes != 0,
    }
}

/// Whether the line may stand in the keeper's lane alone.
fn is_keepers(line: &LineShape<'_>) -> bool
    ensures { result ≡ is_keepers (shape line.now) }
{
    matches!(
        *line,
        LineShape::Add(..) | LineShape::Remove(_) | LineShape::Reap | LineShape::Policy(_)
    )
}

/// The checks of one line, in order.
#[tactic(auto, unfolding(crate::specs::Lines::shape_checks))]
pub(crate) fn check_line(
    setting: &Setting<'_>,
    earlier: &Earlier,
    number: u32,
    line: &LineShape<'_>,
    numbers: &Numbers,
    ctrl: &Option<Ctrl>,
) -> Result<(), ScriptError>
    requires given { AreNumbers numbers.now (shape line.now) }
    requires place { ctrl.now ≡ ctrl_of setting.now.topology.now.controllers (shape line.now) }
    ensures read { (b : Before) → IsEarlier earlier.now b → Reads ScriptError.NoMemory result (shape_checks setting.now.topology.now setting.now.pages (unwrap_or setting.now.submits earlier.now.submitted) b number (shape line.now)) tt }
    ensures within { OnOk result (is_within number earlier.now.lanes (shape line.now) ≡ true) }
    ensures numbers { OnOk result (has_numbers setting.now.topology.now.near.nodes (shape line.now) ≡ true) }
    ensures named { OnOk result (is_named setting.now.topology.now.controllers setting.now.pages (shape line.now) ≡ true) }
    ensures fresh { OnOk result (has_some (answer_of (shape line.now)) earlier.now.answered ≡ false) }
{
    let nodes = setting.nodes();
    if !is_within(number, earlier.lanes, line) {
        return Err(ScriptError::Limit(number));
    }
    if !stands(earlier.lanes, line) {
        return Err(ScriptError::Line(number));
    }
    if is_keepers(line) && !earlier.in_keeper {
        return Err(ScriptError::NotKeeper(number));
    }
    if !has_numbers(nodes, line, numbers) {
        return Err(ScriptError::Number(number));
    }
    let named = is_named(setting, line, numbers, ctrl);
    if !(named && is_submitted(setting, &earlier.submitted, line, numbers)) {
        return Err(ScriptError::Unknown(number));
    }
    if repeats(earlier, nodes, line, numbers) {
        return Err(ScriptError::Repeat(number));
    }
    Ok(())
}
