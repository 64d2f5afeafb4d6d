//! Whether the words of a line are numbers and names as they should be.

ghost use Rattle.std.specs.Prelude.{◌≡◌, true, unwrap_or};
ghost use Rattle.mp_script.specs.Shape.{shape};
ghost use Rattle.mp_script.specs.Wording.{has_numbers, is_named, is_submitted};
ghost use Rattle.mp_script.specs.Numbers.{AreNumbers, ctrl_of, is_below};

use crate::numbers::Numbers;
use crate::requests::Requests;
use crate::setting::Setting;
use crate::shapes::{LineShape, is_word};
use crate::splitting::{is_in, is_status, request_of};
use mp_words::names::{cstate_named, policy_named};
use mp_words::numbers::Ctrl;

/// The controller that a line names, which is looked up once.
#[tactic(auto, unfolding(crate::specs::Numbers::ctrl_of))]
pub(crate) fn ctrl_of<'a>(setting: &Setting<'a>, line: &LineShape<'a>) -> Option<Ctrl>
    ensures { result ≡ ctrl_of setting.now.topology.now.controllers (shape line.now) }
{
    match *line {
        LineShape::Log(c, _) => setting.find(c),
        LineShape::Ctrl(c, _) => setting.find(c),
        LineShape::Anatt(c) => setting.find(c),
        LineShape::Add(c, _) => setting.find(c),
        LineShape::Remove(c) => setting.find(c),
        _ => None,
    }
}

/// Whether a number is there, below `nodes`.
fn is_below(nodes: u32, number: Option<u64>) -> bool
    ensures { result ≡ is_below nodes number }
{
    match number {
        Some(n) => n < u64::from(nodes),
        None => false,
    }
}

/// Whether the numbers of a line are numbers, and in their ranges.
#[tactic(auto, unfolding(crate::specs::Wording::has_numbers, crate::specs::Wording::is_node))]
pub(crate) fn has_numbers(nodes: u32, line: &LineShape<'_>, numbers: &Numbers) -> bool
    requires { AreNumbers numbers.now (shape line.now) }
    ensures { result ≡ has_numbers nodes (shape line.now) }
{
    match *line {
        LineShape::Answer(_, _, s) => {
            is_in(0, 65535, numbers.first) && is_in(1, 65535, numbers.second) && is_status(s)
        }
        LineShape::Submit(..) => is_in(0, 65535, numbers.first) && is_below(nodes, numbers.second),
        LineShape::Finish(r) => is_word(r, "all") || is_in(0, 65535, numbers.first),
        LineShape::Log(..) => numbers.second.is_some(),
        LineShape::Add(_, k) => is_word(k, "-") || numbers.second.is_some(),
        _ => true,
    }
}

/// Whether what a line names is there, but for the requests that it finishes.
#[tactic(auto, unfolding(crate::specs::Wording::is_named, crate::specs::Wording::is_there, crate::specs::Wording::has_ana, crate::specs::Wording::has_box, crate::specs::Numbers::ctrl_of))]
pub(crate) fn is_named(
    setting: &Setting<'_>,
    line: &LineShape<'_>,
    numbers: &Numbers,
    ctrl: &Option<Ctrl>,
) -> bool
    requires numbers { AreNumbers numbers.now (shape line.now) }
    requires ctrl { ctrl.now ≡ ctrl_of setting.now.topology.now.controllers (shape line.now) }
    ensures { result ≡ is_named setting.now.topology.now.controllers setting.now.pages (shape line.now) }
{
    match *line {
        LineShape::Log(..) => {
            ctrl.is_some() && setting.has_ana(ctrl) && setting.has_box(numbers.second)
        }
        LineShape::Ctrl(_, s) => ctrl.is_some() && cstate_named(s).is_some(),
        LineShape::Anatt(_) => ctrl.is_some(),
        LineShape::Add(_, k) => {
            ctrl.is_some()
                && if is_word(k, "-") {
                    !setting.has_ana(ctrl)
                } else {
                    setting.has_ana(ctrl) && setting.has_box(numbers.second)
                }
        }
        LineShape::Remove(_) => ctrl.is_some(),
        LineShape::Policy(p) => policy_named(p).is_some(),
        _ => true,
    }
}

/// Whether some line of the text submits the request that a line finishes: where that isn't known, whether it is one of
/// those so far.
#[tactic(auto, unfolding(crate::specs::Wording::is_submitted, crate::specs::Wording::has_numbers))]
pub(crate) fn is_submitted(
    setting: &Setting<'_>,
    so_far: &Requests,
    line: &LineShape<'_>,
    numbers: &Numbers,
) -> bool
    requires given { AreNumbers numbers.now (shape line.now) }
    requires right { has_numbers setting.now.topology.now.near.nodes (shape line.now) ≡ true }
    ensures { result ≡ is_submitted (unwrap_or setting.now.submits so_far.now) (shape line.now) }
{
    match *line {
        LineShape::Finish(r) => {
            is_word(r, "all") || setting.is_submitted(so_far, request_of(numbers.first))
        }
        _ => true,
    }
}
