//! The lanes of a text so far.

ghost use Rattle.std.specs.Prelude.{◌≡◌, ◌≤◌, true, false, codes, OnOk, ◌++◌, Some, is_some, option_map, unwrap_or};
ghost use Rattle.std.specs.Option.{option_to_list};
ghost use Rattle.mp_words.specs.Names.{policy_named, cstate_named};
ghost use Rattle.mp_script.specs.Splitting.{number_of};
ghost use Rattle.mp_script.specs.Shape.{shape, is_word};
ghost use Rattle.mp_script.specs.Wording.{has_numbers, is_named};
ghost use Rattle.mp_script.specs.Numbers.{AreNumbers, ctrl_of, is_from, is_below, is_box};
ghost use Rattle.mp_script.specs.Plans.{page_of, finish_of, line_of, numbered};
ghost use Rattle.mp_script.specs.Building.{with_lines, put_line, put};

use crate::earlier::{begins_lane, is_keeper};
use crate::numbers::Numbers;
use crate::script::{LanePlan, Line, Numbered1};
use crate::setting::Setting;
use crate::shapes::{LineShape, is_word};
use crate::splitting::request_of;
use mp_words::names::{cstate_named, policy_named};
use mp_words::numbers::{Ctrl, Node};
use mp_words::row::{CState, Policy};
use sqlite_items::Items;
use std::alloc::{AllocError, Global};
use std::mem;

/// The lanes that are over, and the one that isn't.
#[derive(Drop)]
pub(crate) struct Building {
    pub(crate) done: Items<LanePlan>,
    pub(crate) current: Option<LanePlan>,
}

fn node_of(setting: &Setting<'_>, number: Option<u64>) -> Node
    requires { is_below setting.now.topology.now.near.nodes number ≡ true }
    ensures { result ≡ unwrap_or number 0 }
{
    Node::make(number.unwrap_or(0) as u32).unwrap()
}

fn ctrl_in(ctrl: &Option<Ctrl>) -> Ctrl
    requires { is_some ctrl.now ≡ true }
    ensures { ctrl.now ≡ Some result }
{
    ctrl.unwrap()
}

fn state_of(word: &[u8]) -> CState
    requires { is_some (cstate_named word.now) ≡ true }
    ensures { cstate_named word.now ≡ Some result }
{
    cstate_named(word).unwrap()
}

fn policy_of(word: &[u8]) -> Policy
    requires { is_some (policy_named word.now) ≡ true }
    ensures { policy_named word.now ≡ Some result }
{
    policy_named(word).unwrap()
}

fn box_of(setting: &Setting<'_>, number: Option<u64>) -> u32
    requires { is_box setting.now.pages number ≡ true }
    ensures { result ≡ unwrap_or number 0 }
{
    number.unwrap_or(0) as u32
}

#[tactic(auto, unfolding(crate::specs::Plans::page_of))]
fn page_of(setting: &Setting<'_>, word: &[u8], number: Option<u64>) -> Option<u32>
    requires given { number ≡ number_of word.now }
    requires there { is_word word.now (codes "-") ≡ false → is_box setting.now.pages number ≡ true }
    ensures { result ≡ page_of word.now }
{
    if is_word(word, "-") {
        return None;
    }
    Some(box_of(setting, number))
}

#[tactic(auto, unfolding(crate::specs::Plans::finish_of))]
fn finish_of(word: &[u8], number: Option<u64>) -> Line
    requires given { number ≡ number_of word.now }
    requires small { is_word word.now (codes "all") ≡ false → is_from 0 65535 number ≡ true }
    ensures { result ≡ finish_of word.now }
{
    if is_word(word, "all") {
        return Line::FinishAll;
    }
    Line::Finish(request_of(number))
}

/// What a line of a lane asks for, whose words have passed the checks.
#[tactic(auto, unfolding(crate::specs::Plans::line_of, crate::specs::Wording::has_numbers, crate::specs::Wording::is_named, crate::specs::Wording::is_there, crate::specs::Wording::has_box, crate::specs::Wording::is_node, crate::specs::Numbers::ctrl_of))]
fn line_of(
    setting: &Setting<'_>,
    line: &LineShape<'_>,
    numbers: &Numbers,
    ctrl: &Option<Ctrl>,
) -> Option<Line>
    requires given { AreNumbers numbers.now (shape line.now) }
    requires place { ctrl.now ≡ ctrl_of setting.now.topology.now.controllers (shape line.now) }
    requires numbers { has_numbers setting.now.topology.now.near.nodes (shape line.now) ≡ true }
    requires named { is_named setting.now.topology.now.controllers setting.now.pages (shape line.now) ≡ true }
    ensures { result ≡ line_of setting.now.topology.now.controllers (shape line.now) }
{
    match *line {
        LineShape::Submit(..) => Some(Line::Submit(
            request_of(numbers.first),
            node_of(setting, numbers.second),
        )),
        LineShape::Finish(r) => Some(finish_of(r, numbers.first)),
        LineShape::Requeue => Some(Line::Requeue),
        LineShape::Log(..) => Some(Line::Log(ctrl_in(ctrl), box_of(setting, numbers.second))),
        LineShape::Ctrl(_, s) => Some(Line::Ctrl(ctrl_in(ctrl), state_of(s))),
        LineShape::Anatt(_) => Some(Line::Anatt(ctrl_in(ctrl))),
        LineShape::Add(_, k) => Some(Line::Add(ctrl_in(ctrl), page_of(setting, k, numbers.second))),
        LineShape::Remove(_) => Some(Line::Remove(ctrl_in(ctrl))),
        LineShape::Reap => Some(Line::Reap),
        LineShape::Policy(p) => Some(Line::Policy(policy_of(p))),
        _ => None,
    }
}

/// Puts an item to the end, if there is one.
pub(crate) fn push_plan(
    plans: &mut Items<LanePlan>,
    plan: Option<LanePlan>,
) -> Result<(), AllocError>
    ensures { OnOk result (plans.new ≡ plans.old ++ option_to_list plan) }
{
    // The proof of a push needs each type inside a plan named here.
    let _: (Option<Line>, Option<CState>, Option<Policy>) = (None, None, None);
    match plan {
        Some(plan) => plans.push(plan),
        None => Ok(()),
    }
}

/// Puts the line to the end of the lane, if it asks for anything.
fn push_line(plan: &mut LanePlan, number: u32, line: Option<Line>) -> Result<(), AllocError>
    ensures { OnOk result (plan.new ≡ with_lines (option_to_list (option_map (λ x. record { number = number; line = x }) line)) plan.old) }
{
    // The proof of a push needs each type inside a line named here.
    let _: (Option<CState>, Option<Policy>) = (None, None);
    match line {
        Some(line) => plan.lines.push(Numbered1 { number, line }),
        None => Ok(()),
    }
}

/// Puts the line to the end of the lane, if there is one.
fn push_asked(
    current: &mut Option<LanePlan>,
    number: u32,
    asked: Option<Line>,
) -> Result<(), AllocError>
    ensures { OnOk result (current.new ≡ option_map (with_lines (option_to_list (option_map (λ x. record { number = number; line = x }) asked))) current.old) }
{
    match current {
        Some(plan) => push_line(plan, number, asked),
        None => Ok(()),
    }
}

/// The lanes so far get one line more, which asks for this.
fn put_line(
    alloc: Global,
    building: &mut Building,
    number: u32,
    line: &LineShape<'_>,
    asked: Option<Line>,
) -> Result<(), AllocError>
    ensures { OnOk result (building.new ≡ put_line (option_to_list (option_map (λ x. record { number = number; line = x }) asked)) building.old (shape line.now)) }
{
    if begins_lane(line) {
        let plan = LanePlan {
            keeper: is_keeper(line),
            lines: Items::new(alloc),
        };
        let before = mem::replace(&mut building.current, Some(plan));
        return push_plan(&mut building.done, before);
    }
    push_asked(&mut building.current, number, asked)
}

/// The lanes so far get one line more, whose words have passed the checks.
#[tactic(auto, unfolding(crate::specs::Building::put))]
pub(crate) fn put(
    alloc: Global,
    setting: &Setting<'_>,
    building: &mut Building,
    number: u32,
    line: &LineShape<'_>,
    numbers: &Numbers,
    ctrl: &Option<Ctrl>,
) -> Result<(), AllocError>
    requires given { AreNumbers numbers.now (shape line.now) }
    requires place { ctrl.now ≡ ctrl_of setting.now.topology.now.controllers (shape line.now) }
    requires numbers { has_numbers setting.now.topology.now.near.nodes (shape line.now) ≡ true }
    requires named { is_named setting.now.topology.now.controllers setting.now.pages (shape line.now) ≡ true }
    ensures { OnOk result (building.new ≡ put setting.now.topology.now.controllers building.old number (shape line.now)) }
{
    let asked = line_of(setting, line, numbers, ctrl);
    put_line(alloc, building, number, line, asked)
}
