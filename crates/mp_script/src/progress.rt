//! What was read of a text so far.

ghost use Rattle.std.specs.Prelude.{◌≡◌, ◌≤◌, ◌+◌, ◌++◌, None, Some, is_some, true, unwrap_or, IfOk, IfErr, IfSome, OnOk, length};
ghost use Rattle.std.specs.Option.{option_to_list};
ghost use Rattle.mp_checks.specs.Checks.{first_fault, each_from};
ghost use Rattle.mp_checks.specs.Marks.{HaveSame};
ghost use Rattle.mp_words.specs.Answers.{in_order};
ghost use Rattle.mp_script.specs.Splitting.{lines_of};
ghost use Rattle.mp_script.specs.Shape.{shape};
ghost use Rattle.mp_script.specs.Numbers.{AreNumbers};
ghost use Rattle.mp_script.specs.Before.{Before, each_of, answer_of, submitted_in};
ghost use Rattle.mp_script.specs.Lines.{shape_checks, line_checks};
ghost use Rattle.mp_script.specs.Plans.{plans};
ghost use Rattle.mp_script.specs.Building.{IsEarlier, noted, put};
ghost use Rattle.mp_script.specs.Script.{script_of};

use crate::building::{Building, push_plan, put};
use crate::checking::check_line;
use crate::cut::Cut;
use crate::earlier::{Earlier, note, nothing};
use crate::errors::ScriptError;
use crate::script::Script;
use crate::setting::Setting;
use crate::shapes::take_line;
use crate::wording::ctrl_of;
use sqlite_items::Items;
use std::alloc::{AllocError, Global};

/// How many lines were read, what is known of them, and their lanes.
#[derive(Drop)]
pub(crate) struct Progress {
    pub(crate) number: u32,
    pub(crate) earlier: Earlier,
    pub(crate) building: Building,
}

/// Reads one line more.
fn read_line<'a>(
    alloc: Global,
    setting: &Setting<'a>,
    progress: &mut Progress,
    cut: &Cut<'a>,
) -> Result<(), ScriptError>
    requires given { AreNumbers cut.now.numbers (shape cut.now.line) }
    requires number { progress.old.number ≤ 65536 }
    requires lanes { progress.old.earlier.lanes ≤ 16 }
    ensures refused { (b : Before) → IsEarlier progress.old.earlier b → IfErr result (λ e. (e ≡ ScriptError.NoMemory → ⊥) → first_fault (shape_checks setting.now.topology.now setting.now.pages (unwrap_or setting.now.submits progress.old.earlier.submitted) b (progress.old.number + 1) (shape cut.now.line)) ≡ Some e) }
    ensures passed { (b : Before) → IsEarlier progress.old.earlier b → OnOk result (first_fault (shape_checks setting.now.topology.now setting.now.pages (unwrap_or setting.now.submits progress.old.earlier.submitted) b (progress.old.number + 1) (shape cut.now.line)) ≡ None) }
    ensures known { (b : Before) → IsEarlier progress.old.earlier b → OnOk result (IsEarlier progress.new.earlier (noted b (shape cut.now.line))) }
    ensures building { OnOk result (progress.new.building ≡ put setting.now.topology.now.controllers progress.old.building (progress.old.number + 1) (shape cut.now.line)) }
    ensures number { OnOk result (progress.new.number ≡ progress.old.number + 1) }
    ensures few { OnOk result (progress.new.number ≤ 65536) }
    ensures lanes { OnOk result (progress.new.earlier.lanes ≤ 16) }
{
    let number = progress.number + 1;
    let line = &cut.line;
    let numbers = &cut.numbers;
    let ctrl = ctrl_of(setting, line);
    check_line(setting, &progress.earlier, number, line, numbers, &ctrl)?;
    put(
        alloc,
        setting,
        &mut progress.building,
        number,
        line,
        numbers,
        &ctrl,
    )?;
    note(&mut progress.earlier, setting.nodes(), line, numbers)?;
    progress.number = number;
    Ok(())
}

/// What was read of the lines of a text. Where it isn't known what the whole text submits, a line is refused that
/// finishes what no earlier line submits, and such a refusal says nothing.
fn read_lines<'a>(
    alloc: Global,
    setting: &Setting<'a>,
    bytes: &'a [u8],
) -> Result<Progress, ScriptError>
    requires { IfSome setting.now.submits (λ all. HaveSame all (submitted_in setting.now.topology.now.near.nodes (lines_of bytes.now))) }
    ensures refused { is_some setting.now.submits ≡ true → IfErr result (λ e. (e ≡ ScriptError.NoMemory → ⊥) → first_fault (each_from (line_checks setting.now.topology.now setting.now.pages (lines_of bytes.now)) 0 (lines_of bytes.now)) ≡ Some e) }
    ensures passed { OnOk result (first_fault (each_from (line_checks setting.now.topology.now setting.now.pages (lines_of bytes.now)) 0 (lines_of bytes.now)) ≡ None) }
    ensures few { OnOk result (length (lines_of bytes.now) ≤ 65536) }
    ensures answers { IfOk result (λ p. p.earlier.answered ≡ in_order (each_of answer_of (lines_of bytes.now))) }
    ensures lanes { IfOk result (λ p. p.building.done ++ option_to_list p.building.current ≡ plans setting.now.topology.now.controllers 1 (lines_of bytes.now)) }
{
    let mut progress = Progress {
        number: 0,
        earlier: nothing(alloc)?,
        building: Building {
            done: Items::new(alloc),
            current: None,
        },
    };
    let mut rest = bytes;
    while !rest.is_empty() {
        let cut = take_line(rest);
        read_line(alloc, setting, &mut progress, &cut)?;
        rest = cut.rest;
    }
    Ok(progress)
}

/// The script of what was read.
fn script_of(alloc: Global, progress: Progress) -> Result<Script, AllocError>
    ensures { IfOk result (λ s. s ≡ record { answers = progress.earlier.answered; lanes = progress.building.done ++ option_to_list progress.building.current }) }
{
    let Progress {
        number: _,
        earlier,
        building,
    } = progress;
    let answers = earlier.answered.answers(alloc)?;
    let Building { mut done, current } = building;
    push_plan(&mut done, current)?;
    Ok(Script {
        answers,
        lanes: done,
    })
}

/// The script of the lines of a text, where none has a fault. Where it isn't known what the whole text submits, a
/// refusal says nothing.
///
/// # Errors
///
/// The refusal of the first line that has a fault, of its first check that fails; `NoMemory` where memory runs out.
#[tactic(auto, unfolding(crate::specs::Script::script_of))]
pub(crate) fn script_in<'a>(
    alloc: Global,
    setting: &Setting<'a>,
    bytes: &'a [u8],
) -> Result<Script, ScriptError>
    requires { IfSome setting.now.submits (λ all. HaveSame all (submitted_in setting.now.topology.now.near.nodes (lines_of bytes.now))) }
    ensures few { OnOk result (length (lines_of bytes.now) ≤ 65536) }
    ensures refused { is_some setting.now.submits ≡ true → IfErr result (λ e. (e ≡ ScriptError.NoMemory → ⊥) → first_fault (each_from (line_checks setting.now.topology.now setting.now.pages (lines_of bytes.now)) 0 (lines_of bytes.now)) ≡ Some e) }
    ensures passed { OnOk result (first_fault (each_from (line_checks setting.now.topology.now setting.now.pages (lines_of bytes.now)) 0 (lines_of bytes.now)) ≡ None) }
    ensures value { IfOk result (λ s. s ≡ script_of setting.now.topology.now.controllers (lines_of bytes.now)) }
{
    let progress = read_lines(alloc, setting, bytes)?;
    Ok(script_of(alloc, progress)?)
}
