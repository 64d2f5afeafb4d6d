//! The writer of scripts.

ghost use Rattle.std.specs.Prelude.{◌≡◌, ℕ, List, Ok, ◌++◌, [], ◌∷◌, OnOk, IfOk, IfErr, string_bytes, map, codes};
ghost use Rattle.std.specs.Fmt.{decimal};
ghost use Rattle.std.specs.List.{flat_map};
ghost use Rattle.mp_script.specs.Written.{policy_word, cstate_word, name_of, status_word, answer_words, lane_words, line_words, line_text, plan_lines, script_text, IsReadAs};
ghost use Rattle.mp_script.specs.Script.{script_in};
ghost use Rattle.mp_topology.specs.Facts.{IsTopology};

use crate::errors::ScriptError;
use crate::script::{LanePlan, Line, Numbered1, Script};
use mp_topology::names::controller_name;
use mp_topology::topology::Topology;
use mp_words::answers::Answers;
use mp_words::names::{cstate_name, policy_name};
use mp_words::numbers::{Ctrl, Node, ReqId};
use mp_words::row::{CState, Policy};
use mp_words::status::put_status;
use std::alloc::{AllocError, Global};

/// A line of one word.
fn put_word(text: &mut String, word: &str) -> Result<(), AllocError>
    ensures { OnOk result (string_bytes text.new ≡ string_bytes text.old ++ line_text (word.now ∷ [])) }
{
    write!(text, "{word}\n")
}

/// A line of two words.
fn put_two(text: &mut String, word: &str, name: &str) -> Result<(), AllocError>
    ensures { OnOk result (string_bytes text.new ≡ string_bytes text.old ++ line_text (word.now ∷ name.now ∷ [])) }
{
    write!(text, "{word} {name}\n")
}

/// A line of three words.
fn put_three(text: &mut String, word: &str, name: &str, other: &str) -> Result<(), AllocError>
    ensures { OnOk result (string_bytes text.new ≡ string_bytes text.old ++ line_text (word.now ∷ name.now ∷ other.now ∷ [])) }
{
    write!(text, "{word} {name} {other}\n")
}

/// A line of a word and a number.
fn put_number(text: &mut String, word: &str, a: u32) -> Result<(), AllocError>
    ensures { OnOk result (string_bytes text.new ≡ string_bytes text.old ++ line_text (word.now ∷ decimal a ∷ [])) }
{
    write!(text, "{word} {a}\n")
}

/// A line of a word and two numbers.
fn put_numbers(text: &mut String, word: &str, a: u32, b: u32) -> Result<(), AllocError>
    ensures { OnOk result (string_bytes text.new ≡ string_bytes text.old ++ line_text (word.now ∷ decimal a ∷ decimal b ∷ [])) }
{
    write!(text, "{word} {a} {b}\n")
}

/// A line of a word, a name and a number.
fn put_box(text: &mut String, word: &str, name: &str, a: u32) -> Result<(), AllocError>
    ensures { OnOk result (string_bytes text.new ≡ string_bytes text.old ++ line_text (word.now ∷ name.now ∷ decimal a ∷ [])) }
{
    write!(text, "{word} {name} {a}\n")
}

/// The line of an answer.
fn put_answer(text: &mut String, req: ReqId, attempt: u32, status: u16) -> Result<(), AllocError>
    ensures { OnOk result (string_bytes text.new ≡ string_bytes text.old ++ line_text (answer_words (record { req = req; attempt = attempt; status = status }))) }
{
    let req = req.get();
    write!(text, "answer {req} {attempt} ")?;
    put_status(text, status)?;
    text.push_str("\n")
}

/// The lines of the answers.
fn put_answers(text: &mut String, answers: &Answers) -> Result<(), AllocError>
    ensures { OnOk result (string_bytes text.new ≡ string_bytes text.old ++ flat_map (λ a. line_text (answer_words a)) answers.now) }
{
    for place in 0..answers.len() {
        let (req, attempt, status) = answers.at(place);
        put_answer(text, req, attempt, status)?;
    }
    Ok(())
}

/// The line that submits a request.
fn put_submit(text: &mut String, req: ReqId, node: Node) -> Result<(), AllocError>
    ensures { OnOk result (string_bytes text.new ≡ string_bytes text.old ++ line_text (codes "submit" ∷ decimal req ∷ decimal node ∷ [])) }
{
    put_numbers(text, "submit", req.get(), node.get())
}

/// The line that finishes a request.
fn put_finish(text: &mut String, req: ReqId) -> Result<(), AllocError>
    ensures { OnOk result (string_bytes text.new ≡ string_bytes text.old ++ line_text (codes "finish" ∷ decimal req ∷ [])) }
{
    put_number(text, "finish", req.get())
}

/// A line of a word and a controller.
fn put_named(
    text: &mut String,
    topology: &Topology,
    word: &str,
    ctrl: Ctrl,
) -> Result<(), AllocError>
    ensures { OnOk result (string_bytes text.new ≡ string_bytes text.old ++ line_text (word.now ∷ name_of topology.now ctrl ∷ [])) }
{
    put_two(text, word, controller_name(topology, ctrl))
}

/// A line of a word, a controller and one more word.
fn put_more(
    text: &mut String,
    topology: &Topology,
    word: &str,
    ctrl: Ctrl,
    other: &str,
) -> Result<(), AllocError>
    ensures { OnOk result (string_bytes text.new ≡ string_bytes text.old ++ line_text (word.now ∷ name_of topology.now ctrl ∷ other.now ∷ [])) }
{
    put_three(text, word, controller_name(topology, ctrl), other)
}

/// A line of a word, a controller and the number of a box.
fn put_page(
    text: &mut String,
    topology: &Topology,
    word: &str,
    ctrl: Ctrl,
    page: u32,
) -> Result<(), AllocError>
    ensures { OnOk result (string_bytes text.new ≡ string_bytes text.old ++ line_text (word.now ∷ name_of topology.now ctrl ∷ decimal page ∷ [])) }
{
    put_box(text, word, controller_name(topology, ctrl), page)
}

/// A line of a lane.
fn put_line(text: &mut String, topology: &Topology, line: &Line) -> Result<(), AllocError>
    ensures { OnOk result (string_bytes text.new ≡ string_bytes text.old ++ line_text (line_words topology.now line.now)) }
{
    match line {
        Line::Submit(req, node) => put_submit(text, *req, *node),
        Line::Finish(req) => put_finish(text, *req),
        Line::FinishAll => put_two(text, "finish", "all"),
        Line::Requeue => put_word(text, "requeue"),
        Line::Log(ctrl, page) => put_page(text, topology, "log", *ctrl, *page),
        Line::Ctrl(ctrl, state) => put_more(text, topology, "ctrl", *ctrl, cstate_name(*state)),
        Line::Anatt(ctrl) => put_named(text, topology, "anatt", *ctrl),
        Line::Add(ctrl, Some(page)) => put_page(text, topology, "add", *ctrl, *page),
        Line::Add(ctrl, None) => put_more(text, topology, "add", *ctrl, "-"),
        Line::Remove(ctrl) => put_named(text, topology, "remove", *ctrl),
        Line::Reap => put_word(text, "reap"),
        Line::Policy(policy) => put_two(text, "policy", policy_name(*policy)),
    }
}

/// The lines of a lane, behind the one that begins it.
fn put_lines(text: &mut String, topology: &Topology, lines: &[Numbered1]) -> Result<(), AllocError>
    ensures { OnOk result (string_bytes text.new ≡ string_bytes text.old ++ flat_map (λ n. line_text (line_words topology.now n.line)) lines.now) }
{
    for numbered in lines {
        put_line(text, topology, &numbered.line)?;
    }
    Ok(())
}

/// The word that begins a lane.
fn lane_name(keeper: bool) -> &'static str
    ensures { result.now ∷ [] ≡ lane_words keeper }
{
    if keeper { "keeper" } else { "lane" }
}

/// The lines of a lane.
fn put_plan(text: &mut String, topology: &Topology, plan: &LanePlan) -> Result<(), AllocError>
    ensures { OnOk result (string_bytes text.new ≡ string_bytes text.old ++ flat_map line_text (plan_lines topology.now plan.now)) }
{
    put_word(text, lane_name(plan.keeper))?;
    put_lines(text, topology, plan.lines.as_slice())
}

/// The lines of the lanes.
fn put_plans(text: &mut String, topology: &Topology, plans: &[LanePlan]) -> Result<(), AllocError>
    ensures { OnOk result (string_bytes text.new ≡ string_bytes text.old ++ flat_map (λ p. flat_map line_text (plan_lines topology.now p)) plans.now) }
{
    for plan in plans {
        put_plan(text, topology, plan)?;
    }
    Ok(())
}

/// The canonical text.
fn text_of(alloc: Global, script: &Script, topology: &Topology) -> Result<String, AllocError>
    ensures { IfOk result (λ text. string_bytes text ≡ script_text topology.now script.now) }
{
    let mut text = String::new(alloc);
    put_answers(&mut text, &script.answers)?;
    put_plans(&mut text, topology, script.lanes.as_slice())?;
    Ok(text)
}

/// Writes the canonical text of a script: the answers by request and attempt, and then the lanes.
///
/// The words of a line are joined by one space, numbers have no leading zeros, and each line ends at a line feed. The
/// names are those of the topology that the script was read for.
///
/// # Errors
///
/// `NoMemory` where memory runs out.
pub fn write_script(
    alloc: Global,
    script: &Script,
    topology: &Topology,
) -> Result<Vec<u8>, ScriptError>
    ensures text { IfOk result (λ text. text.items ≡ script_text topology.now script.now) }
    // Of a script that was read for this topology the text is read again, as the same script.
    ensures again { (pages : ℕ) (bytes : List ℕ) → IsTopology topology.now → script_in topology.now pages bytes ≡ Ok script.now → IfOk result (λ text. IsReadAs topology.now pages script.now text.items) }
    ensures memory { IfErr result (λ e. e ≡ ScriptError.NoMemory) }
{
    match text_of(alloc, script, topology) {
        Ok(text) => Ok(text.into_bytes()),
        Err(AllocError) => Err(ScriptError::NoMemory),
    }
}
