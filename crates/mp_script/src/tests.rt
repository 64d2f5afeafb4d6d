ghost use Rattle.std.specs.Prelude.{◌≡◌};
ghost use Rattle.mp_topology.specs.Facts.{IsTopology};

use crate::errors::ScriptError;
use crate::pages::Pages;
use crate::reading::read_script;
use crate::script::{LanePlan, Line, Script};
use mp_topology::reading::read_topology;
use mp_topology::topology::Topology;
use mp_words::answers::Answers;
use mp_words::numbers::ReqId;
use std::alloc::{AllocError, Global};
use std::process::Abort;
use std::test::*;

/// Two nodes, and two controllers without ANA.
const TOPOLOGY: &str = "nsid = 1\nanagrpmax = 4\npolicy = \"numa\"\nnodes = 2\n\
    distance = [[10, 20], [20, 10]]\nopening = [\"a\", \"b\"]\n\
    [[controllers]]\nname = \"a\"\nnode = 0\n[[controllers]]\nname = \"b\"\nnode = 1\n";

fn topology(rt: &impl Abort, alloc: Global) -> Topology
    ensures { IsTopology result }
{
    read_topology(alloc, TOPOLOGY.as_bytes()).expect(rt, "a topology")
}

/// The variant of a refusal, and its number.
fn parts(refusal: ScriptError) -> (&'static str, u32) {
    match refusal {
        ScriptError::NotAscii(offset) => ("NotAscii", offset),
        ScriptError::Line(line) => ("Line", line),
        ScriptError::Unknown(line) => ("Unknown", line),
        ScriptError::Number(line) => ("Number", line),
        ScriptError::Repeat(line) => ("Repeat", line),
        ScriptError::NotKeeper(line) => ("NotKeeper", line),
        ScriptError::Limit(line) => ("Limit", line),
        ScriptError::NoMemory => ("NoMemory", 0),
    }
}

/// How a text is read, without boxes.
fn refusal(alloc: Global, text: &[u8], topology: &Topology) -> (&'static str, u32)
    requires { IsTopology topology.now }
{
    if text.len() > 16_777_216 {
        return ("long", 0);
    }
    match read_script(alloc, text, topology, 0) {
        Ok(_) => ("Ok", 0),
        Err(refusal) => parts(refusal),
    }
}

/// A text, and how it is refused, or that it is read.
const REFUSED: [(&[u8], (&str, u32)); 50] = [
    (b"lane\n\xff", ("NotAscii", 5)),
    (b"jump\n\x7f", ("NotAscii", 5)),
    (b"submit 0 0", ("Line", 1)),
    (b"lane\njump", ("Line", 2)),
    (b"lane\nanswer 0 1 0302", ("Line", 2)),
    (b"lane\nreap", ("NotKeeper", 2)),
    (b"lane\nsubmit 0 2", ("Number", 2)),
    (b"lane\nsubmit 65536 0", ("Number", 2)),
    (b"answer 0 1 8000", ("Number", 1)),
    (b"lane\nanatt z", ("Unknown", 2)),
    (b"lane\nfinish 3", ("Unknown", 2)),
    (b"lane\nctrl a asleep", ("Unknown", 2)),
    (b"lane\nsubmit 0 0\nsubmit 0 1", ("Repeat", 3)),
    (b"keeper\nkeeper", ("Repeat", 2)),
    // Skipped lines count.
    (b"# one\n\n \t\r\n#\nlane\njump", ("Line", 6)),
    // The forms of lines.
    (b"lane x", ("Line", 1)),
    (b"lane\nsubmit 0", ("Line", 2)),
    (b"lane\nsubmit 0 0 0", ("Line", 2)),
    (b"lane\nfinish all 0", ("Line", 2)),
    (b"lane\nLane", ("Line", 2)),
    (b"requeue\nlane", ("Line", 1)),
    (b"lane\nadd a 0 0 0 0", ("Line", 2)),
    // The keeper's lines.
    (b"lane\nadd a -", ("NotKeeper", 2)),
    (b"keeper\nlane\nremove a", ("NotKeeper", 3)),
    (b"lane\npolicy fast", ("NotKeeper", 2)),
    // Numbers.
    (b"lane\nsubmit 00000000000 0", ("Number", 2)),
    (b"lane\nsubmit -1 0", ("Number", 2)),
    (b"answer 0 0 0302", ("Number", 1)),
    (b"answer 0 65536 0302", ("Number", 1)),
    (b"answer 0 1 302", ("Number", 1)),
    (b"answer 0 1 03fg", ("Number", 1)),
    (b"lane\nlog z all", ("Number", 2)),
    (b"lane\nfinish All", ("Number", 2)),
    // Names, boxes and ANA.
    (b"lane\nctrl ab live", ("Unknown", 2)),
    (b"lane\nlog a 0", ("Unknown", 2)),
    (b"keeper\nadd a 0", ("Unknown", 2)),
    (b"keeper\nadd z -", ("Unknown", 2)),
    (b"keeper\npolicy fast", ("Unknown", 2)),
    (b"lane\nfinish 0\nsubmit 0 2", ("Unknown", 2)),
    // What was said before.
    (b"answer 0 1 0302\nanswer 0 01 0006", ("Repeat", 2)),
    (b"lane\nsubmit 7 0\nlane\nsubmit 007 0", ("Repeat", 4)),
    (b"keeper\nreap\njump", ("Line", 3)),
    // What is read.
    (b"keeper\nreap", ("Ok", 0)),
    (b"keeper\nremove a\nadd a -", ("Ok", 0)),
    (b"keeper\nadd a -", ("Ok", 0)),
    (b"answer 0 1 03fF", ("Ok", 0)),
    (b"lane\nrequeue", ("Ok", 0)),
    (b"lane\nctrl a deleting-noio\nanatt b", ("Ok", 0)),
    (b"keeper\npolicy queue-depth", ("Ok", 0)),
    (b"lane\nfinish 0\nsubmit 0 0", ("Ok", 0)),
];

/// A text of so many pieces, with some text before and behind them.
fn repeated(
    rt: &impl Abort,
    alloc: Global,
    before: &str,
    piece: &str,
    count: u32,
    behind: &str,
) -> String {
    let mut text = String::from_str(alloc, before).expect(rt, "memory");
    for _ in 0..count {
        text.push_str(piece).expect(rt, "memory");
    }
    text.push_str(behind).expect(rt, "memory");
    text
}

/// A text of so many pieces, and how it is refused.
const LONG: [(&str, &str, u32, &str, (&str, u32)); 6] = [
    ("", "lane\n", 17, "", ("Limit", 17)),
    ("", "\n", 65_537, "", ("Limit", 65_537)),
    ("", "lane\n", 16, "lane x\n", ("Line", 17)),
    ("keeper\n", "lane\n", 15, "keeper\n", ("Limit", 17)),
    // A line past the last that may stand submits, for a line that finishes.
    (
        "lane\nfinish 0\n",
        "\n",
        65_534,
        "submit 0 0\n",
        ("Limit", 65_537),
    ),
    ("lane\nfinish 0\n", "\n", 65_535, "", ("Unknown", 2)),
];

#[test]
fn refuses(rt: HostRuntime) {
    let alloc = rt.alloc();
    let topology = topology(&rt, alloc);
    for (text, want) in REFUSED {
        assert_eq!(rt; refusal(alloc, text, &topology), want);
    }
    for (before, piece, count, behind, want) in LONG {
        let text = repeated(&rt, alloc, before, piece, count, behind);
        assert_eq!(rt; refusal(alloc, text.as_str().as_bytes(), &topology), want);
    }
}

/// What a lane's lines ask for.
fn told(alloc: Global, plan: &LanePlan) -> Result<String, AllocError> {
    let mut text = String::from_str(alloc, if plan.keeper { "keeper" } else { "lane" })?;
    for line in plan.lines.as_slice() {
        let n = line.number;
        let one = match line.line {
            Line::Submit(req, node) => {
                format!(in alloc; ", {n} submit {} {}", req.get(), node.get())?
            }
            Line::Finish(req) => format!(in alloc; ", {n} finish {}", req.get())?,
            Line::FinishAll => format!(in alloc; ", {n} finish all")?,
            _ => format!(in alloc; ", {n} another")?,
        };
        text.push_str(one.as_str())?;
    }
    Ok(text)
}

const TEXT: &[u8] =
    b"# two lanes\nkeeper\n submit 0 1\r\nfinish 0000000007\n\nlane\nsubmit 7 0\nfinish\tall";

fn read(alloc: Global, topology: &Topology) -> Result<Script, ScriptError>
    requires { IsTopology topology.now }
{
    read_script(alloc, TEXT, topology, 0)
}

#[test]
fn reads(rt: HostRuntime) -> Result<(), Fail> {
    let alloc = rt.alloc();
    let topology = topology(&rt, alloc);
    let script = read(alloc, &topology).ok().ok_or("a script")?;
    assert_eq!(rt; script.answers.len(), 0);
    let mut text = String::new(alloc);
    for plan in script.lanes.as_slice() {
        let copy = plan.copy(alloc).ok().ok_or("a copy")?;
        text.push_str(told(alloc, &copy)?.as_str())?;
        text.push_str("; ")?;
    }
    assert_eq!(rt;
        text.as_str(),
        "keeper, 3 submit 0 1, 4 finish 7; lane, 7 submit 7 0, 8 finish all; "
    );
    Ok(())
}

#[test]
fn keeps_answers(rt: HostRuntime) -> Result<(), Fail> {
    let mut answers = Answers::make(rt.alloc());
    let first = ReqId::make(1).ok_or("a request")?;
    let second = ReqId::make(2).ok_or("a request")?;
    for (req, attempt, status) in [(second, 1, 6), (first, 3, 0x0302), (first, 1, 0x0303)] {
        assert!(rt; !answers.has(req, attempt));
        let added = answers.add(req, attempt, status);
        assert!(rt; added.is_ok());
    }
    assert_eq!(rt; answers.len(), 3);
    assert_eq!(rt; answers.status(first, 1), 0x0303);
    assert_eq!(rt; answers.status(first, 2), 0);
    assert_eq!(rt; answers.status(first, 3), 0x0302);
    assert_eq!(rt; answers.status(second, 1), 6);
    assert_eq!(rt; answers.status(second, 2), 0);
    Ok(())
}

#[test]
fn finds_pages(rt: HostRuntime) -> Result<(), Fail> {
    let alloc = rt.alloc();
    let mut boxes = Vec::new(alloc);
    boxes.push(Vec::from_slice(alloc, b"first")?)?;
    boxes.push(Vec::new(alloc))?;
    let pages = Pages::from_vec(boxes);
    assert_eq!(rt; pages.len(), 2);
    assert_eq!(rt; pages.as_slice().len(), 2);
    assert_eq!(rt; pages.get(0), Some(&b"first"[..]));
    assert_eq!(rt; pages.get(1), Some(&b""[..]));
    assert!(rt; pages.get(2).is_none());
    Ok(())
}
