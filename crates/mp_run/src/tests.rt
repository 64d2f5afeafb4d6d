//! Runs with few units, and scripts of the greatest size.

ghost use Rattle.std.specs.Prelude.{◌≤◌};
ghost use Rattle.mp_run.specs.World.{IsWorld};

use crate::error::RunError;
use crate::run::serial;
use mp_record::run::Run;
use mp_record::text::run_text;
use mp_script::pages::Pages;
use mp_script::reading::read_script;
use mp_script::script::{Script, World};
use mp_topology::reading::read_topology;
use mp_words::row::CState;
use std::alloc::Global;
use std::process::Abort;
use std::test::*;

/// Two nodes, and two controllers without ANA, one at each.
const TOPOLOGY: &str = "nsid = 1\nanagrpmax = 4\npolicy = \"numa\"\nnodes = 2\n\
    distance = [[10, 20], [20, 10]]\nopening = [\"a\", \"b\"]\n\
    [[controllers]]\nname = \"a\"\nnode = 0\n[[controllers]]\nname = \"b\"\nnode = 1\n";

/// One node, and a controller with ANA.
const WITH_ANA: &str = "nsid = 1\nanagrpmax = 4\npolicy = \"numa\"\nnodes = 1\n\
    distance = [[10]]\nopening = [\"a\"]\n\
    [[controllers]]\nname = \"a\"\nnode = 0\nana = true\npage = 0\n";

/// A log page: the namespace is in group 1, which is optimized.
const PAGE: [u8; 52] = [
    1, 0, 0, 0, 0, 0, 0, 0, 1, 0, 0, 0, 0, 0, 0, 0, 1, 0, 0, 0, 1, 0, 0, 0, 1, 0, 0, 0, 0, 0, 0, 0,
    1, 0, 0, 0, 0, 0, 0, 0, 0, 0, 0, 0, 0, 0, 0, 0, 1, 0, 0, 0,
];

/// The text of a run of two requests.
const TWO_REQUESTS: &str = "anamp 1\nhead 1 numa\nrow 0 0 open a live optimized r\n\
    row 1 0 open b live optimized r\norder 0 open numa 0,1\nlane 0\nat 2 submit\n\
    try 0 1 sent 0 0\nat 3 submit\ntry 1 1 sent 0 0\nat 0 finish 2\nfin 0 1 0000 done\n\
    fin 1 1 0000 done\ndrain\nat 0 requeue 0\nrequest 0 0 a done 0000 1\n\
    request 1 0 a done 0000 1\nend\n";

/// A world of two controllers without pages.
fn two_controllers(rt: &impl Abort, alloc: Global) -> World
    ensures { IsWorld result }
{
    let topology = read_topology(alloc, TOPOLOGY.as_bytes()).expect(rt, "a topology");
    World {
        topology,
        pages: Pages::from_vec(Vec::new(alloc)),
    }
}

/// A world of a controller with a page that states this of the namespace's group.
fn page_stating(rt: &impl Abort, alloc: Global, state: u8) -> World
    ensures { IsWorld result }
{
    let topology = read_topology(alloc, WITH_ANA.as_bytes()).expect(rt, "a topology");
    let mut bytes = PAGE;
    bytes[32] = state;
    let mut boxes = Vec::new(alloc);
    let page = Vec::from_slice(alloc, &bytes).expect(rt, "memory");
    boxes.push(page).expect(rt, "memory");
    World {
        topology,
        pages: Pages::from_vec(boxes),
    }
}

/// A world of a controller with a page that states that its path is optimized.
fn one_page(rt: &impl Abort, alloc: Global) -> World
    ensures { IsWorld result }
{
    page_stating(rt, alloc, 1)
}

/// The run of a script with so many units for each lane and for the drain.
fn run(alloc: Global, world: &World, text: &str, allowance: u32) -> Result<Run, RunError>
    requires world { IsWorld world.now }
    requires few { allowance ≤ 2097152 }
{
    if text.as_bytes().len() > 16_777_216 {
        return Err(RunError::NoMemory);
    }
    match read_script(alloc, text.as_bytes(), &world.topology, world.pages.len()) {
        Ok(script) => serial(alloc, world, &script, allowance),
        Err(_) => Err(RunError::NoMemory),
    }
}

/// How a script ends with so many units, over two controllers without pages: `run` with how many requests it tells of,
/// or `spent` with the lane.
fn ended(rt: &impl Abort, alloc: Global, text: &str, allowance: u16) -> (&'static str, usize) {
    let world = two_controllers(rt, alloc);
    match run(alloc, &world, text, u32::from(allowance)) {
        Ok(run) => ("run", run.requests.len()),
        Err(why) => refused(&why),
    }
}

/// Why no run was made, and the lane that is spent.
fn refused(why: &RunError) -> (&'static str, usize) {
    match why {
        RunError::Spent(lane) => ("spent", lane.get() as usize),
        RunError::NoMemory => ("memory", 0),
    }
}

/// A script, how many units each lane and the drain have, and how it ends.
const FEW: [(&str, u16, (&str, usize)); 18] = [
    // The end of a lane with a flight needs a unit, and uses none.
    ("lane\nsubmit 0 0\nsubmit 1 0\n", 3, ("run", 2)),
    ("lane\nsubmit 0 0\nsubmit 1 0\n", 2, ("spent", 0)),
    (
        "lane\nsubmit 0 0\nsubmit 1 0\nsubmit 2 0\n",
        3,
        ("spent", 0),
    ),
    ("lane\nsubmit 0 0\nsubmit 1 0\nsubmit 2 0\n", 4, ("run", 3)),
    // A lane without flights ends without units. A refused change uses its unit.
    ("lane\nctrl a live\nctrl b live\n", 2, ("run", 0)),
    ("lane\nctrl a live\nctrl b live\n", 1, ("spent", 0)),
    ("keeper\npolicy numa\npolicy numa\n", 1, ("spent", 0)),
    ("lane\n", 0, ("run", 0)),
    // An add needs two units, and a refused one uses none. A reap needs sixteen.
    ("keeper\nadd a -\nadd b -\n", 1, ("spent", 0)),
    ("keeper\nadd a -\nadd b -\n", 2, ("run", 0)),
    ("keeper\nreap\n", 15, ("spent", 0)),
    // The begin of a removal uses one, and the drain reaps with units of its own.
    ("keeper\nremove a\n", 0, ("spent", 0)),
    ("keeper\nremove a\nremove b\n", 1, ("spent", 0)),
    ("keeper\nremove a\n", 1, ("spent", 16)),
    // A finish that fails over uses one.
    (
        "answer 0 1 0300\nlane\nsubmit 0 0\nfinish all\nctrl a live\n",
        2,
        ("spent", 0),
    ),
    // Lane 1 is spent first, and lane 0 is the least that is.
    (
        "lane\nfinish all\nfinish all\nfinish all\nctrl a live\nctrl a live\nctrl a live\n\
         lane\nctrl a live\nctrl a live\nctrl a live\n",
        2,
        ("spent", 0),
    ),
    // Three requests are listed, and the drain submits each again, with units of its own.
    (
        "lane\nctrl a resetting\nctrl b resetting\nlane\nfinish all\nfinish all\nsubmit 0 0\n\
         lane\nfinish all\nfinish all\nsubmit 1 0\nlane\nfinish all\nfinish all\nsubmit 2 0\n",
        2,
        ("spent", 16),
    ),
    (
        "lane\nctrl a resetting\nctrl b resetting\nlane\nfinish all\nfinish all\nsubmit 0 0\n\
         lane\nfinish all\nfinish all\nsubmit 1 0\nlane\nfinish all\nfinish all\nsubmit 2 0\n",
        3,
        ("run", 3),
    ),
];

#[test]
fn counts_units(rt: HostRuntime) {
    let alloc = rt.alloc();
    for (text, allowance, want) in FEW {
        assert_eq!(rt; ended(&rt, alloc, text, allowance), want);
    }
}

/// A lane of three hundred submits over an inaccessible path, and so many lines `requeue`.
fn listed_again(rt: &impl Abort, alloc: Global, requeues: u32) -> String {
    let mut text = String::from_str(alloc, "lane\n").expect(rt, "memory");
    for req in 0..300u32 {
        let line = format!(in alloc; "submit {req} 0\n").expect(rt, "memory");
        text.push_str(line.as_str()).expect(rt, "memory");
    }
    for _ in 0..requeues {
        text.push_str("requeue\n").expect(rt, "memory");
    }
    text
}

/// How many tries all requests of a run have.
fn tries_in(run: &Run) -> usize {
    let mut tries = 0usize;
    for request in run.requests.as_slice() {
        tries = tries.wrapping_add(request.tries().len());
    }
    tries
}

#[test]
fn counts_units_of_requests_that_are_listed_again(rt: HostRuntime) -> Result<(), Fail> {
    let alloc = rt.alloc();
    let world = page_stating(&rt, alloc, 3);
    // The submits and nine requeues take all units, and the drain has its own.
    let text = listed_again(&rt, alloc, 9);
    let whole = run(alloc, &world, text.as_str(), 3_000)
        .ok()
        .ok_or("a run")?;
    assert_eq!(rt; whole.requests.len(), 300);
    assert_eq!(rt; tries_in(&whole), 3_300);
    let text = listed_again(&rt, alloc, 10);
    let short = run(alloc, &world, text.as_str(), 3_000)
        .err()
        .ok_or("a refusal")?;
    assert_eq!(rt; refused(&short), ("spent", 0));
    Ok(())
}

#[test]
fn runs_with_few_units(rt: HostRuntime) -> Result<(), Fail> {
    let alloc = rt.alloc();
    let world = two_controllers(&rt, alloc);
    let run = run(alloc, &world, "lane\nsubmit 0 0\nsubmit 1 0\n", 3)
        .ok()
        .ok_or("a run")?;
    let text = run_text(alloc, &run, &world.topology, false)
        .ok()
        .ok_or("a text")?;
    assert_eq!(rt; text.as_slice(), TWO_REQUESTS.as_bytes());
    Ok(())
}

/// A head, and then lines so many times.
fn filled(rt: &impl Abort, alloc: Global, head: &str, lines: &str, count: u32) -> String {
    let mut text = String::from_str(alloc, head).expect(rt, "memory");
    for _ in 0..count {
        text.push_str(lines).expect(rt, "memory");
    }
    text
}

/// How many events the lanes of a run have, how many rows the first slot had, how many lists of paths there were, and
/// how many requests.
fn sizes(run: &Run) -> (usize, usize, usize, usize) {
    let mut events = 0usize;
    for lane in run.lanes.as_slice() {
        events = events.wrapping_add(lane.len());
    }
    let rows = match run.rows.as_slice().first() {
        Some(rows) => rows.len(),
        None => 0,
    };
    (events, rows, run.keeping.len(), run.requests.len())
}

/// The head of a script, lines that fill it up to its greatest size, how often, and the sizes of its run.
const FULL: [(&str, &str, u32, (usize, usize, usize, usize)); 6] = [
    (
        "lane\n",
        "ctrl a resetting\nctrl a live\n",
        32_767,
        (65_535, 65_535, 1, 0),
    ),
    // All but the first are refused.
    ("lane\n", "ctrl a resetting\n", 65_535, (65_536, 2, 1, 0)),
    ("lane\n", "anatt a\n", 65_535, (65_536, 1, 1, 0)),
    ("lane\n", "log a 0\n", 65_535, (65_536, 65_536, 1, 0)),
    ("lane\n", "requeue\n", 65_535, (65_536, 1, 1, 0)),
    (
        "keeper\n",
        "policy round-robin\n",
        65_535,
        (65_536, 1, 65_536, 0),
    ),
];

#[test]
fn runs_the_longest_scripts(rt: HostRuntime) -> Result<(), Fail> {
    let alloc = rt.alloc();
    let world = one_page(&rt, alloc);
    for (head, lines, count, want) in FULL {
        let text = filled(&rt, alloc, head, lines, count);
        let run = run(alloc, &world, text.as_str(), 2_097_152)
            .ok()
            .ok_or("a run")?;
        assert_eq!(rt; sizes(&run), want);
    }
    Ok(())
}

#[test]
fn runs_sixteen_lanes(rt: HostRuntime) -> Result<(), Fail> {
    let alloc = rt.alloc();
    let world = two_controllers(&rt, alloc);
    let mut text = String::new(alloc);
    for lane in 0..16u32 {
        text.push_str("lane\n")?;
        for place in 0..4095u32 {
            let req = lane * 4095 + place;
            text.push_str(format!(in alloc; "submit {req} {}\n", req % 2)?.as_str())?;
        }
    }
    let run = run(alloc, &world, text.as_str(), 4096).ok().ok_or("a run")?;
    // For each request the line, the try and the finish, and for each lane its end.
    assert_eq!(rt; sizes(&run), (3 * 65_520 + 16, 1, 1, 65_520));
    Ok(())
}

#[test]
fn runs_scripts_of_answers(rt: HostRuntime) -> Result<(), Fail> {
    let alloc = rt.alloc();
    let world = two_controllers(&rt, alloc);
    let mut text = String::new(alloc);
    for req in 0..32_767u32 {
        text.push_str(format!(in alloc; "answer {req} 1 0300\n")?.as_str())?;
    }
    text.push_str("lane\n")?;
    for req in 0..32_767u32 {
        text.push_str(format!(in alloc; "submit {req} 0\n")?.as_str())?;
    }
    let run = run(alloc, &world, text.as_str(), 65_536)
        .ok()
        .ok_or("a run")?;
    assert_eq!(rt; sizes(&run), (3 * 32_767 + 1, 1, 1, 32_767));
    // The drain takes the list whole, sends each request again, and then finds the list empty.
    assert_eq!(rt; run.drain.len(), 2 * 32_767 + 2);
    Ok(())
}
