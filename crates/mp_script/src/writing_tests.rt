ghost use Rattle.mp_topology.specs.Facts.{IsTopology};

use crate::reading::read_script;
use crate::script::{LanePlan, Line, Numbered1, Script};
use crate::writing::write_script;
use mp_topology::reading::read_topology;
use mp_topology::topology::Topology;
use mp_words::answers::Answers;
use mp_words::numbers::{Ctrl, Node, ReqId};
use mp_words::row::{CState, Policy};
use sqlite_items::Items;
use std::alloc::Global;
use std::process::Abort;
use std::test::*;

const TOPOLOGY: &str = "nsid = 1\nanagrpmax = 4\npolicy = \"numa\"\nnodes = 2\n\
    distance = [[10, 20], [20, 10]]\nopening = [\"a\", \"b\"]\n\
    [[controllers]]\nname = \"a\"\nana = true\npage = 0\n[[controllers]]\nname = \"b\"\n";

fn topology(rt: &impl Abort, alloc: Global) -> Topology
    ensures { IsTopology result }
{
    read_topology(alloc, TOPOLOGY.as_bytes()).expect(rt, "a topology")
}

/// A text of a script, and its canonical text.
const READ: [(&str, &str); 6] = [
    ("", ""),
    (
        "lane\nsubmit 0 0\nsubmit 1 1\nfinish all\n",
        "lane\nsubmit 0 0\nsubmit 1 1\nfinish all\n",
    ),
    (
        "# two lanes\n\tkeeper\r\n\n submit  0065535 01\nlane\nfinish 65535 \nfinish\tall",
        "keeper\nsubmit 65535 1\nlane\nfinish 65535\nfinish all\n",
    ),
    ("lane\nlane", "lane\nlane\n"),
    (
        "answer 0 1 0302\nlane\nsubmit 0 0\nfinish 0\nrequeue\nfinish 0\n",
        "answer 0 1 0302\nlane\nsubmit 0 0\nfinish 0\nrequeue\nfinish 0\n",
    ),
    (
        "answer 1 02 03fF\n answer 1 1 0006\nkeeper\npolicy  queue-depth\nctrl b resetting\n\
         anatt a\n requeue \nsubmit 1 0",
        "answer 1 1 0006\nanswer 1 2 03FF\nkeeper\npolicy queue-depth\nctrl b resetting\n\
         anatt a\nrequeue\nsubmit 1 0\n",
    ),
];

#[test]
fn writes_what_is_read(rt: HostRuntime) {
    let alloc = rt.alloc();
    let topology = topology(&rt, alloc);
    for (text, want) in READ {
        let script = read_script(alloc, text.as_bytes(), &topology, 0).expect(&rt, "a script");
        let written = write_script(alloc, &script, &topology).expect(&rt, "memory");
        assert_eq!(rt; &written[..], want.as_bytes());
    }
}

fn req(rt: &impl Abort, n: u32) -> ReqId {
    ReqId::make(n).expect(rt, "a request")
}

fn ctrl(rt: &impl Abort, n: u32) -> Ctrl {
    Ctrl::make(n).expect(rt, "a controller")
}

fn plan(rt: &impl Abort, alloc: Global, keeper: bool, lines: &[Line]) -> LanePlan {
    let mut numbered = Vec::new(alloc);
    for line in lines {
        let line = *line;
        numbered
            .push(Numbered1 { number: 1, line })
            .expect(rt, "memory");
    }
    LanePlan {
        keeper,
        lines: Items::from_vec(numbered),
    }
}

#[test]
fn writes_every_line(rt: HostRuntime) -> Result<(), Fail> {
    let alloc = rt.alloc();
    let topology = topology(&rt, alloc);
    let mut answers = Answers::make(alloc);
    answers.add(req(&rt, 0), 1, 0x302)?;
    let (a, b) = (ctrl(&rt, 0), ctrl(&rt, 1));
    let node = Node::make(0).ok_or("a node")?;
    let first = [
        Line::Submit(req(&rt, 0), node),
        Line::Finish(req(&rt, 0)),
        Line::Requeue,
        Line::FinishAll,
        Line::Log(a, 0),
        Line::Ctrl(b, CState::DeletingNoio),
        Line::Anatt(a),
    ];
    let second = [
        Line::Add(a, Some(4294967295)),
        Line::Add(b, None),
        Line::Remove(b),
        Line::Reap,
        Line::Policy(Policy::QueueDepth),
    ];
    let mut lanes = Vec::new(alloc);
    lanes.push(plan(&rt, alloc, false, &first))?;
    lanes.push(plan(&rt, alloc, true, &second))?;
    let script = Script {
        answers,
        lanes: Items::from_vec(lanes),
    };
    let written = write_script(alloc, &script, &topology)?;
    let want = "answer 0 1 0302\nlane\nsubmit 0 0\nfinish 0\nrequeue\nfinish all\nlog a 0\n\
        ctrl b deleting-noio\nanatt a\nkeeper\nadd a 4294967295\nadd b -\nremove b\nreap\n\
        policy queue-depth\n";
    assert_eq!(rt; &written[..], want.as_bytes());
    Ok(())
}
