use crate::errors::{Field, Place, TopologyError};
use crate::reading::read_topology;
use crate::topology::Topology;
use mp_words::row::{CState, Policy};
use std::alloc::Global;
use std::process::Abort;
use std::test::*;

const HEAD: &str = "nsid = 1\nanagrpmax = 4\npolicy = \"numa\"\nnodes = 2\n\
    distance = [[10, 20], [20, 10]]\nopening = [\"a\", \"b\"]\n";

const CONTROLLERS: &str =
    "[[controllers]]\nname = \"a\"\nnode = 0\n[[controllers]]\nname = \"b\"\nnode = 1\n";

/// Reads the two controllers with one text of theirs, or of their head, in place of another.
fn read_with(
    rt: &impl Abort,
    alloc: Global,
    old: &str,
    new: &str,
) -> Result<Topology, TopologyError> {
    let text = format!(in alloc; "{HEAD}{CONTROLLERS}").expect(rt, "memory");
    let text = text.as_str().replace(alloc, old, new).expect(rt, "memory");
    read_topology(alloc, text.as_str().as_bytes())
}

/// The variant, the field and the index of a refusal.
fn parts(refusal: TopologyError) -> (&'static str, &'static str, u32) {
    match refusal {
        TopologyError::NotToml => ("NotToml", "", 0),
        TopologyError::Field(place) => ("Field", place.field.name(), place.index),
        TopologyError::Range(place) => ("Range", place.field.name(), place.index),
        TopologyError::Duplicate(place) => ("Duplicate", place.field.name(), place.index),
        TopologyError::Limit(place) => ("Limit", place.field.name(), place.index),
        TopologyError::NoMemory => ("NoMemory", "", 0),
    }
}

fn is_refused(read: Result<Topology, TopologyError>, want: (&str, &str, u32)) -> bool {
    match read {
        Ok(_) => false,
        Err(refusal) => {
            let (variant, field, index) = parts(refusal);
            variant == want.0 && field == want.1 && index == want.2
        }
    }
}

const SIXTY_FIVE: &str = "controllers = [{},{},{},{},{},{},{},{},{},{},{},{},{},\
    {},{},{},{},{},{},{},{},{},{},{},{},{},{},{},{},{},{},{},{},{},{},{},{},{},{},\
    {},{},{},{},{},{},{},{},{},{},{},{},{},{},{},{},{},{},{},{},{},{},{},{},{},{}]\n";

/// In place of what, what stands there, and how it is refused.
const REFUSED: [(&str, &str, (&str, &str, u32)); 48] = [
    ("nsid = 1\n", "", ("Field", "nsid", 0)),
    ("nsid = 1\n", "nsid = \"1\"\n", ("Field", "nsid", 0)),
    ("nsid = 1\n", "nsid = 1.0\n", ("Field", "nsid", 0)),
    ("nsid = 1\n", "nsid = true\n", ("Field", "nsid", 0)),
    ("nsid = 1\n", "nsid = 0\n", ("Range", "nsid", 0)),
    ("nsid = 1\n", "nsid = -1\n", ("Range", "nsid", 0)),
    ("nsid = 1\n", "nsid = 4294967295\n", ("Range", "nsid", 0)),
    (
        "nsid = 1\n",
        "nsid = 9223372036854775808\n",
        ("NotToml", "", 0),
    ),
    ("anagrpmax = 4\n", "", ("Field", "anagrpmax", 0)),
    (
        "anagrpmax = 4\n",
        "anagrpmax = 4294967296\n",
        ("Range", "anagrpmax", 0),
    ),
    (
        "nodes = 2",
        "group = true\nnodes = 2",
        ("Field", "group", 0),
    ),
    ("nodes = 2", "group = 0\nnodes = 2", ("Range", "group", 0)),
    ("nodes = 2", "group = 5\nnodes = 2", ("Range", "group", 0)),
    ("policy = \"numa\"\n", "", ("Field", "policy", 0)),
    ("\"numa\"", "\"latency\"", ("Range", "policy", 0)),
    ("nodes = 2", "nodes = 9", ("Range", "nodes", 0)),
    ("nodes = 2", "nodes = 0", ("Range", "nodes", 0)),
    ("[[10, 20], [20, 10]]", "10", ("Field", "distance", 0)),
    ("[20, 10]]", "[20]]", ("Range", "distance", 1)),
    (", [20, 10]]", "]", ("Range", "distance", 2)),
    (", [20, 10]]", ", [20, 10], 1]", ("Range", "distance", 2)),
    ("[10, 20]", "[10, 20, true]", ("Field", "distance", 0)),
    ("[10, 20]", "[10, 256]", ("Range", "distance", 0)),
    (
        "[[10, 20], [20, 10]]",
        "[[0, 20], 1]",
        ("Range", "distance", 0),
    ),
    (CONTROLLERS, "", ("Field", "controllers", 0)),
    (
        CONTROLLERS,
        "controllers = 1\n",
        ("Field", "controllers", 0),
    ),
    (
        CONTROLLERS,
        "controllers = [{name = \"?\"}, 1]\n",
        ("Field", "controllers", 0),
    ),
    (
        CONTROLLERS,
        "controllers = []\n",
        ("Range", "controllers", 0),
    ),
    (CONTROLLERS, SIXTY_FIVE, ("Limit", "controllers", 0)),
    ("name = \"b\"\n", "", ("Field", "name", 1)),
    ("name = \"b\"", "name = \"\"", ("Range", "name", 1)),
    ("name = \"b\"", "name = \"B\"", ("Range", "name", 1)),
    (
        "name = \"b\"",
        "name = \"a0123456789-_xyz0\"",
        ("Range", "name", 1),
    ),
    ("name = \"b\"", "name = \"a\"", ("Duplicate", "name", 1)),
    ("node = 1\n", "node = \"1\"\n", ("Field", "node", 1)),
    ("node = 1\n", "node = 2\n", ("Range", "node", 1)),
    ("node = 1\n", "ana = 1\n", ("Field", "ana", 1)),
    ("node = 1\n", "state = 1\n", ("Field", "state", 1)),
    ("node = 1\n", "state = \"asleep\"\n", ("Range", "state", 1)),
    ("node = 1\n", "page = 0.0\n", ("Field", "page", 1)),
    ("node = 1\n", "page = 1024\n", ("Range", "page", 1)),
    ("opening = [\"a\", \"b\"]\n", "", ("Field", "opening", 0)),
    ("[\"a\", \"b\"]", "\"a\"", ("Field", "opening", 0)),
    (
        "[\"a\", \"b\"]",
        "[1, 2, 3, 4, 5, 6, 7, 8, 9]",
        ("Limit", "opening", 0),
    ),
    ("[\"a\", \"b\"]", "[\"a\", 1]", ("Field", "opening", 1)),
    ("[\"a\", \"b\"]", "[\"a\", \"x\"]", ("Range", "opening", 1)),
    (
        "[\"a\", \"b\"]",
        "[\"a\", \"a\"]",
        ("Duplicate", "opening", 1),
    ),
    ("node = 1\n", "ana = true\n", ("Field", "page", 1)),
];

#[test]
fn refuses(rt: HostRuntime) {
    let alloc = rt.alloc();
    assert!(rt; is_refused(read_topology(alloc, b"nsid ="), ("NotToml", "", 0)));
    assert!(rt; is_refused(read_topology(alloc, b"# \xff\n"), ("NotToml", "", 0)));
    for (old, new, want) in REFUSED {
        assert!(rt;
            is_refused(read_with(&rt, alloc, old, new), want),
            "{old} as {new}"
        );
    }
}

/// Every key that may be missing, and a controller with ANA that doesn't open and so needs no page.
const FULL: &str =
    "nsid = 4294967294\nanagrpmax = 4294967295\ngroup = 7\npolicy = \"numa\"\nnodes = 2\n\
    distance = [[1, 255], [255, 1]]\nopening = [\"b\"]\nother = 1\n\
    [[controllers]]\nname = \"a\"\nana = true\n\
    [[controllers]]\nname = \"b0123456789-_xyz\"\nnode = 1\nana = true\nstate = \"deleting-noio\"\npage = 1023\n\
    [[controllers]]\nname = \"b\"\nana = false\nstate = \"live\"\n";

#[test]
fn reads_every_field(rt: HostRuntime) -> Result<(), Fail> {
    let read = read_topology(rt.alloc(), FULL.as_bytes());
    let found = read.ok().ok_or("a topology")?;
    assert_eq!(rt;
        (found.nsid, found.anagrpmax, found.group),
        (4294967294, 4294967295, 7)
    );
    let opening = found.opening.as_slice();
    assert_eq!(rt; opening.len(), 1);
    assert_eq!(rt; opening[0].get(), 2);
    let controllers = found.controllers.as_slice();
    assert_eq!(rt; controllers.len(), 3);
    assert!(rt; controllers[0].ana && controllers[0].page.is_none());
    assert!(rt; controllers[0].node.is_none());
    assert!(rt; matches!(controllers[0].state, CState::Live));
    assert_eq!(rt; controllers[1].name.as_str(), "b0123456789-_xyz");
    assert_eq!(rt; controllers[1].node.map(|node| node.get()), Some(1));
    assert!(rt; controllers[1].ana && controllers[1].page == Some(1023));
    assert!(rt; matches!(controllers[1].state, CState::DeletingNoio));
    assert!(rt; !controllers[2].ana && controllers[2].page.is_none());
    Ok(())
}

/// What may stand there in place of what.
const ACCEPTED: [(&str, &str); 8] = [
    ("nsid", "\u{feff}nsid"),
    ("nodes = 2", "group = 4\nnodes = 2"),
    ("\"numa\"", "\"round-robin\""),
    ("\"numa\"", "\"queue-depth\""),
    ("[\"a\", \"b\"]", "[]"),
    ("node = 1\n", "ana = false\n"),
    ("node = 1\n", "state = \"dead\"\n"),
    ("node = 1\n", "ana = true\npage = 0\n"),
];

#[test]
fn accepts(rt: HostRuntime) {
    for (old, new) in ACCEPTED {
        assert!(rt;
            read_with(&rt, rt.alloc(), old, new).is_ok(),
            "{old} as {new}"
        );
    }
}

#[test]
fn reads(rt: HostRuntime) -> Result<(), Fail> {
    let found = read_with(&rt, rt.alloc(), "", "").ok().ok_or("a topology")?;
    assert_eq!(rt; found.nsid, 1);
    assert_eq!(rt; found.anagrpmax, 4);
    assert_eq!(rt; found.group, 1);
    assert!(rt; matches!(found.policy, Policy::Numa));
    assert_eq!(rt; found.near.nodes, 2);
    assert_eq!(rt; found.near.distance[0], [10, 20, 0, 0, 0, 0, 0, 0]);
    assert_eq!(rt; found.near.distance[1], [20, 10, 0, 0, 0, 0, 0, 0]);
    assert_eq!(rt; found.near.distance[2], [0; 8]);
    let homes = &found.near.home[..];
    for (place, want) in [(0, Some(0)), (1, Some(1)), (2, None), (63, None)] {
        assert_eq!(rt; homes[place].map(|node| node.get()), want);
    }
    assert_eq!(rt; found.controllers.len(), 2);
    assert_eq!(rt; found.opening.len(), 2);
    assert_eq!(rt; found.find("b").map(|place| place.get()), Some(1));
    assert!(rt; found.find("ab").is_none());
    assert!(rt; found.fits(0).is_ok());
    Ok(())
}

#[test]
fn fits(rt: HostRuntime) -> Result<(), Fail> {
    let alloc = rt.alloc();
    let paged = "name = \"b\"\npage = 0\n[[controllers]]\nname = \"c\"\nana = true\npage = 1\n";
    let read = read_with(&rt, alloc, "name = \"b\"\nnode = 1\n", paged);
    let found = read.ok().ok_or("a topology")?;
    assert_eq!(rt; found.controllers.len(), 3);
    for (boxes, want) in [(0, Some(1)), (1, Some(2)), (2, None)] {
        match found.fits(boxes) {
            Ok(()) => assert!(rt; want.is_none(), "{boxes} boxes"),
            Err(refusal) => {
                let (variant, field, index) = parts(refusal);
                assert_eq!(rt; (variant, field), ("Range", "page"));
                assert_eq!(rt; Some(index), want);
            }
        }
    }
    Ok(())
}

#[test]
fn tells_the_place(rt: HostRuntime) -> Result<(), Fail> {
    let refusal = TopologyError::Range(Place {
        field: Field::Page,
        index: 1,
    });
    let text = format!(in rt.alloc(); "{refusal}")?;
    assert_eq!(rt; text.as_str(), "a value is out of its range: page 1");
    Ok(())
}
