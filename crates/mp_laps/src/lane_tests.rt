//! What lanes leave over the words of two paths: what they note, line by line, and what stands in the words afterwards.

ghost use Rattle.std.specs.Prelude.{◌≡◌, ◌≤◌, ◌<◌, [], None, length, IfOk};
ghost use Rattle.mp_lane.specs.Steps.{HasNoKeeperLine};
ghost use Rattle.mp_plain.specs.Told.{told_core};
ghost use Rattle.mp_laps.specs.Lanes.{AreFit, IsReady};

use crate::bench::two_paths;
use crate::telling::told;
use mp_core::gate::NoGate;
use mp_core::steps::Steps;
use mp_lane::lane::Lane;
use mp_lane::stepped::Stepped;
use mp_lane::wants::Wants;
use mp_plain::plain::Plain;
use mp_record::notes::LaneNotes;
use mp_script::pages::Pages;
use mp_script::script::{LanePlan, Line, Numbered1, World};
use mp_topology::topology::Topology;
use mp_words::answers::{AnswerError, Answers};
use mp_words::entry::RowEntry;
use mp_words::near::Near;
use mp_words::numbered::Numbered;
use mp_words::numbers::{Ctrl, LaneId, Node, ReqId};
use mp_words::request::Request;
use mp_words::row::{CState, Policy};
use mp_words::trying::Outcome;
use sqlite_items::Items;
use std::alloc::{AllocError, Global};
use std::test::Fail;

/// The page of 52 bytes of one group in state change, which names namespace 1.
const CHANGE: [u8; 52] = [
    5, 0, 0, 0, 0, 0, 0, 0, 1, 0, 0, 0, 0, 0, 0, 0, 1, 0, 0, 0, 1, 0, 0, 0, 5, 0, 0, 0, 0, 0, 0, 0,
    15, 0, 0, 0, 0, 0, 0, 0, 0, 0, 0, 0, 0, 0, 0, 0, 1, 0, 0, 0,
];

/// Two nodes, each near to one of two controllers.
fn two_nodes() -> Near {
    let mut distance = [[0; 8]; 8];
    distance[0][0] = 10;
    distance[0][1] = 20;
    distance[1][0] = 20;
    distance[1][1] = 10;
    let mut home = [None; 64];
    home[0] = Some(Node::make(0).unwrap());
    home[1] = Some(Node::make(1).unwrap());
    Near {
        nodes: 2,
        distance,
        home,
    }
}

/// A world of two nodes whose one box has this page.
fn world_of(alloc: Global, page: &[u8]) -> Result<World, AllocError>
    requires { length page.now ≤ 65536 }
    ensures { IfOk result (λ w. AreFit w.pages) }
{
    let mut boxes = Vec::new(alloc);
    boxes.push(Vec::from_slice(alloc, page)?)?;
    Ok(World {
        topology: Topology {
            nsid: 1,
            anagrpmax: 4,
            group: 1,
            policy: Policy::Numa,
            near: two_nodes(),
            controllers: Items::new(alloc),
            opening: Items::new(alloc),
        },
        pages: Pages::from_vec(boxes),
    })
}

/// A request's number.
fn req(number: u32) -> ReqId
    requires { number < 65536 }
{
    ReqId::make(number).unwrap()
}

/// A node.
fn node(number: u32) -> Node
    requires { number < 8 }
{
    Node::make(number).unwrap()
}

/// Lane 0 with these lines, which nobody has run yet.
fn lane_of(alloc: Global, plain: &Plain, lines: &[Numbered1]) -> Result<Lane, AllocError>
    requires id { (told_core plain.now).lane ≡ 0 }
    requires closed { (told_core plain.now).view.inside ≡ None }
    requires flights { (told_core plain.now).view.flights ≡ [] }
    requires plan { HasNoKeeperLine lines.now }
    ensures { IfOk result (λ l. IsReady l (told_core plain.now)) }
{
    // The proof needs each type inside a line named here.
    let _: (Option<Line>, Option<CState>, Option<Policy>) = (None, None, None);
    let lines = Items::from_slice(alloc, lines)?;
    let plan = LanePlan {
        keeper: false,
        lines,
    };
    Ok(Lane::make(alloc, LaneId::make(0).unwrap(), plan))
}

/// A line of the script with its number.
fn at(number: u32, line: Line) -> Numbered1
    ensures { result ≡ record { number = number; line = line } }
{
    Numbered1 { number, line }
}

/// Lets a lane that wants a line or its end step. Answers nothing where it wants neither, and where memory ran out.
fn step(lane: &mut Lane, plain: &mut Plain, world: &World, answers: &Answers) -> Option<Stepped>
    requires ready { IsReady lane.old (told_core plain.old) }
    requires pages { AreFit world.now.pages }
    ensures { IsReady lane.new (told_core plain.new) }
{
    match lane.wants() {
        Wants::Line => lane.step(plain, &NoGate, world, answers).ok(),
        Wants::End => lane.step(plain, &NoGate, world, answers).ok(),
        Wants::List => None,
        Wants::Nothing => None,
    }
}

/// Lets a lane step so many times. Answers whether it ran a line each time.
fn run(lane: &mut Lane, plain: &mut Plain, world: &World, answers: &Answers, count: u32) -> bool
    requires ready { IsReady lane.old (told_core plain.old) }
    requires pages { AreFit world.now.pages }
    ensures { IsReady lane.new (told_core plain.new) }
{
    for _ in 0..count {
        match step(lane, plain, world, answers) {
            Some(Stepped::Ran) => (),
            _ => return false,
        }
    }
    true
}

/// Gives a lane that wants the list what it has to list itself. Answers how many requests these are.
fn give_back(lane: &mut Lane, plain: &Plain) -> Option<usize>
    requires ready { IsReady lane.old (told_core plain.now) }
    ensures { IsReady lane.new (told_core plain.now) }
{
    let taken = lane.take_out();
    let count = taken.len();
    match lane.wants() {
        Wants::List => {
            lane.give(taken);
            Some(count)
        }
        _ => None,
    }
}

/// What a lane leaves that is over.
#[derive(Drop)]
struct Remains {
    notes: LaneNotes,
    rows: Vec<RowEntry>,
    ended: Vec<Request>,
}

/// What a lane leaves, where it is over.
fn left(lane: Lane) -> Option<Remains> {
    match lane.wants() {
        Wants::Nothing => {
            let (notes, rows, ended) = lane.close();
            Some(Remains { notes, rows, ended })
        }
        _ => None,
    }
}

/// How many of these requests are done with status 0.
fn done(requests: &[Request]) -> u32 {
    let mut count: u32 = 0;
    for request in requests {
        if matches!(request.outcome(), Outcome::Done(0)) {
            count = count.wrapping_add(1);
        }
    }
    count
}

#[test]
fn requests_are_submitted_and_finished(rt: HostRuntime) -> Result<(), Fail> {
    let alloc = rt.alloc();
    let mut plain = Plain::make(alloc, &two_paths(), 100)?;
    let world = world_of(alloc, &CHANGE)?;
    let answers = Answers::make(alloc);
    let lines = [
        at(2, Line::Submit(req(0), node(0))),
        at(3, Line::Submit(req(1), node(1))),
        at(4, Line::FinishAll),
    ];
    let mut lane = lane_of(alloc, &plain, &lines)?;
    assert!(rt; run(&mut lane, &mut plain, &world, &answers, 3));
    let end = step(&mut lane, &mut plain, &world, &answers);
    assert!(rt; matches!(end, Some(Stepped::Ended)));
    assert_eq!(rt; plain.left(), 98);
    assert_eq!(rt; plain.words().depths[0], 0);
    assert_eq!(rt; plain.words().depths[1], 0);
    assert_eq!(rt; plain.words().sides[0], 2 << 32);
    assert_eq!(rt; lane.take_out().len(), 0);
    match left(lane) {
        Some(left) => {
            let want = "at 2 submit\nsec 0 0\ntry 0 1 sent 0 0\n\
                at 3 submit\nsec 0 1\ntry 1 1 sent 1 0\n\
                at 4 finish 2\nfin 0 1 1 0000 done\nfin 1 1 1 0000 done\nat 0 finish 0\n";
            assert_eq!(rt; told(alloc, &left.notes)?.as_str(), want);
            assert_eq!(rt; left.rows.len(), 0);
            assert_eq!(rt; left.ended.len(), 2);
            assert_eq!(rt; done(left.ended.as_slice()), 2);
        }
        None => assert!(rt; false),
    }
    Ok(())
}

/// A submit, a finish that comes back, a requeue and a finish.
fn goes_and_comes_back() -> [Numbered1; 4]
    ensures { HasNoKeeperLine result }
{
    [
        at(3, Line::Submit(req(0), node(0))),
        at(4, Line::Finish(req(0))),
        at(5, Line::Requeue),
        at(6, Line::Finish(req(0))),
    ]
}

#[test]
fn a_request_comes_back_and_is_requeued(rt: HostRuntime) -> Result<(), Fail> {
    let alloc = rt.alloc();
    let mut plain = Plain::make(alloc, &two_paths(), 100)?;
    let world = world_of(alloc, &CHANGE)?;
    let mut answers = Answers::make(alloc);
    answers.add(req(0), 1, 0x0370)?;
    let mut lane = lane_of(alloc, &plain, &goes_and_comes_back())?;
    assert!(rt; run(&mut lane, &mut plain, &world, &answers, 2));
    // Without a list the lane takes no step.
    assert!(rt; step(&mut lane, &mut plain, &world, &answers).is_none());
    assert!(rt; matches!(give_back(&mut lane, &plain), Some(1)));
    assert!(rt; run(&mut lane, &mut plain, &world, &answers, 2));
    let end = step(&mut lane, &mut plain, &world, &answers);
    assert!(rt; matches!(end, Some(Stepped::Ended)));
    assert_eq!(rt; plain.left(), 97);
    match left(lane) {
        Some(left) => {
            let want = "at 3 submit\nsec 0 0\ntry 0 1 sent 0 0\n\
                at 4 finish 1\nsec 0 1\nfin 0 1 1 0370 back -\n\
                at 5 requeue 1\nsec 0 2\ntry 0 2 sent 0 0\n\
                at 6 finish 1\nfin 0 2 1 0000 done\nat 0 finish 0\n";
            assert_eq!(rt; told(alloc, &left.notes)?.as_str(), want);
            assert_eq!(rt; left.rows.len(), 0);
            assert_eq!(rt; done(left.ended.as_slice()), 1);
        }
        None => assert!(rt; false),
    }
    Ok(())
}

/// Two submits on one node.
fn two_to_one_node() -> [Numbered1; 2]
    ensures { HasNoKeeperLine result }
{
    [
        at(2, Line::Submit(req(0), node(0))),
        at(3, Line::Submit(req(1), node(0))),
    ]
}

#[test]
fn what_came_back_is_taken_out(rt: HostRuntime) -> Result<(), Fail> {
    let alloc = rt.alloc();
    let mut plain = Plain::make(alloc, &two_paths(), 100)?;
    let world = world_of(alloc, &CHANGE)?;
    let mut answers = Answers::make(alloc);
    answers.add(req(0), 1, 0x0302)?;
    let mut lane = lane_of(alloc, &plain, &two_to_one_node())?;
    assert!(rt; run(&mut lane, &mut plain, &world, &answers, 2));
    let end = step(&mut lane, &mut plain, &world, &answers);
    assert!(rt; matches!(end, Some(Stepped::Ended)));
    let out = lane.take_out();
    assert_eq!(rt; out.len(), 1);
    for request in out.as_slice() {
        assert_eq!(rt; request.id().get(), 0);
        assert!(rt; matches!(request.outcome(), Outcome::Waiting));
    }
    match left(lane) {
        Some(left) => {
            let want = "at 2 submit\nsec 0 0\ntry 0 1 sent 0 0\n\
                at 3 submit\nsec 0 1\ntry 1 1 sent 0 0\n\
                at 0 finish 2\nsec 0 2\nfin 0 1 1 0302 back -\nfin 1 1 1 0000 done\n";
            assert_eq!(rt; told(alloc, &left.notes)?.as_str(), want);
            assert_eq!(rt; done(left.ended.as_slice()), 1);
        }
        None => assert!(rt; false),
    }
    Ok(())
}

/// A page, a timeout that was armed and one that was not, a refused state, and a controller without a path.
fn row_changes() -> [Numbered1; 5]
    ensures { HasNoKeeperLine result }
{
    let first = Ctrl::make(0).unwrap();
    [
        at(2, Line::Log(first, 0)),
        at(3, Line::Anatt(first)),
        at(4, Line::Anatt(first)),
        at(5, Line::Ctrl(first, CState::Dead)),
        at(6, Line::Ctrl(Ctrl::make(2).unwrap(), CState::Resetting)),
    ]
}

#[test]
fn rows_are_changed(rt: HostRuntime) -> Result<(), Fail> {
    let alloc = rt.alloc();
    let mut plain = Plain::make(alloc, &two_paths(), 100)?;
    let world = world_of(alloc, &CHANGE)?;
    let answers = Answers::make(alloc);
    let mut lane = lane_of(alloc, &plain, &row_changes())?;
    assert!(rt; run(&mut lane, &mut plain, &world, &answers, 5));
    let end = step(&mut lane, &mut plain, &world, &answers);
    assert!(rt; matches!(end, Some(Stepped::Ended)));
    assert_eq!(rt; plain.left(), 95);
    match left(lane) {
        Some(left) => {
            let want = "sec 0 0\nat 2 changed 0 1\nsec 0 1\nat 3 changed 0 2\n\
                sec 0 2\nat 4 not-armed 0 2\nsec 0 3\nat 5 refused 0 2 resetting\n\
                sec 0 4\nat 6 no-path 0\nat 0 finish 0\n";
            assert_eq!(rt; told(alloc, &left.notes)?.as_str(), want);
            let rows = left.rows.as_slice();
            assert_eq!(rt; rows.len(), 2);
            if rows.len() == 2 {
                assert_eq!(rt; rows[0].row.version, 1);
                assert_eq!(rt; rows[0].row.state, 15);
                assert!(rt; rows[0].row.armed);
                assert_eq!(rt; rows[1].row.version, 2);
                assert!(rt; matches!(rows[1].row.cstate, CState::Resetting));
                assert!(rt; !rows[1].row.armed);
            }
        }
        None => assert!(rt; false),
    }
    Ok(())
}

/// Two pages, of which the second is in no box.
fn two_pages() -> [Numbered1; 2]
    ensures { HasNoKeeperLine result }
{
    let first = Ctrl::make(0).unwrap();
    [at(2, Line::Log(first, 0)), at(3, Line::Log(first, 1))]
}

#[test]
fn a_refused_page_changes_nothing(rt: HostRuntime) -> Result<(), Fail> {
    let alloc = rt.alloc();
    let mut plain = Plain::make(alloc, &two_paths(), 100)?;
    let world = world_of(alloc, &CHANGE[..51])?;
    let answers = Answers::make(alloc);
    let mut lane = lane_of(alloc, &plain, &two_pages())?;
    assert!(rt; run(&mut lane, &mut plain, &world, &answers, 2));
    let end = step(&mut lane, &mut plain, &world, &answers);
    assert!(rt; matches!(end, Some(Stepped::Ended)));
    assert_eq!(rt; plain.left(), 100);
    assert_eq!(rt; plain.words().rows[0], 0x0000_4240_0000_0000);
    assert_eq!(rt; plain.words().sides[0], 0);
    match left(lane) {
        Some(left) => {
            let want = "at 2 page 6 16\nat 3 page 1 0\nat 0 finish 0\n";
            assert_eq!(rt; told(alloc, &left.notes)?.as_str(), want);
            assert_eq!(rt; left.rows.len(), 0);
        }
        None => assert!(rt; false),
    }
    Ok(())
}

/// Three lines that submit a request each.
fn three_submits() -> [Numbered1; 3]
    ensures { HasNoKeeperLine result }
{
    [
        at(2, Line::Submit(req(0), node(0))),
        at(3, Line::Submit(req(1), node(0))),
        at(4, Line::Submit(req(2), node(0))),
    ]
}

#[test]
fn the_end_has_a_unit(rt: HostRuntime) -> Result<(), Fail> {
    let alloc = rt.alloc();
    let world = world_of(alloc, &CHANGE)?;
    let answers = Answers::make(alloc);
    let mut enough = Plain::make(alloc, &two_paths(), 4)?;
    let mut lane = lane_of(alloc, &enough, &three_submits())?;
    assert!(rt; run(&mut lane, &mut enough, &world, &answers, 3));
    let end = step(&mut lane, &mut enough, &world, &answers);
    assert!(rt; matches!(end, Some(Stepped::Ended)));
    assert_eq!(rt; enough.left(), 1);
    assert_eq!(rt; enough.words().depths[0], 0);
    Ok(())
}

#[test]
fn the_end_needs_a_unit(rt: HostRuntime) -> Result<(), Fail> {
    let alloc = rt.alloc();
    let world = world_of(alloc, &CHANGE)?;
    let answers = Answers::make(alloc);
    let mut short = Plain::make(alloc, &two_paths(), 3)?;
    let mut lane = lane_of(alloc, &short, &three_submits())?;
    assert!(rt; run(&mut lane, &mut short, &world, &answers, 3));
    assert_eq!(rt; short.words().depths[0], 3);
    let end = step(&mut lane, &mut short, &world, &answers);
    assert!(rt; matches!(end, Some(Stepped::Spent)));
    assert_eq!(rt; short.words().depths[0], 0);
    assert_eq!(rt; lane.take_out().len(), 0);
    match left(lane) {
        Some(left) => {
            let want = "at 2 submit\nsec 0 0\ntry 0 1 sent 0 0\n\
                at 3 submit\nsec 0 1\ntry 1 1 sent 0 0\n\
                at 4 submit\nsec 0 2\ntry 2 1 sent 0 0\nat 0 finish 3\n";
            assert_eq!(rt; told(alloc, &left.notes)?.as_str(), want);
            assert_eq!(rt; left.ended.len(), 0);
        }
        None => assert!(rt; false),
    }
    Ok(())
}

/// Two submits, a finish of both and a requeue.
fn two_come_back() -> [Numbered1; 4]
    ensures { HasNoKeeperLine result }
{
    [
        at(4, Line::Submit(req(0), node(0))),
        at(5, Line::Submit(req(1), node(0))),
        at(6, Line::FinishAll),
        at(7, Line::Requeue),
    ]
}

/// The status of a failover without ANA for the first attempt of requests 0 and 1.
fn both_fail_over(alloc: Global) -> Result<Answers, AnswerError> {
    wide_answers(alloc, 2)
}

#[test]
fn units_end_in_a_finish(rt: HostRuntime) -> Result<(), Fail> {
    let alloc = rt.alloc();
    let world = world_of(alloc, &CHANGE)?;
    let answers = both_fail_over(alloc)?;
    // One flight comes back, which takes the last unit, and none is left to the other.
    let mut short = Plain::make(alloc, &two_paths(), 3)?;
    let mut lane = lane_of(alloc, &short, &two_come_back())?;
    assert!(rt; run(&mut lane, &mut short, &world, &answers, 2));
    let end = step(&mut lane, &mut short, &world, &answers);
    assert!(rt; matches!(end, Some(Stepped::Spent)));
    assert_eq!(rt; short.words().depths[0], 0);
    assert_eq!(rt; lane.take_out().len(), 1);
    match left(lane) {
        Some(left) => {
            let want = "at 4 submit\nsec 0 0\ntry 0 1 sent 0 0\n\
                at 5 submit\nsec 0 1\ntry 1 1 sent 0 0\n\
                at 6 finish 2\nsec 0 2\nfin 0 1 1 0370 back -\n";
            assert_eq!(rt; told(alloc, &left.notes)?.as_str(), want);
        }
        None => assert!(rt; false),
    }
    Ok(())
}

#[test]
fn units_end_in_a_requeue(rt: HostRuntime) -> Result<(), Fail> {
    let alloc = rt.alloc();
    let world = world_of(alloc, &CHANGE)?;
    let answers = both_fail_over(alloc)?;
    // One request of the list is sent, which takes the last unit, and none is left to the other.
    let mut short = Plain::make(alloc, &two_paths(), 5)?;
    let mut lane = lane_of(alloc, &short, &two_come_back())?;
    assert!(rt; run(&mut lane, &mut short, &world, &answers, 3));
    assert!(rt; matches!(give_back(&mut lane, &short), Some(2)));
    let end = step(&mut lane, &mut short, &world, &answers);
    assert!(rt; matches!(end, Some(Stepped::Spent)));
    assert_eq!(rt; short.words().depths[0], 0);
    assert_eq!(rt; lane.take_out().len(), 0);
    match left(lane) {
        Some(left) => {
            let want = "at 4 submit\nsec 0 0\ntry 0 1 sent 0 0\n\
                at 5 submit\nsec 0 1\ntry 1 1 sent 0 0\n\
                at 6 finish 2\nsec 0 2\nfin 0 1 1 0370 back -\nsec 0 3\nfin 1 1 1 0370 back -\n\
                at 7 requeue 2\nsec 0 4\ntry 0 2 sent 0 0\n";
            assert_eq!(rt; told(alloc, &left.notes)?.as_str(), want);
            assert_eq!(rt; left.ended.len(), 0);
        }
        None => assert!(rt; false),
    }
    Ok(())
}

/// Stops a lane.
fn stop(lane: &mut Lane, plain: &mut Plain)
    requires ready { IsReady lane.old (told_core plain.old) }
    ensures { IsReady lane.new (told_core plain.new) }
{
    lane.stop(plain);
}

/// A submit on each node.
fn two_submits() -> [Numbered1; 2]
    ensures { HasNoKeeperLine result }
{
    [
        at(2, Line::Submit(req(0), node(0))),
        at(3, Line::Submit(req(1), node(1))),
    ]
}

#[test]
fn a_stopped_lane_has_no_flight(rt: HostRuntime) -> Result<(), Fail> {
    let alloc = rt.alloc();
    let mut plain = Plain::make(alloc, &two_paths(), 100)?;
    let world = world_of(alloc, &CHANGE)?;
    let answers = Answers::make(alloc);
    let mut lane = lane_of(alloc, &plain, &two_submits())?;
    assert!(rt; run(&mut lane, &mut plain, &world, &answers, 1));
    assert_eq!(rt; plain.words().depths[0], 1);
    stop(&mut lane, &mut plain);
    assert_eq!(rt; plain.words().depths[0], 0);
    assert_eq!(rt; plain.left(), 99);
    assert!(rt; step(&mut lane, &mut plain, &world, &answers).is_none());
    match left(lane) {
        Some(left) => {
            let want = "at 2 submit\nsec 0 0\ntry 0 1 sent 0 0\n";
            assert_eq!(rt; told(alloc, &left.notes)?.as_str(), want);
            assert_eq!(rt; left.ended.len(), 0);
        }
        None => assert!(rt; false),
    }
    Ok(())
}

/// So many lines that submit a request each, one that finishes all, a requeue, and one more that finishes all.
fn wide_lines(alloc: Global, count: u32) -> Result<Vec<Numbered1>, AllocError>
    requires { count ≤ 60000 }
    ensures { IfOk result (λ lines. HasNoKeeperLine lines.items) }
{
    // The proof needs each type inside a line named here.
    let _: (Option<Line>, Option<CState>, Option<Policy>) = (None, None, None);
    let mut lines = Vec::new(alloc);
    for number in 0..count {
        lines.push(at(number + 1, Line::Submit(req(number), node(0))))?;
    }
    lines.push(at(count + 1, Line::FinishAll))?;
    lines.push(at(count + 2, Line::Requeue))?;
    lines.push(at(count + 3, Line::FinishAll))?;
    Ok(lines)
}

/// The status of a failover without ANA for the first attempt of each of so many requests.
fn wide_answers(alloc: Global, count: u32) -> Result<Answers, AnswerError>
    requires { count ≤ 60000 }
{
    let mut answers = Answers::make(alloc);
    for number in 0..count {
        let id = req(number);
        if !answers.has(id, 1) {
            answers.add(id, 1, 0x0370)?;
        }
    }
    Ok(answers)
}

#[test]
fn thousands_of_requests_fly_and_are_requeued(rt: HostRuntime) -> Result<(), Fail> {
    let alloc = rt.alloc();
    let mut plain = Plain::make(alloc, &two_paths(), 10_000)?;
    let world = world_of(alloc, &CHANGE)?;
    let answers = wide_answers(alloc, 3_000)?;
    let lines = wide_lines(alloc, 3_000)?;
    let mut lane = lane_of(alloc, &plain, lines.as_slice())?;
    assert!(rt; run(&mut lane, &mut plain, &world, &answers, 3_000));
    assert_eq!(rt; plain.words().depths[0], 3_000);
    assert!(rt; run(&mut lane, &mut plain, &world, &answers, 1));
    assert_eq!(rt; plain.words().depths[0], 0);
    assert!(rt; matches!(give_back(&mut lane, &plain), Some(3_000)));
    assert!(rt; run(&mut lane, &mut plain, &world, &answers, 2));
    let end = step(&mut lane, &mut plain, &world, &answers);
    assert!(rt; matches!(end, Some(Stepped::Ended)));
    assert_eq!(rt; plain.left(), 1_000);
    match left(lane) {
        Some(left) => {
            // Three lines of text for each submit, two for each flight that came back, two for each try of the
            // requeue, one for each that is done, and one for each of the other lines.
            assert_eq!(rt; left.notes.len(), 24_004);
            assert_eq!(rt; left.ended.len(), 3_000);
            assert_eq!(rt; done(left.ended.as_slice()), 3_000);
        }
        None => assert!(rt; false),
    }
    Ok(())
}
