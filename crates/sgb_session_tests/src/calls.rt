//! Single commands of a session without a journal. What a line is answered stands in `tests/corpus/`.

use crate::lines::{named, one};
use sgb_graph::{ArcNo, Graph, Refusal, VertexNo};
use sgb_script::{Command, Name, ShellRefusal};
use sgb_session::{Boxed, Delta, Mark, Reply, Session, SingleDelta, SingleReply, Source};
use sgb_undo::Reversible;
use std::alloc::Global;
use std::process::Abort;
use std::test::Fail;

fn apply_to(session: &mut Session, command: &Command) -> Result<(Delta, Reply), ShellRefusal> {
    session.apply(command)
}

// What a line does to a session.
fn done(alloc: Global, session: &mut Session, line: &[u8]) -> Result<(Delta, Reply), ShellRefusal> {
    let command = one(alloc, line)?;
    apply_to(session, &command)
}

// Performs a line, whatever it answers.
fn perform(alloc: Global, session: &mut Session, line: &[u8]) -> Result<(), ShellRefusal> {
    let _answer = done(alloc, session, line)?;
    Ok(())
}

// Two graphs, a and b; b has an arc and an edge. Whoever owns a session calls little that can fail.
fn two_graphs(alloc: Global) -> Result<Session, ShellRefusal> {
    let mut session = Session::new(alloc);
    make_two(alloc, &mut session)?;
    Ok(session)
}

fn make_two(alloc: Global, session: &mut Session) -> Result<(), ShellRefusal> {
    perform(alloc, session, b"graph a 1")?;
    perform(alloc, session, b"graph b 2")?;
    perform(alloc, session, b"arc b 0 1 5")?;
    perform(alloc, session, b"edge b 1 0 6")
}

// The graph b, made by calls of its own.
fn graph_b(alloc: Global) -> Result<Graph, Refusal> {
    let mut graph = Graph::new(alloc, 2)?;
    join(&mut graph)?;
    Ok(graph)
}

fn join(graph: &mut Graph) -> Result<(), Refusal> {
    let _arc = graph.new_arc(VertexNo(0), VertexNo(1), 5)?;
    let _edge = graph.new_edge(VertexNo(1), VertexNo(0), 6)?;
    Ok(())
}

// Whether the graph at this place has this name.
fn is_named(session: &Session, place: usize, name: &[u8]) -> bool {
    place < session.len() && session.name_at(place).bytes() == name
}

// How many vertices, arcs and numbers the graph at this place has.
fn counts_of(session: &Session, place: usize) -> Option<(u32, u32, u32)> {
    if place >= session.len() {
        return None;
    }
    let graph = session.graph_at(place);
    Some((graph.n(), graph.m(), graph.made()))
}

fn found(session: &Session, name: &[u8]) -> Result<Option<usize>, ShellRefusal> {
    Ok(session.find(&named(name)?))
}

#[test]
fn graphs_are_counted_and_found(rt: HostRuntime) -> Result<(), Fail> {
    let session = two_graphs(rt.alloc())?;
    expect_two(&rt, &session)
}

fn expect_two(rt: &impl Abort, session: &Session) -> Result<(), Fail> {
    assert!(rt; session.len() == 2);
    assert!(rt; is_named(session, 0, b"a"));
    assert!(rt; counts_of(session, 1) == Some((2, 3, 3)));
    for (name, place) in [(b"a", Some(0)), (b"b", Some(1)), (b"A", None)] {
        assert!(rt; found(session, name)? == place);
    }
    assert!(rt; named(b"9").is_err());
    Ok(())
}

// Whether a line leaves this delta.
fn leaves(
    alloc: Global,
    session: &mut Session,
    line: &[u8],
    wanted: SingleDelta,
) -> Result<bool, ShellRefusal> {
    let (delta, _reply) = done(alloc, session, line)?;
    Ok(delta == Delta::One(wanted))
}

// Whether a line leaves the delta of the drop of the graph b, at place 1.
fn drops_b(alloc: Global, session: &mut Session, line: &[u8]) -> Result<bool, Fail> {
    let dropped = dropped_b(alloc, named(b"b")?)?;
    Ok(leaves(alloc, session, line, dropped)?)
}

fn dropped_b(alloc: Global, name: Name) -> Result<SingleDelta, Refusal> {
    let graph = Boxed::new(alloc, graph_b(alloc)?)?;
    Ok(SingleDelta::Dropped(1, name, graph))
}

#[test]
fn each_kind_of_delta_is_left(rt: HostRuntime) -> Result<(), Fail> {
    let mut session = two_graphs(rt.alloc())?;
    expect_deltas(&rt, rt.alloc(), &mut session)
}

fn expect_deltas(rt: &impl Abort, alloc: Global, session: &mut Session) -> Result<(), Fail> {
    let first = SingleDelta::Seed(Mark::new(0));
    assert!(rt; leaves(alloc, session, b"seed 3", first)?);
    assert!(rt; leaves(alloc, session, b"next", SingleDelta::Draws(1))?);
    assert!(rt; leaves(alloc, session, b"unif 1", SingleDelta::Draws(1))?);
    assert!(rt; leaves(alloc, session, b"graph c 3", SingleDelta::Made)?);
    assert!(rt; drops_b(alloc, session, b"drop b")?);
    Ok(())
}

const ON: &[u8] = b"random r 10 1 0 0 1 1 6 -";

const SEEDED: &[u8] = b"random s 10 1 0 0 1 1 6 5";

// What is left of a random graph of one arc: two vertices and a length are drawn.
#[test]
fn a_random_graph_leaves_what_turns_the_generator_back(rt: HostRuntime) -> Result<(), Fail> {
    let mut session = Session::new(rt.alloc());
    expect_random(&rt, rt.alloc(), &mut session)
}

fn expect_random(rt: &impl Abort, alloc: Global, session: &mut Session) -> Result<(), Fail> {
    let on = SingleDelta::MadeBy(Source::Draws(3));
    assert!(rt; leaves(alloc, session, ON, on)?);
    assert!(rt; session.generator() == (0, 3, 51));
    let mut before = Mark::new(0);
    draw_three(&mut before);
    let seeded = SingleDelta::MadeBy(Source::Seeded(before));
    assert!(rt; leaves(alloc, session, SEEDED, seeded)?);
    assert!(rt; session.generator() == (5, 3, 51));
    Ok(())
}

fn draw_three(mark: &mut Mark) {
    for _ in 0..3u32 {
        if mark.draws() < 3 {
            mark.next();
        }
    }
}

// Whether a line leaves the delta of an edit of b.
fn edits_b(alloc: Global, session: &mut Session, line: &str) -> Result<bool, ShellRefusal> {
    let (delta, _reply) = done(alloc, session, line.as_bytes())?;
    Ok(matches!(delta, Delta::One(SingleDelta::Edit(1, _))))
}

#[test]
fn an_edit_tells_its_place(rt: HostRuntime) -> Result<(), Fail> {
    let mut session = two_graphs(rt.alloc())?;
    expect_edits(&rt, rt.alloc(), &mut session)
}

fn expect_edits(rt: &impl Abort, alloc: Global, session: &mut Session) -> Result<(), Fail> {
    let edits: [&str; 8] = [
        "arc b 0 1 1",
        "edge b 0 1 1",
        "cut b 0",
        "len b 1 9",
        "set b V0 u 1",
        "types b IZZZZZZZZZZZZZ",
        "label b 0 \"x\"",
        "id b \"y\"",
    ];
    for edit in edits {
        assert!(rt; edits_b(alloc, session, edit)?, "{edit}");
    }
    Ok(())
}

// Whether a new arc of b gets this number.
fn makes_arc(alloc: Global, session: &mut Session, number: u32) -> Result<bool, ShellRefusal> {
    let (_delta, reply) = done(alloc, session, b"arc b 0 1 7")?;
    Ok(reply == Reply::One(SingleReply::Arc(ArcNo(number))))
}

#[test]
fn thousands_of_arcs_are_applied(rt: HostRuntime) -> Result<(), Fail> {
    let mut session = two_graphs(rt.alloc())?;
    make_thousands(&rt, rt.alloc(), &mut session)
}

fn make_thousands(rt: &impl Abort, alloc: Global, session: &mut Session) -> Result<(), Fail> {
    for number in 3..10_000u32 {
        assert!(rt; makes_arc(alloc, session, number)?);
    }
    Ok(())
}
