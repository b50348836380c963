//! Graphs that are built by insertions.

use crate::looks::{has_counts, has_id, has_label, is_arc, shows};
use sgb_graph::{Builder, Graph, Label, Refusal, Text, Types, Util, VertexNo};
use std::alloc::Global;
use std::test::Fail;

fn begun(alloc: Global, directed: bool) -> Result<Builder, Refusal> {
    let id = Text::new(alloc, b"two")?;
    if id.bytes().len() > 160 {
        return Err(Refusal::TooLarge);
    }
    Ok(Builder::new(alloc, id, Types::none(), directed))
}

fn push_vertex(alloc: Global, builder: &mut Builder, label: &[u8]) -> Result<(), Refusal> {
    let fields = [
        Util::Int(0),
        Util::Int(2),
        Util::Zero,
        Util::Zero,
        Util::Zero,
        Util::Zero,
    ];
    builder.push_vertex(Label::new(Text::new(alloc, label)?), fields)
}

fn insert(builder: &mut Builder, from: u32, to: u32, len: i64) -> Result<(), Refusal> {
    let n = builder.graph().n();
    if from >= n || to >= n {
        return Err(Refusal::BadOperand);
    }
    builder.insert(VertexNo(from), VertexNo(to), len)
}

// Two vertices, a and b, and one insertion between them. Whoever owns a builder calls little that can fail.
fn two_vertices(alloc: Global, directed: bool) -> Result<Graph, Refusal> {
    let mut builder = begun(alloc, directed)?;
    insert_one(alloc, &mut builder)?;
    Ok(builder.finish())
}

fn insert_one(alloc: Global, builder: &mut Builder) -> Result<(), Refusal> {
    builder.reserve_vertices(2)?;
    builder.reserve(1)?;
    push_vertex(alloc, builder, b"a")?;
    push_vertex(alloc, builder, b"b")?;
    insert(builder, 1, 0, 9)
}

// Where a growth is refused, the graph is asked for once more.
fn two_vertices_again(alloc: Global) -> Result<Graph, Refusal> {
    match two_vertices(alloc, false) {
        Err(Refusal::NoRoom) => two_vertices(alloc, false),
        made => made,
    }
}

#[test]
fn an_edge_is_inserted(rt: HostRuntime) -> Result<(), Fail> {
    assert!(rt; shows(two_vertices_again(rt.alloc()), is_edge)?);
    Ok(())
}

fn is_edge(graph: &Graph) -> bool {
    has_id(graph, b"two")
        && has_label(graph, 1, b"b")
        && has_counts(graph, 2, 2)
        && is_arc(graph, 1, 1, 0, 9)
}

#[test]
fn an_arc_is_inserted(rt: HostRuntime) -> Result<(), Fail> {
    assert!(rt; shows(two_vertices(rt.alloc(), true), is_lone_arc)?);
    Ok(())
}

fn is_lone_arc(graph: &Graph) -> bool {
    has_counts(graph, 1, 1) && is_arc(graph, 0, 1, 0, 9)
}

fn push_three(alloc: Global, builder: &mut Builder) -> Result<(), Refusal> {
    push_vertex(alloc, builder, b"")?;
    push_vertex(alloc, builder, b"")?;
    push_vertex(alloc, builder, b"")
}

fn insert_two(builder: &mut Builder) -> Result<(), Refusal> {
    insert(builder, 0, 1, 4)?;
    insert(builder, 0, 2, 4)
}

// Three vertices, and insertions from the first to the two others.
fn three_vertices(alloc: Global, directed: bool) -> Result<Graph, Refusal> {
    let mut builder = begun(alloc, directed)?;
    push_three(alloc, &mut builder)?;
    insert_two(&mut builder)?;
    Ok(builder.finish())
}

#[test]
fn two_arcs_are_inserted(rt: HostRuntime) -> Result<(), Fail> {
    assert!(rt; shows(three_vertices(rt.alloc(), true), are_two_arcs)?);
    Ok(())
}

#[test]
fn two_edges_are_inserted(rt: HostRuntime) -> Result<(), Fail> {
    assert!(rt; shows(three_vertices(rt.alloc(), false), are_two_edges)?);
    Ok(())
}

fn are_two_arcs(graph: &Graph) -> bool {
    is_row(graph, 2, 1)
}

fn are_two_edges(graph: &Graph) -> bool {
    is_row(graph, 4, 2)
}

// So many arcs, the first to the second vertex, and the one of this number to the third.
fn is_row(graph: &Graph, count: u32, number: u32) -> bool {
    has_counts(graph, count, count) && is_arc(graph, 0, 0, 1, 4) && is_arc(graph, number, 0, 2, 4)
}
