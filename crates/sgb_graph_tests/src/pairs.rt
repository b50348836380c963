//! Arcs with their other halves.

use crate::edits::{arc, edge, new_graph};
use crate::looks::{holds, is_paired};
use sgb_graph::{ArcNo, Graph, Refusal, VertexNo};
use std::test::Fail;

#[test]
fn edges_are_paired(rt: HostRuntime) -> Result<(), Fail> {
    assert!(rt; holds(new_graph(rt.alloc(), 2), are_edges_paired)?);
    Ok(())
}

fn are_edges_paired(graph: &mut Graph) -> Result<bool, Refusal> {
    let are_edges = is_paired(graph)
        && is_paired_behind_edge(graph, 1, 0)?
        && is_paired_behind_edge(graph, 1, 1)?
        && is_paired_behind_edge(graph, 1, 1)?;
    arc(graph, 0, 1, 1)?;
    Ok(are_edges && !is_paired(graph))
}

// Whether the graph is paired once it has this edge.
fn is_paired_behind_edge(graph: &mut Graph, from: u32, to: u32) -> Result<bool, Refusal> {
    edge(graph, from, to, 1)?;
    Ok(is_paired(graph))
}

// Whether the graph is paired while this arc is cut.
fn is_paired_without(graph: &mut Graph, number: u32) -> Result<bool, Refusal> {
    let delta = graph.cut(ArcNo(number))?;
    let paired = graph.is_paired();
    graph.revert(delta);
    Ok(paired)
}

// Whether the graph is paired while it has this arc too.
fn is_paired_with(graph: &mut Graph, from: u32, to: u32) -> Result<bool, Refusal> {
    let (_number, delta) = graph.new_arc(VertexNo(from), VertexNo(to), 1)?;
    let paired = graph.is_paired();
    graph.revert(delta);
    Ok(paired)
}

#[test]
fn a_half_alone_is_told(rt: HostRuntime) -> Result<(), Fail> {
    assert!(rt; holds(new_graph(rt.alloc(), 2), is_half_alone_told)?);
    Ok(())
}

fn is_half_alone_told(graph: &mut Graph) -> Result<bool, Refusal> {
    edge(graph, 1, 0, 1)?;
    edge(graph, 1, 1, 1)?;
    for number in 0..4u32 {
        if is_paired_without(graph, number)? {
            return Ok(false);
        }
    }
    Ok(
        is_paired(graph)
            && !is_paired_with(graph, 0, 0)?
            && !is_paired_with(graph, 0, 1)?
            && is_paired(graph),
    )
}
