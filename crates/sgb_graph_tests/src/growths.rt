//! What a refused growth leads to.

use crate::edits::{arc, edge, new_graph};
use crate::looks::holds;
use sgb_graph::{Graph, Refusal};
use std::alloc::Global;
use std::test::Fail;

// A graph of three vertices. Where a growth is refused, it is asked for once more.
fn three_vertices(alloc: Global) -> Result<Graph, Refusal> {
    match new_graph(alloc, 3) {
        Err(Refusal::NoRoom) => new_graph(alloc, 3),
        made => made,
    }
}

fn counts(graph: &Graph) -> (u32, u32) {
    (graph.made(), graph.m())
}

// Whether an arc is made. Where a growth is refused nothing has changed, and it is asked for once more.
fn is_arc_made(graph: &mut Graph, from: u32, to: u32) -> bool {
    let before = counts(graph);
    arc(graph, from, to, 1).is_ok() || counts(graph) == before && arc(graph, from, to, 1).is_ok()
}

fn is_edge_made(graph: &mut Graph, from: u32, to: u32) -> bool {
    let before = counts(graph);
    edge(graph, from, to, 1).is_ok() || counts(graph) == before && edge(graph, from, to, 1).is_ok()
}

#[test]
fn growths_are_granted_when_asked_again(rt: HostRuntime) -> Result<(), Fail> {
    assert!(rt; holds(three_vertices(rt.alloc()), are_granted)?);
    Ok(())
}

fn are_granted(graph: &mut Graph) -> Result<bool, Refusal> {
    for number in 0..40u32 {
        if !is_arc_made(graph, number % 3, number % 2)
            || !is_edge_made(graph, number % 3, number % 2)
        {
            return Ok(false);
        }
    }
    Ok(counts(graph) == (120, 120))
}
