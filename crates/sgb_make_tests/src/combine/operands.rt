//! Operands: their spokes, and the refusal of one that leads nowhere.

use crate::combine::graphs::{first, leading_to};
use crate::looks::Made;
use sgb_graph::{Graph, Refusal, Spoke, Tip, VertexNo, check_operand, read_spokes};
use std::alloc::{AllocError, Global};

// How many spokes vertex 1 has, and its first one.
fn of_vertex_1(
    alloc: Global,
    graph: &Graph,
    directed: bool,
) -> Result<(usize, Option<Spoke>), AllocError> {
    let mut spokes = Vec::new(alloc);
    if graph.n() > 1 {
        read_spokes(&mut spokes, graph, VertexNo(1), directed)?;
    }
    Ok((spokes.len(), spokes.first().copied()))
}

fn of_made(alloc: Global, made: &Made, directed: bool) -> Option<(usize, Option<Spoke>)> {
    match made {
        Ok(graph) => of_vertex_1(alloc, graph, directed).ok(),
        Err(_) => None,
    }
}

#[test]
fn spokes(rt: HostRuntime) {
    assert!(rt; reads_both(rt.alloc(), first(rt.alloc())));
}

fn reads_both(alloc: Global, graph: Made) -> bool {
    has_spokes(alloc, &graph, true, 4) && has_spokes(alloc, &graph, false, 3)
}

fn has_spokes(alloc: Global, graph: &Made, directed: bool, count: usize) -> bool {
    let newest = Some(Spoke { to: 1, len: 3 });
    of_made(alloc, graph, directed) == Some((count, newest))
}

// What is told of the graph as an operand.
fn told(made: Made) -> Result<(), Refusal> {
    match &made {
        Ok(graph) => check_operand(graph),
        Err(_) => Err(Refusal::NoRoom),
    }
}

fn told_of_first(alloc: Global) -> Result<(), Refusal> {
    told(first(alloc))
}

fn told_of(alloc: Global, tip: Tip) -> Result<(), Refusal> {
    told(leading_to(alloc, tip))
}

#[test]
fn checked(rt: HostRuntime) {
    assert!(rt; is_told(rt.alloc()));
}

fn is_told(alloc: Global) -> bool {
    told_of_first(alloc).is_ok()
        && told_of(alloc, Tip::Zero) == Err(Refusal::BadOperand)
        && told_of(alloc, Tip::One) == Err(Refusal::BadOperand)
        && told_of(alloc, Tip::To(VertexNo(0))).is_ok()
}
