//! A union of many edges, which are counted plainly.

use crate::combine::graphs::union_of;
use crate::looks::Made;
use sgb_graph::{Graph, Refusal, VertexNo};
use std::alloc::Global;

// A graph of 1,000 vertices with 50 edges from each to others in steps of this.
fn stepping(alloc: Global, step: u32) -> Made {
    let mut graph = Graph::new(alloc, 1000)?;
    insert_steps(&mut graph, step)?;
    Ok(graph)
}

fn insert_steps(graph: &mut Graph, step: u32) -> Result<(), Refusal> {
    for v in 0..1000u32 {
        insert_from(graph, v, step)?;
    }
    Ok(())
}

fn insert_from(graph: &mut Graph, v: u32, step: u32) -> Result<(), Refusal> {
    for k in 1..51u32 {
        graph.new_edge(VertexNo(v), VertexNo(stepped(v, k, step)), 1)?;
    }
    Ok(())
}

fn stepped(v: u32, k: u32, step: u32) -> u32 {
    (v % 1000 + k % 64 * (step % 64)) % 1000
}

// How many arcs the lists of all vertices have, one by one.
fn walked(made: Made) -> usize {
    match &made {
        Ok(graph) => count_arcs(graph),
        Err(_) => 0,
    }
}

fn count_arcs(graph: &Graph) -> usize {
    let mut count = 0usize;
    for v in 0..graph.n() {
        count = count.saturating_add(graph.arcs(VertexNo(v)).count());
    }
    count
}

// How many arcs the union of steps of 1 to 50 and of 3 to 150 by threes has.
fn walked_union(alloc: Global, multi: bool) -> usize {
    walked(union_of_steps(alloc, multi))
}

fn union_of_steps(alloc: Global, multi: bool) -> Made {
    union_of(
        alloc,
        &stepping(alloc, 1),
        &stepping(alloc, 3),
        multi,
        false,
    )
}

// How many that are, counted plainly: each vertex has an edge for each step that either graph takes, or with `multi` one
// for each graph that takes it.
fn counted_steps(multi: bool) -> usize {
    let mut count = 0usize;
    for step in 1..151u32 {
        let first = step <= 50;
        let second = step % 3 == 0;
        let edges = usize::from(first || second) + usize::from(multi && first && second);
        count = count.saturating_add(edges * 2000);
    }
    count
}

#[test]
fn of_many_edges(rt: HostRuntime) {
    assert!(rt; has_steps(rt.alloc(), true, 200_000));
    // 16 of the steps by threes are below 51.
    assert!(rt; has_steps(rt.alloc(), false, 168_000));
}

// Whether so many are counted, and the union has as many.
fn has_steps(alloc: Global, multi: bool, count: usize) -> bool {
    counted_steps(multi) == count && walked_union(alloc, multi) == counted_steps(multi)
}
