use sgb_graph::{Graph, Refusal};
use sgb_make::{RandomSpec, random_graph};
use std::alloc::Global;
use std::test::Fail;

/// A random graph of 100 vertices and 300 edges, with lengths from 1 to 1,000.
pub fn drawn(alloc: Global, seed: i64) -> Result<Graph, Refusal> {
    let spec = RandomSpec {
        n: 100,
        m: 300,
        multi: 0,
        loops: false,
        directed: false,
        min: 1,
        max: 1000,
    };
    let (graph, _flip, _draws) = random_graph(alloc, &spec, seed)?;
    Ok(graph)
}

/// How many arcs the graph of a seed has: two for each edge.
fn arcs_of(alloc: Global, seed: i64) -> Result<u32, Refusal> {
    Ok(drawn(alloc, seed)?.m())
}

/// Whether two seeds have the same graph.
fn have_one_graph(alloc: Global, first: i64, second: i64) -> Result<bool, Refusal> {
    let graph = drawn(alloc, first)?;
    Ok(drawn(alloc, second)? == graph)
}

#[test]
fn a_seed_has_one_graph(rt: HostRuntime) -> Result<(), Fail> {
    assert!(rt; arcs_of(rt.alloc(), 5)? == 600);
    assert!(rt; have_one_graph(rt.alloc(), 5, 5)?);
    assert!(rt; !have_one_graph(rt.alloc(), 5, 6)?);
    Ok(())
}
