use crate::standard::{counts, petersen};
use sgb_combine::{ComplementSpec, GunionSpec, complement, gunion};
use sgb_graph::{Graph, Refusal};
use std::alloc::Global;
use std::test::Fail;

/// What a graph does not join.
fn others(alloc: Global, graph: &Graph) -> Result<Graph, Refusal> {
    let spec = ComplementSpec {
        copy: false,
        loops: false,
        directed: false,
    };
    complement(alloc, graph, &spec)
}

/// What either of two graphs joins.
fn both(alloc: Global, first: &Graph, second: &Graph) -> Result<Graph, Refusal> {
    let spec = GunionSpec {
        multi: false,
        directed: false,
    };
    gunion(alloc, first, second, &spec)
}

/// A graph together with what it does not join.
fn all(alloc: Global, graph: &Graph) -> Result<Graph, Refusal> {
    let rest = others(alloc, graph)?;
    both(alloc, graph, &rest)
}

/// The counts of a graph that was made, or why it was not.
fn counts_of(made: Result<Graph, Refusal>) -> Result<(u32, u32), Refusal> {
    Ok(counts(&made?))
}

#[test]
fn a_graph_and_its_complement_join_all(rt: HostRuntime) -> Result<(), Fail> {
    let graph = petersen(rt.alloc())?;
    assert!(rt; counts_of(others(rt.alloc(), &graph))? == (10, 60));
    assert!(rt; counts_of(all(rt.alloc(), &graph))? == (10, 90));
    Ok(())
}
