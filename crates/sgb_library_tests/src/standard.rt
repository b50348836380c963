use sgb_graph::{Graph, Refusal};
use sgb_make::{BoardSpec, SubsetsSpec, board, subsets};
use std::alloc::Global;
use std::test::Fail;

/// The pairs out of five, joined where they have nothing in common: the Petersen graph.
pub fn petersen(alloc: Global) -> Result<Graph, Refusal> {
    let spec = SubsetsSpec {
        n: 2,
        n0: 1,
        n1: -4,
        n2: 0,
        n3: 0,
        n4: 0,
        size_bits: 1,
        directed: false,
    };
    subsets(alloc, &spec)
}

/// The moves of a chess knight.
fn knight(alloc: Global) -> Result<Graph, Refusal> {
    let spec = BoardSpec {
        n1: 8,
        n2: 8,
        n3: 0,
        n4: 0,
        piece: 5,
        wrap: 0,
        directed: false,
    };
    board(alloc, &spec)
}

/// How many vertices a graph has, and how many arcs: two for each edge.
pub fn counts(graph: &Graph) -> (u32, u32) {
    (graph.n(), graph.m())
}

#[test]
fn known_graphs_have_their_counts(rt: HostRuntime) -> Result<(), Fail> {
    assert!(rt; counts(&petersen(rt.alloc())?) == (10, 30));
    assert!(rt; counts(&knight(rt.alloc())?) == (64, 336));
    Ok(())
}
