use crate::standard::petersen;
use sgb_graph::{Graph, Tip, VertexNo};
use std::alloc::{AllocError, Global};
use std::test::Fail;

/// The vertices that the arcs of a vertex lead to, the newest arc first.
fn neighbours(alloc: Global, graph: &Graph, vertex: u32) -> Result<Vec<u32>, AllocError> {
    let mut found = Vec::new(alloc);
    if vertex >= graph.n() {
        return Ok(found);
    }
    for number in graph.arcs(VertexNo(vertex)) {
        if let Some(arc) = graph.arc(number)
            && let Tip::To(to) = arc.tip
        {
            found.push(to.0)?;
        }
    }
    Ok(found)
}

#[test]
fn a_pair_meets_three_others(rt: HostRuntime) -> Result<(), Fail> {
    let graph = petersen(rt.alloc())?;
    assert!(rt; neighbours(rt.alloc(), &graph, 0)?.as_slice() == [9, 8, 5].as_slice());
    Ok(())
}
