use sgb_graph::{Graph, Refusal, VertexNo};
use std::test::Fail;

/// How many arcs there are where one of three is cut, and where that is taken back.
fn cut_and_back(graph: &mut Graph) -> Result<(u32, u32), Refusal> {
    graph.new_edge(VertexNo(0), VertexNo(1), 5)?;
    let (number, _) = graph.new_arc(VertexNo(1), VertexNo(2), 7)?;
    let delta = graph.cut(number)?;
    let behind_the_cut = graph.m();
    graph.revert(delta);
    Ok((behind_the_cut, graph.m()))
}

#[test]
fn an_edit_is_taken_back(rt: HostRuntime) -> Result<(), Fail> {
    let mut graph = Graph::new(rt.alloc(), 3)?;
    assert!(rt; cut_and_back(&mut graph)? == (2, 3));
    let refused = graph.new_arc(VertexNo(0), VertexNo(3), 1).err();
    assert!(rt; refused == Some(Refusal::BadOperand));
    Ok(())
}
