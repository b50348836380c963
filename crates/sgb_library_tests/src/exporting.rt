use sgb_export::{ExportFault, Format, export};
use sgb_graph::{Graph, VertexNo};
use sgb_print::MeteredWriter;
use std::alloc::Global;
use std::test::Fail;

const EDGE: &str = "c gb_new_graph(2)
p sp 2 2
a 1 2 5
a 2 1 5
";

/// The text of a graph for a path solver.
fn text_of(alloc: Global, graph: &Graph) -> Result<Vec<u8>, ExportFault> {
    let mut writer = MeteredWriter::new(Vec::new(alloc));
    export(alloc, graph, Format::Dimacs, &mut writer)?;
    Ok(writer.into_inner())
}

#[test]
fn an_edge_is_written_for_a_path_solver(rt: HostRuntime) -> Result<(), Fail> {
    let mut graph = Graph::new(rt.alloc(), 2)?;
    graph.new_edge(VertexNo(0), VertexNo(1), 5)?;
    assert!(rt; text_of(rt.alloc(), &graph)?.as_slice() == EDGE.as_bytes());
    Ok(())
}
