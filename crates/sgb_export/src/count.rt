//! Counts the lines of edges or arcs.
ghost use Rattle.std.specs.Prelude.{◌≡◌, ◌≤◌, ◌<◌, length};
ghost use Rattle.sgb_graph.specs.Graph.{n_of};
ghost use Rattle.sgb_export.specs.Links.{links, links_at};

use crate::link::{is_written, link_at};
use sgb_graph::{Graph, VertexNo};

// Counts the arcs of the graph that are written.
pub(crate) fn count_links(graph: &Graph, directed: bool) -> u64
    ensures { result ≡ length (links directed graph.now) }
{
    let mut count = 0;
    for v in 0..graph.n() {
        count += count_links_at(graph, VertexNo(v), directed);
    }
    count
}

// Counts the arcs of a vertex that are written.
fn count_links_at(graph: &Graph, vertex: VertexNo, directed: bool) -> u64
    requires { vertex.0 < n_of graph.now }
    ensures value { result ≡ length (links_at directed graph.now vertex.0) }
    ensures few { result ≤ 1000000 }
{
    let mut count = 0;
    for number in graph.walk(vertex, directed) {
        if !is_written(directed, link_at(graph, vertex, number)) {
            continue;
        }
        count += 1;
    }
    count
}
