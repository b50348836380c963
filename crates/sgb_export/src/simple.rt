//! Whether a graph has loops or repeated edges.
ghost use Rattle.std.specs.Prelude.{◌≡◌, ◌≤◌, ◌<◌, ◌+◌, All, IfOk, IfErr, length, false};
ghost use Rattle.sgb_graph.specs.Graph.{n_of};
ghost use Rattle.sgb_export.specs.Links.{links_at};
ghost use Rattle.sgb_export.specs.Simple.{are_simple, is_simple};

use crate::link::{is_written, link_at};
use sgb_graph::{Graph, Refusal, VertexNo};
use std::alloc::Global;

// Whether no edge is a loop, and no two have the same endpoints. Allocates a mark for each vertex.
pub(crate) fn is_simple(alloc: Global, graph: &Graph) -> Result<bool, Refusal>
    ensures ok { IfOk result (λ simple. simple ≡ is_simple graph.now) }
    ensures err { IfErr result (λ e. e ≡ Refusal.NoRoom) }
{
    let mut marks = vec![in alloc; 0u32; graph.n() as usize]?;
    for v in 0..graph.n() {
        if !is_simple_at(graph, VertexNo(v), &mut marks) {
            return Ok(false);
        }
    }
    Ok(true)
}

// Whether no edge that is written from the vertex is a loop, and no two lead to the same vertex. Marks where they lead,
// by one more than the number of the vertex, which no mark is yet.
fn is_simple_at(graph: &Graph, vertex: VertexNo, marks: &mut [u32]) -> bool
    requires vertex { vertex.0 < n_of graph.now }
    requires count { length marks.old ≡ n_of graph.now }
    requires low { All (λ m. m ≤ vertex.0) marks.old }
    ensures value { result ≡ are_simple (links_at false graph.now vertex.0) }
    ensures count { length marks.new ≡ n_of graph.now }
    ensures low { All (λ m. m ≤ vertex.0 + 1) marks.new }
{
    // The contract of `n` says that there are at most 65,535 vertices.
    let _ = graph.n();
    let mark = vertex.0 + 1;
    for number in graph.walk(vertex, false) {
        let link = link_at(graph, vertex, number);
        if !is_written(false, link) {
            continue;
        }
        if link.from == link.to || marks[link.to as usize] == mark {
            return false;
        }
        marks[link.to as usize] = mark;
    }
    true
}
