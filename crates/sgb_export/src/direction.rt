//! Whether a graph is directed.
ghost use Rattle.std.specs.Prelude.{◌≡◌, ◌<◌, ◌&&◌, false, not};
ghost use Rattle.std.specs.List.{list_all, range_with_len};
ghost use Rattle.sgb_graph.specs.Graph.{n_of, arc_at};
ghost use Rattle.sgb_export.specs.Links.{are_even_at, is_even, is_written, has_length, is_directed};

use crate::link::{Link, is_written, link_at};
use sgb_graph::{ArcNo, Graph, VertexNo};

// Whether some arc is not half of an edge, or the halves of an edge differ in length.
#[tactic(auto, unfolding(crate::specs::Links::is_directed))]
pub(crate) fn is_directed(graph: &Graph) -> bool
    ensures { result ≡ is_directed graph.now }
{
    !(graph.is_paired() && are_even(graph))
}

// Whether the two halves of each edge have the same length.
fn are_even(graph: &Graph) -> bool
    ensures { result ≡ list_all (are_even_at graph.now) (range_with_len 0 (n_of graph.now)) }
{
    for v in 0..graph.n() {
        if !are_even_at(graph, VertexNo(v)) {
            return false;
        }
    }
    true
}

// Whether the two halves of each edge of a vertex have the same length.
fn are_even_at(graph: &Graph, vertex: VertexNo) -> bool
    requires { vertex.0 < n_of graph.now }
    ensures { result ≡ are_even_at graph.now vertex.0 }
{
    for number in graph.walk(vertex, false) {
        if is_uneven(graph, link_at(graph, vertex, number)) {
            return false;
        }
    }
    true
}

// Whether the arc is the half that is written, and the other half has another length.
fn is_uneven(graph: &Graph, link: Link) -> bool
    requires { link.number < 1000000 }
    ensures { result ≡ (is_written false link && not (is_even graph.now link)) }
{
    is_written(false, link) && !has_length(graph, link.number + 1, link.len)
}

// Whether there is an arc of this number, of this length.
fn has_length(graph: &Graph, number: u32, len: i64) -> bool
    ensures { result ≡ has_length len (arc_at graph.now number) }
{
    if number >= graph.made() {
        return false;
    }
    match graph.arc(ArcNo(number)) {
        Some(arc) => arc.len == len,
        None => false,
    }
}
