//! Edges and arcs as they are written.
ghost use Rattle.std.specs.Prelude.{◌≡◌, ◌<◌, IsSome};
ghost use Rattle.sgb_graph.specs.Graph.{n_of, made_of, arc_at};
ghost use Rattle.sgb_graph.specs.Operand.{tip_number};
ghost use Rattle.sgb_export.specs.Links.{link, is_written};

use sgb_graph::{ArcNo, Graph, Tip, VertexNo};

// An arc: its number, the numbers of its endpoints, and its length.
#[derive(Clone, Copy, Debug, PartialEq, Eq)]
pub(crate) struct Link {
    pub(crate) number: u32,
    pub(crate) from: u32,
    pub(crate) to: u32,
    pub(crate) len: i64,
}

// Returns an arc of the vertex's list.
pub(crate) fn link_at(graph: &Graph, vertex: VertexNo, number: ArcNo) -> Link
    requires vertex { vertex.0 < n_of graph.now }
    requires live { IsSome (arc_at graph.now number.0) }
    requires within { number.0 < made_of graph.now }
    ensures value { result ≡ link graph.now vertex.0 number.0 }
    ensures to { result.to < n_of graph.now }
{
    let Some(arc) = graph.arc(number) else {
        unreachable!()
    };
    Link {
        number: number.0,
        from: vertex.0,
        to: tip_number(arc.tip),
        len: arc.len,
    }
}

// Returns the number of the tip's vertex, or 0 if it is none.
fn tip_number(tip: Tip) -> u32
    ensures { result ≡ tip_number tip }
{
    match tip {
        Tip::To(vertex) => vertex.0,
        _ => 0,
    }
}

// Whether the arc is written: every arc if the graph is directed, otherwise the half of an edge that leads up.
pub(crate) fn is_written(directed: bool, link: Link) -> bool
    ensures { result ≡ is_written directed link }
{
    directed || link.from <= link.to
}
