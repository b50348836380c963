//! The classes that the arcs of a graph make.
ghost use Rattle.std.specs.Prelude.{◌≡◌, ◌<◌, ◌≤◌, ◌+◌, ℕ, length, All, IsSome};
ghost use Rattle.std.specs.List.{Contains};
ghost use Rattle.sgb_graph.specs.Graph.{n_of, made_of, arc_at, arcs_of};
ghost use Rattle.sgb_info.specs.Private.Classes.{IsPut, Joins};

use crate::classes::Classes;
use sgb_graph::{ArcNo, Graph, Tip, VertexNo};

// Takes each vertex for two numbers, its own and the one that is `gap` larger, and joins the ends of each arc: the first
// number of each end with the second of the other. Where `gap` is 0 the two are one, and so are the two joins.
pub(crate) fn join_arcs(classes: &mut Classes, graph: &Graph, gap: u32)
    requires room { n_of graph.now + gap ≤ length classes.old }
    requires gap { gap ≤ 65535 }
    ensures joins { Joins graph.now gap classes.old classes.new }
    ensures put { (u : ℕ) → u < n_of graph.now → All (IsPut graph.now gap u classes.new) (arcs_of graph.now u) }
{
    for v in 0..graph.n() {
        join_arcs_of(classes, graph, VertexNo(v), gap);
    }
}

// Joins the ends of each arc of a vertex.
fn join_arcs_of(classes: &mut Classes, graph: &Graph, vertex: VertexNo, gap: u32)
    requires vertex { vertex.0 < n_of graph.now }
    requires room { n_of graph.now + gap ≤ length classes.old }
    requires gap { gap ≤ 65535 }
    ensures joins { Joins graph.now gap classes.old classes.new }
    ensures put { All (IsPut graph.now gap vertex.0 classes.new) (arcs_of graph.now vertex.0) }
{
    for number in graph.arcs(vertex) {
        join_arc(classes, graph, vertex, number, gap);
    }
}

// Joins the ends of an arc, unless it leads to no vertex.
fn join_arc(classes: &mut Classes, graph: &Graph, vertex: VertexNo, number: ArcNo, gap: u32)
    requires vertex { vertex.0 < n_of graph.now }
    requires live { IsSome (arc_at graph.now number.0) }
    requires within { number.0 < made_of graph.now }
    requires listed { Contains (arcs_of graph.now vertex.0) number.0 }
    requires room { n_of graph.now + gap ≤ length classes.old }
    requires gap { gap ≤ 65535 }
    ensures joins { Joins graph.now gap classes.old classes.new }
    ensures put { IsPut graph.now gap vertex.0 classes.new number.0 }
{
    let Some(arc) = graph.arc(number) else {
        unreachable!()
    };
    let Tip::To(to) = arc.tip else {
        return;
    };
    classes.join(vertex.0, to.0 + gap);
    classes.join(vertex.0 + gap, to.0);
}
