//! Graphs as operands of combinations: whether their arcs lead to vertices, and where they lead from each vertex.
ghost use Rattle.std.specs.Prelude.{◌≡◌, ◌<◌, ◌++◌, length, take, All, IsSome, IfErr, OnOk, Some, None};
ghost use Rattle.sgb_graph.specs.Graph.{n_of, arc_at};
ghost use Rattle.sgb_graph.specs.Edit.{entry_at};
ghost use Rattle.sgb_graph.specs.Operand.{IsWithin, refusal_of_operand, spoke_of, spokes, tip_number};

use crate::{ArcNo, Graph, Refusal, Spoke, Tip, VertexNo};
use std::alloc::AllocError;

/// Refuses a graph as operand of a combination, `BadOperand`, where an arc leads to no vertex.
///
/// Takes no memory, and no more time than [`Graph::leads_on`].
pub fn check_operand(graph: &Graph) -> Result<(), Refusal>
    ensures ok { OnOk result (refusal_of_operand graph.now ≡ None) }
    ensures err { IfErr result (λ e. refusal_of_operand graph.now ≡ Some e) }
{
    if graph.leads_on() {
        Ok(())
    } else {
        Err(Refusal::BadOperand)
    }
}

/// Writes the spokes of a vertex behind those in the buffer: one for each arc, in the order of its list, and where
/// `directed` is false none for the second halves of loops. Each leads to a vertex of the graph: that of an arc that
/// leads to none leads to vertex 0. Where memory is wanting, some of them may be written.
pub fn read_spokes(
    into: &mut Vec<Spoke>,
    graph: &Graph,
    vertex: VertexNo,
    directed: bool,
) -> Result<(), AllocError>
    requires { vertex.0 < n_of graph.now }
    ensures ok { OnOk result (into.new.items ≡ into.old.items ++ spokes directed graph.now vertex.0) }
    ensures kept { take (length into.old.items) into.new.items ≡ into.old.items }
    ensures within { All (IsWithin (n_of graph.now)) (spokes directed graph.now vertex.0) }
{
    for number in graph.walk(vertex, directed) {
        into.push(spoke_at(graph, number))?;
    }
    Ok(())
}

/// The spoke of a live arc: the vertex to which it leads, or vertex 0 where it leads to none, and its length. Takes no
/// memory.
pub fn spoke_at(graph: &Graph, number: ArcNo) -> Spoke
    requires { IsSome (arc_at graph.now number.0) }
    ensures { result ≡ spoke_of (entry_at graph.now number.0) }
{
    Spoke {
        to: tip_number(graph.arc_tip(number)),
        len: graph.arc_len(number),
    }
}

// The number of the vertex to which a tip leads, or else 0.
fn tip_number(tip: Tip) -> u32
    ensures { result ≡ tip_number tip }
{
    match tip {
        Tip::To(vertex) => vertex.0,
        _ => 0,
    }
}
