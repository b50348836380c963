//! What a combination begins with: operands that are not refused, and vertices that are named as those of a graph.
ghost use Rattle.std.specs.Prelude.{◌≡◌, IfErr, OnOk, Some, None};
ghost use Rattle.sgb_plan.specs.Plan.{Names};
ghost use Rattle.sgb_combine.specs.Combined.{refusal_of_operands, vertices_of};

use sgb_graph::{Builder, Graph, Refusal, VertexNo, check_operand};
use sgb_plan::label_of;
use std::alloc::Global;

// Refuses two operands as the first of them that is refused. Does not allocate.
pub(crate) fn check_operands(first: &Graph, second: &Graph) -> Result<(), Refusal>
    ensures ok { OnOk result (refusal_of_operands first.now second.now ≡ None) }
    ensures err { IfErr result (λ e. refusal_of_operands first.now second.now ≡ Some e) }
{
    check_operand(first)?;
    check_operand(second)
}

// Adds the vertices of the graph, by their names alone.
pub(crate) fn name_vertices(
    builder: &mut Builder,
    alloc: Global,
    graph: &Graph,
) -> Result<(), Refusal>
    ensures { Names builder.old builder.new (vertices_of graph.now) result }
{
    builder.reserve_vertices(graph.n() as usize)?;
    for v in 0..graph.n() {
        let label = label_of(alloc, graph.label(VertexNo(v)))?;
        builder.push_named(label)?;
    }
    Ok(())
}

// About how many insertions the arcs of a graph come to, each edge being two arcs. It only tells for how many there is
// to be room, so it promises nothing.
pub(crate) fn room_of(graph: &Graph, directed: bool) -> usize {
    let arcs = graph.m() as usize;
    if directed { arcs } else { arcs / 2 }
}
