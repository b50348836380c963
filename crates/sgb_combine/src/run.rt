//! Spokes that are read and inserted, for one vertex.
ghost use Rattle.std.specs.Prelude.{◌≡◌, ◌<◌, ◌∷◌, [], All, map};
ghost use Rattle.std.specs.List.{filter};
ghost use Rattle.sgb_graph.specs.Graph.{n_of};
ghost use Rattle.sgb_graph.specs.Builder.{along, Inserts};
ghost use Rattle.sgb_graph.specs.Operand.{IsWithin};
ghost use Rattle.sgb_combine.specs.Combined.{is_upward};

use sgb_graph::{Builder, Refusal, Spoke, VertexNo};

// Inserts an arc or an edge from the vertex along the spoke.
#[inline(always)]
pub(crate) fn insert_spoke(
    builder: &mut Builder,
    from: VertexNo,
    spoke: Spoke,
) -> Result<(), Refusal>
    requires from { from.0 < n_of builder.old.graph }
    requires to { spoke.to < n_of builder.old.graph }
    ensures { Inserts builder.old builder.new (along from.0 spoke ∷ []) result }
{
    builder.insert(from, VertexNo(spoke.to), spoke.len)
}

// Inserts an arc or an edge from the vertex along each of the spokes, in their order.
pub(crate) fn insert_spokes(
    builder: &mut Builder,
    from: VertexNo,
    spokes: &[Spoke],
) -> Result<(), Refusal>
    requires from { from.0 < n_of builder.old.graph }
    requires to { All (IsWithin (n_of builder.old.graph)) spokes.now }
    ensures { Inserts builder.old builder.new (map (along from.0) spokes.now) result }
{
    for spoke in spokes {
        insert_spoke(builder, from, *spoke)?;
    }
    Ok(())
}

// Drops what leads below the vertex where edges are made.
pub(crate) fn keep_upward(spokes: &mut Vec<Spoke>, directed: bool, vertex: VertexNo)
    ensures { spokes.new.items ≡ filter (is_upward directed vertex.0) spokes.old.items }
{
    spokes.retain(|spoke| directed || vertex.0 <= spoke.to);
}
