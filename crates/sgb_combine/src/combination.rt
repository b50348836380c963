//! The frame of a combination: a graph with the vertices of another, and insertions from each of them in turn.
ghost use Rattle.std.specs.Prelude.{◌≡◌, ◌≤◌, ◌<◌, ℕ, List, length, Ok};
ghost use Rattle.std.specs.List.{flat_map, range_with_len};
ghost use Rattle.sgb_graph.specs.Graph.{n_of};
ghost use Rattle.sgb_graph.specs.Builder.{Insertion, Inserts};
ghost use Rattle.sgb_plan.specs.Plan.{IsMade};
ghost use Rattle.sgb_combine.specs.Private.Begin.{combined};

use crate::begin::name_vertices;
use sgb_graph::{Builder, Graph, Refusal, Text, Types, VertexNo};
use std::alloc::Global;

// What is inserted from the vertices of a graph, and the buffers that it takes to tell.
pub(crate) trait Combination: Drop {
    ghost insertions_at: { Self → ℕ → List Insertion };

    // The graph has n vertices, and the buffers are for so many.
    ghost fits: { Self → ℕ → Type 0 };

    fn insert_from(&mut self, builder: &mut Builder, vertex: VertexNo) -> Result<(), Refusal>
        requires from { vertex.0 < n_of builder.old.graph }
        requires fits { fits self.old (n_of builder.old.graph) }
        ensures inserts { Inserts builder.old builder.new (insertions_at self.old vertex.0) result }
        ensures same { insertions_at self.new ≡ insertions_at self.old }
        ensures fits { fits self.new (n_of builder.old.graph) };
}

// The graph with this id, the vertices of a graph by their names alone, and what is inserted from each of them.
pub(crate) fn combine<C: Combination>(
    alloc: Global,
    id: Text,
    graph: &Graph,
    directed: bool,
    room: usize,
    mut combination: C,
) -> Result<Graph, Refusal>
    requires id { length id ≤ 160 }
    requires fits { C.fits combination (n_of graph.now) }
    ensures { IsMade (Ok (combined id graph.now directed
        (flat_map (C.insertions_at combination) (range_with_len 0 (n_of graph.now))))) result }
{
    let mut builder = Builder::new(alloc, id, Types::none(), directed);
    name_vertices(&mut builder, alloc, graph)?;
    builder.reserve(room)?;
    for v in 0..graph.n() {
        combination.insert_from(&mut builder, VertexNo(v))?;
    }
    Ok(builder.finish())
}
