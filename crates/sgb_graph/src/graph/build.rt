//! Graphs from their saved parts.
ghost use Rattle.std.specs.Prelude.{◌≡◌, ◌⊎◌, ◌<◌, ◌+◌, length, IfOk, IfErr};
ghost use Rattle.std.specs.Result.{IsErrOf};
ghost use Rattle.sgb_graph.specs.Graph.{GraphOf};
ghost use Rattle.sgb_graph.specs.Parts.{Builds};

use super::{Graph, MOST_ARCS, MOST_VERTICES};
use crate::{Parts, Refusal};
use std::alloc::Global;

impl Graph {
    /// The graph of these parts: the list of a vertex is the chain of records from its first arc on, each followed
    /// by its next; a record that no chain reaches is a hole, whatever it holds. The number 0 and the empty text are
    /// stored as `Zero`.
    ///
    /// Refused `BadOperand` where no graph has these parts: where chains meet, return or leave the records; where a
    /// tip or a value names no vertex, no record or a hole; above 65,535 vertices, 1,000,000 records or 160 bytes of
    /// id. Takes memory for the graph and eight bytes for each record, and time of the parts; of parts without vertices
    /// and records it takes none.
    #[inline(never)]
    pub fn build(alloc: Global, parts: Parts) -> Result<Graph, Refusal>
        ensures ok { IfOk result (λ g. Builds parts g) }
        ensures err { IfErr result (λ e. (e ≡ Refusal.NoRoom) ⊎
            ((e ≡ Refusal.BadOperand) × ((g : GraphOf) → Builds parts g → ⊥))) }
        ensures room { IsErrOf result Refusal.NoRoom → 0 < length parts.vertices + length parts.arcs }
    {
        let vertices = parts.vertices.into_vec();
        let arcs = parts.arcs.into_vec();
        if vertices.len() > MOST_VERTICES as usize || arcs.len() > MOST_ARCS as usize {
            return Err(Refusal::BadOperand);
        }
        if parts.id.bytes().len() > 160 {
            return Err(Refusal::BadOperand);
        }
        let mut graph = Graph::laid(alloc, parts.id, parts.types, &vertices, &arcs)?;
        if !graph.can_name_all(&parts.fields, &vertices) {
            return Err(Refusal::BadOperand);
        }
        graph.fill_vertices(vertices);
        graph.fill_arcs(arcs)?;
        graph.fill_own(parts.fields);
        Ok(graph)
    }
}
