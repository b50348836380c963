//! The spokes of all vertices of a graph, one row after another.
ghost use Rattle.std.specs.Prelude.{◌≡◌, ◌≤◌, ◌<◌, ◌+◌, length, slice_index, IfOk};
ghost use Rattle.std.specs.List.{slice_range};
ghost use Rattle.sgb_graph.specs.Graph.{n_of};
ghost use Rattle.sgb_combine.specs.Private.Rows.{AreRows, row_of};

use crate::run::keep_upward;
use sgb_graph::{Graph, Spoke, VertexNo, read_spokes};
use std::alloc::{AllocError, Global};

#[derive(Drop)]
pub(crate) struct Rows {
    spokes: Vec<Spoke>,
    // Where the row of each vertex begins, and where the last one ends.
    starts: Vec<usize>,
}

impl Rows {
    // The rows of a graph, with what leads below its own vertex only where `all` is true.
    pub(crate) fn read(
        alloc: Global,
        graph: &Graph,
        directed: bool,
        all: bool,
    ) -> Result<Rows, AllocError>
        ensures { IfOk result (λ r. AreRows (row_of all directed graph.now) (n_of graph.now) r.spokes.items r.starts.items) }
    {
        let mut buffer = Vec::new(alloc);
        let mut spokes = Vec::new(alloc);
        let mut starts = vec![in alloc; 0usize]?;
        for v in 0..graph.n() {
            buffer.clear();
            read_spokes(&mut buffer, graph, VertexNo(v), directed)?;
            keep_upward(&mut buffer, all, VertexNo(v));
            spokes.extend_from_slice(&buffer)?;
            starts.push(spokes.len())?;
        }
        Ok(Rows { spokes, starts })
    }

    // The row of a vertex.
    #[inline]
    pub(crate) fn row(&self, v: u32) -> &[Spoke]
        requires within { v + 1 < length self.now.starts.items }
        requires low { slice_index self.now.starts.items v ≤ slice_index self.now.starts.items (v + 1) }
        requires high { slice_index self.now.starts.items (v + 1) ≤ length self.now.spokes.items }
        ensures { result.now ≡ slice_range self.now.spokes.items (slice_index self.now.starts.items v)
            (slice_index self.now.starts.items (v + 1)) }
    {
        let begin = self.starts[v as usize];
        let end = self.starts[v as usize + 1];
        &self.spokes[begin..end]
    }
}
