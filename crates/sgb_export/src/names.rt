//! Whether labels can stand for their vertices.
ghost use Rattle.std.specs.Prelude.{◌≡◌, ◌==◌, IfOk, IfErr, not};
ghost use Rattle.std.specs.List.{list_all};
ghost use Rattle.sgb_export.specs.Edges.{is_plain, are_plain, are_distinct};

use indexmap::IndexSet;
use sgb_graph::{Graph, Refusal, VertexNo};
use std::alloc::Global;

// Whether each label fits in a line.
pub(crate) fn are_plain(graph: &Graph) -> bool
    ensures { result ≡ are_plain graph.now }
{
    for v in 0..graph.n() {
        if !is_plain(graph.label(VertexNo(v))) {
            return false;
        }
    }
    true
}

// Whether the label is not empty, has no space, and does not begin with `#`.
fn is_plain(name: &[u8]) -> bool
    ensures { result ≡ is_plain name.now }
{
    match name.first() {
        Some(first) => *first != b'#' && has_no_space(name),
        None => false,
    }
}

fn has_no_space(name: &[u8]) -> bool
    ensures { result ≡ list_all (λ b. not (b == 32)) name.now }
{
    name.iter().all(|byte| *byte != b' ')
}

// Whether no two vertices have the same label. Allocates an index of the labels.
pub(crate) fn are_distinct(alloc: Global, graph: &Graph) -> Result<bool, Refusal>
    ensures ok { IfOk result (λ distinct. distinct ≡ are_distinct graph.now) }
    ensures err { IfErr result (λ e. e ≡ Refusal.NoRoom) }
{
    let mut names: IndexSet<&[u8]> = IndexSet::with_capacity(alloc, graph.n() as usize)?;
    for v in 0..graph.n() {
        let is_new = names.insert(graph.label(VertexNo(v)))?;
        if !is_new {
            return Ok(false);
        }
    }
    Ok(true)
}
