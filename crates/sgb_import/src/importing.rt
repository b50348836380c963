//! Graphs from texts.
ghost use Rattle.std.specs.Prelude.{◌≡◌, ◌⊎◌, None, Some, IfOk, IfErr, IsErrOf};
ghost use Rattle.sgb_import.specs.Import.{MayAllocate, Spells, refusal_of_import};
ghost use Rattle.sgb_import.specs.Outline.{IsOutline, graph_of_outline};
ghost use Rattle.sgb_import.specs.Private.Outlined.{outline_of};

use crate::dimacs::read_dimacs;
use crate::edges::read_edges;
use crate::graph6::read_graph6;
use crate::outline::{Outline, build};
use crate::{ImportRefusal, Source};
use sgb_graph::Graph;
use std::alloc::Global;

/// The graph that the text spells in the format.
///
/// A text spells one graph, or is refused: `At` the first line that is at fault, with its number from 1 and its fault.
/// The lists of arcs stand in the order of the text. `NoRoom` where an allocation fails; nothing is allocated before a
/// line with an arc or an edge is read, but for a text that spells a graph.
pub fn import(alloc: Global, text: &[u8], source: Source) -> Result<Graph, ImportRefusal>
    ensures graph { IfOk result (λ g. Spells source text.now g) }
    ensures err { IfErr result (λ e. (e ≡ ImportRefusal.NoRoom) ⊎ (refusal_of_import source text.now ≡ Some e)) }
    ensures room { IsErrOf result ImportRefusal.NoRoom → MayAllocate source text.now }
{
    match source {
        Source::Edges(list) => make_graph(alloc, &read_edges(alloc, text, list)?),
        Source::Dimacs => make_graph(alloc, &read_dimacs(alloc, text)?),
        Source::Graph6 => make_graph(alloc, &read_graph6(alloc, text)?),
    }
}

// The graph of what a text says. Only an allocation can fail.
fn make_graph(alloc: Global, outline: &Outline<'_>) -> Result<Graph, ImportRefusal>
    requires { IsOutline (outline_of outline.now) }
    ensures graph { IfOk result (λ g. g ≡ graph_of_outline (outline_of outline.now)) }
    ensures err { IfErr result (λ e. e ≡ ImportRefusal.NoRoom) }
{
    match build(alloc, outline) {
        Ok(graph) => Ok(graph),
        Err(_) => Err(ImportRefusal::NoRoom),
    }
}
