//! Graphs in the formats of other tools.
ghost use Rattle.std.specs.Prelude.{◌≡◌, ◌⊎◌, IfOk, IfErr, Some, None};
ghost use Rattle.std.specs.Result.{IsErrOf};
ghost use Rattle.sgb_export.specs.Export.{Exports, MayAllocate, refusal_of_export};
ghost use Rattle.sgb_export.specs.Private.Marks.{AreMarks};

use crate::Format;
use crate::check::check_export;
use crate::fault::ExportFault;
use crate::write::write_export;
use sgb_graph::{Graph, Refusal};
use sgb_print::MeteredWriter;
use std::alloc::Global;
use std::io::Write;

/// Writes a graph in the format of another tool: each edge once if the graph is undirected, otherwise each arc, vertex by
/// vertex in the order of its list; for [`Format::Graph6`] a bit for each two vertices. A graph is undirected if it is
/// paired and the two halves of each edge have the same length. Utility fields are left out, but for the positions of
/// [`Format::PlacedDot`].
///
/// Fails with `Refused` if [`check_export`] refuses the graph, and then writes nothing; with `Write` if a write fails.
/// Allocates only an index of the labels for [`Format::NamedEdges`], and marks of the vertices for [`Format::Col`] and
/// [`Format::Graph6`].
pub fn export<W: Write>(
    alloc: Global,
    graph: &Graph,
    format: Format,
    writer: &mut MeteredWriter<W>,
) -> Result<(), ExportFault>
    ensures exports { Exports format graph.now writer.old writer.new result }
    ensures room { IsErrOf result (ExportFault.Refused Refusal.NoRoom) → MayAllocate format graph.now }
{
    match prepare(alloc, graph, format) {
        Ok(mut marks) => match write_export(writer, graph, format, &mut marks) {
            Ok(()) => Ok(()),
            Err(_) => Err(ExportFault::Write),
        },
        Err(refusal) => Err(ExportFault::Refused(refusal)),
    }
}

// Checks the graph, and allocates the marks that graph6 needs, so that nothing is written where that fails.
fn prepare(alloc: Global, graph: &Graph, format: Format) -> Result<Vec<u32>, Refusal>
    ensures accepted { IfOk result (λ marks. refusal_of_export format graph.now ≡ None) }
    ensures marks { IfOk result (λ marks. AreMarks format graph.now marks.items) }
    ensures err { IfErr result (λ e. (e ≡ Refusal.NoRoom) ⊎ (refusal_of_export format graph.now ≡ Some e)) }
    ensures room { IsErrOf result Refusal.NoRoom → MayAllocate format graph.now }
{
    check_export(alloc, graph, format)?;
    match format {
        Format::Graph6 => Ok(vec![in alloc; 0u32; graph.n() as usize]?),
        _ => Ok(Vec::new(alloc)),
    }
}
