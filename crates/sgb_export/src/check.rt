//! Which graphs have no text in a format.
ghost use Rattle.std.specs.Prelude.{◌≡◌, ◌⊎◌, IfErr, OnOk, Some, None, true, false};
ghost use Rattle.std.specs.Result.{IsErrOf};
ghost use Rattle.sgb_export.specs.Dot.{are_placed};
ghost use Rattle.sgb_export.specs.Edges.{are_plain};
ghost use Rattle.sgb_export.specs.Export.{refusal_of_edges, refusal_of_export, refusal_of_names, MayAllocate};
ghost use Rattle.sgb_export.specs.Links.{is_directed};

use crate::Format;
use crate::direction::is_directed;
use crate::names::{are_distinct, are_plain};
use crate::position::are_placed;
use crate::simple::is_simple;
use sgb_graph::{Graph, Refusal, check_operand};
use std::alloc::Global;

/// Refuses a graph that has no text in this format with `BadOperand`: if an arc leads to no vertex; for
/// [`Format::NamedEdges`] if a label is empty, has a space or begins with `#`, or if two labels are the same; for
/// [`Format::Col`] and [`Format::Graph6`] if the graph is directed, has a loop, or has two edges with the same
/// endpoints; for [`Format::PlacedDot`] if the field `x` or `y` of a vertex is neither a number nor `Zero`.
///
/// Allocates an index of the labels for `NamedEdges`, and a mark for each vertex for `Col` and `Graph6`; `NoRoom` if that
/// fails. Reads the whole graph.
pub fn check_export(alloc: Global, graph: &Graph, format: Format) -> Result<(), Refusal>
    ensures ok { OnOk result (refusal_of_export format graph.now ≡ None) }
    ensures err { IfErr result (λ e. (e ≡ Refusal.NoRoom) ⊎ (refusal_of_export format graph.now ≡ Some e)) }
    ensures room { IsErrOf result Refusal.NoRoom → MayAllocate format graph.now }
{
    check_operand(graph)?;
    match format {
        Format::PlacedDot => check_positions(graph),
        Format::Col | Format::Graph6 => check_edges(alloc, graph),
        Format::NamedEdges => check_names(alloc, graph),
        _ => Ok(()),
    }
}

// Refuses vertices without a position.
fn check_positions(graph: &Graph) -> Result<(), Refusal>
    ensures ok { OnOk result (are_placed graph.now ≡ true) }
    ensures err { IfErr result (λ e. (e ≡ Refusal.BadOperand) × (are_placed graph.now ≡ false)) }
{
    if are_placed(graph) {
        Ok(())
    } else {
        Err(Refusal::BadOperand)
    }
}

// Refuses what an edge between two vertices cannot say: arcs, loops and repeated edges.
fn check_edges(alloc: Global, graph: &Graph) -> Result<(), Refusal>
    ensures ok { OnOk result (refusal_of_edges graph.now ≡ None) }
    ensures err { IfErr result (λ e. (e ≡ Refusal.NoRoom) ⊎ (refusal_of_edges graph.now ≡ Some e)) }
    ensures room { IsErrOf result Refusal.NoRoom → is_directed graph.now ≡ false }
{
    if is_directed(graph) || !is_simple(alloc, graph)? {
        return Err(Refusal::BadOperand);
    }
    Ok(())
}

// Refuses labels that cannot stand for their vertices.
fn check_names(alloc: Global, graph: &Graph) -> Result<(), Refusal>
    ensures ok { OnOk result (refusal_of_names graph.now ≡ None) }
    ensures err { IfErr result (λ e. (e ≡ Refusal.NoRoom) ⊎ (refusal_of_names graph.now ≡ Some e)) }
    ensures room { IsErrOf result Refusal.NoRoom → are_plain graph.now ≡ true }
{
    if !are_plain(graph) || !are_distinct(alloc, graph)? {
        return Err(Refusal::BadOperand);
    }
    Ok(())
}
