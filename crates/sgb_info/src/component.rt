//! The components of a graph.
ghost use Rattle.std.specs.Prelude.{◌≡◌, ◌<◌, ℕ, IfOk, IfErr};
ghost use Rattle.sgb_graph.specs.Graph.{GraphOf, n_of};
ghost use Rattle.sgb_info.specs.Components.{HasComponents};

use crate::classes::Classes;
use crate::joins::join_arcs;
use sgb_graph::{Graph, Refusal};
use std::alloc::Global;

/// Returns the number of components: of largest sets of vertices that arcs connect, whatever their directions.
///
/// A vertex that no arc connects to another is a component. An arc that leads to no vertex connects nothing.
///
/// Allocates a word for each vertex; `NoRoom` if that fails. Reads each arc once.
pub fn components(alloc: Global, graph: &Graph) -> Result<u32, Refusal>
    ensures ok { IfOk result (λ count. HasComponents graph.now count) }
    ensures err { IfErr result (λ e. (e ≡ Refusal.NoRoom) × (0 < n_of graph.now)) }
{
    let mut classes = Classes::new(alloc, graph.n())?;
    join_arcs(&mut classes, graph, 0);
    Ok(classes.count() as u32)
}

/// A graph has one number of components. The function does nothing: its clause is the law.
pub fn components_law()
    ensures one { (g : GraphOf) (b c : ℕ) → HasComponents g b → HasComponents g c → b ≡ c }
{}
