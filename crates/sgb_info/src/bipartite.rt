//! Whether a graph is bipartite.
ghost use Rattle.std.specs.Prelude.{◌≡◌, ◌<◌, ◌≤◌, ◌+◌, length, IfOk, IfErr};
ghost use Rattle.std.specs.Bool.{Decides};
ghost use Rattle.sgb_graph.specs.Graph.{n_of};
ghost use Rattle.sgb_info.specs.Components.{IsBipartite};
ghost use Rattle.sgb_info.specs.Private.Classes.{AreApart};

use crate::classes::Classes;
use crate::joins::join_arcs;
use sgb_graph::{Graph, Refusal};
use std::alloc::Global;

/// Whether the graph is bipartite: two colours suffice for its vertices, so that the ends of each arc differ.
///
/// A graph with a loop is not bipartite. An arc that leads to no vertex counts for nothing.
///
/// Allocates two words for each vertex; `NoRoom` if that fails. Reads each arc once.
pub fn is_bipartite(alloc: Global, graph: &Graph) -> Result<bool, Refusal>
    ensures ok { IfOk result (λ bipartite. Decides bipartite (IsBipartite graph.now)) }
    ensures err { IfErr result (λ e. (e ≡ Refusal.NoRoom) × (0 < n_of graph.now)) }
{
    let n = graph.n();
    let mut classes = Classes::new(alloc, 2 * n)?;
    join_arcs(&mut classes, graph, n);
    Ok(are_apart(&mut classes, n))
}

// Whether each number below `n` is in another class than the number that is `n` larger.
fn are_apart(classes: &mut Classes, n: u32) -> bool
    requires room { n + n ≤ length classes.old }
    requires few { n ≤ 65535 }
    ensures { Decides result (AreApart n classes.old) }
{
    for v in 0..n {
        if classes.root(v) == classes.root(v + n) {
            return false;
        }
    }
    true
}
