//! The facts of a graph.
ghost use Rattle.std.specs.Prelude.{◌≡◌, ◌⊎◌, ℕ, List, IfOk, IfErr, Some, None};
ghost use Rattle.sgb_graph.specs.Graph.{GraphOf};
ghost use Rattle.sgb_graph.specs.Operand.{refusal_of_operand};
ghost use Rattle.sgb_grammar.specs.Check.{check_of};
ghost use Rattle.sgb_text.specs.Clean.{clean_of};
ghost use Rattle.sgb_text.specs.Save.{body_of};
ghost use Rattle.sgb_info.specs.Info.{AreFacts, IsInfo};

use crate::bipartite::is_bipartite;
use crate::component::components;
use crate::degrees::{find_in_degrees, find_out_degrees};
use crate::lengths::find_lengths;
use crate::repeats::count_edges;
use sgb_grammar::check_number;
use sgb_graph::{Graph, Refusal, check_operand};
use sgb_text::{cleaning_law, save};
use std::alloc::{AllocError, Global};

/// What a graph is like. A graph is paired if each arc has its other half, as the arcs of edges have.
#[derive(Clone, Copy, Debug, PartialEq, Eq)]
pub struct Facts {
    /// How many vertices there are.
    pub vertices: u32,
    /// How many arcs there are.
    pub arcs: u32,
    /// How many edges a paired graph has, each loop once.
    pub edges: Option<u64>,
    /// How many arcs lead to their own vertex; in a paired graph edges.
    pub loops: u64,
    /// How many arcs are not the first from their vertex to their tip; in a paired graph edges.
    pub repeated: u64,
    /// The least number of arcs that leave a vertex.
    pub out_least: Option<u32>,
    /// The greatest number of arcs that leave a vertex.
    pub out_greatest: Option<u32>,
    /// The least number of arcs that lead to a vertex, if the graph is not paired.
    pub in_least: Option<u32>,
    /// The greatest number of arcs that lead to a vertex, if the graph is not paired.
    pub in_greatest: Option<u32>,
    /// The least length of an arc.
    pub length_least: Option<i64>,
    /// The greatest length of an arc.
    pub length_greatest: Option<i64>,
    /// How many components there are, whatever the directions of arcs.
    pub components: u32,
    /// Whether two colours suffice for the vertices, so that the ends of each arc differ.
    pub bipartite: bool,
    /// Whether each utility field holds a value that its letter allows.
    pub honest: bool,
    /// The check number of the graph's saved text.
    pub check: u64,
}

impl Facts {
    /// Returns the facts of a graph.
    ///
    /// Fails with `BadOperand` if an arc leads to no vertex. Allocates numbers for the vertices and the graph's saved text;
    /// `NoRoom` if that fails.
    pub fn of(alloc: Global, graph: &Graph) -> Result<Facts, Refusal>
        ensures ok { IfOk result (λ f. (refusal_of_operand graph.now ≡ None) × AreFacts graph.now f) }
        ensures err { IfErr result (λ e. (e ≡ Refusal.NoRoom) ⊎ (refusal_of_operand graph.now ≡ Some e)) }
    {
        check_operand(graph)?;
        let paired = graph.is_paired();
        let edges = count_edges(alloc, graph, !paired)?;
        let out_degrees = find_out_degrees(alloc, graph)?;
        let in_degrees = find_in_degrees(alloc, graph, paired)?;
        let lengths = find_lengths(graph);
        Ok(Facts {
            vertices: graph.n(),
            arcs: graph.m(),
            edges: if paired { Some(edges.count) } else { None },
            loops: edges.loops,
            repeated: edges.repeated,
            out_least: out_degrees.least,
            out_greatest: out_degrees.greatest,
            in_least: in_degrees.least,
            in_greatest: in_degrees.greatest,
            length_least: lengths.least,
            length_greatest: lengths.greatest,
            components: components(alloc, graph)?,
            bipartite: is_bipartite(alloc, graph)?,
            honest: graph.is_honest(),
            check: find_check(alloc, graph)?,
        })
    }
}

// Returns the check number in the last line of the graph's text. It is that of the whole text too: the first line and the
// last begin with a star, and such lines do not count.
fn find_check(alloc: Global, graph: &Graph) -> Result<u64, AllocError>
    ensures { IfOk result (λ c. c ≡ check_of (body_of (clean_of graph.now))) }
{
    cleaning_law();
    // The contract of `n` says that the graph is sound.
    let _ = graph.n();
    let saved = save(alloc, graph)?;
    Ok(check_number(saved.text.as_slice()))
}

/// A graph has one text of its facts.
pub fn info_law()
    ensures one { (g : GraphOf) (s t : List ℕ) → IsInfo g s → IsInfo g t → s ≡ t }
{
    crate::component::components_law();
}
