//! Graphs that are built by a run of insertions.
ghost use Rattle.std.specs.Prelude.{◌≡◌, ◌≤◌, ◌<◌, ◌⊎◌, ◌∷◌, [], length, All, IfErr, OnOk, OnErr};
ghost use Rattle.std.specs.Result.{IsErrOf};

use crate::graph::six_zeros;
use crate::{Graph, Label, Refusal, Text, Types, Util, VertexNo};
use std::alloc::Global;

/// A graph under construction, and whether an insertion makes an arc or an edge.
#[derive(Drop)]
pub struct Builder {
    graph: Graph,
    directed: bool,
}

impl Builder {
    ghost use Rattle.sgb_graph.specs.Graph.{IsGraph, n_of, made_of};
    ghost use Rattle.sgb_graph.specs.New.{bare_graph, six_zeros};
    ghost use Rattle.sgb_graph.specs.Vertex.{NamesNothing, new_vertex, with_vertex_last};
    ghost use Rattle.sgb_graph.specs.Builder.{Inserts, insertion, grown};

    /// A graph without vertices and arcs. An insertion makes an arc where `directed` is true, and else an edge.
    pub fn new(alloc: Global, id: Text, types: Types, directed: bool) -> Builder
        requires { length id ≤ 160 }
        ensures { result ≡ record { graph = bare_graph id types []; directed = directed } }
    {
        Builder {
            graph: Graph::empty(alloc, id, types),
            directed,
        }
    }

    /// The graph as far as it is built.
    pub fn graph(&self) -> &Graph
        ensures value { result.now ≡ self.now.graph }
        ensures sound { IsGraph self.now.graph }
    {
        let _ = self.graph.n();
        &self.graph
    }

    /// Adds a vertex, last. Its fields name nothing; the number 0 and the empty text are stored as `Zero`. Refused
    /// `TooLarge` where there are 65,535 vertices.
    #[inline(always)]
    pub fn push_vertex(&mut self, label: Label, fields: [Util; 6]) -> Result<(), Refusal>
        requires { All NamesNothing fields }
        ensures ok { OnOk result
            (self.new ≡ record self.old { graph = with_vertex_last self.old.graph (new_vertex label fields) }) }
        ensures err { IfErr result
            (λ e. (e ≡ Refusal.NoRoom) ⊎ ((e ≡ Refusal.TooLarge) × (65535 ≤ n_of self.old.graph))) }
        ensures room { IsErrOf result Refusal.NoRoom → n_of self.old.graph < 65535 }
        ensures unchanged { OnErr result (self.new ≡ self.old) }
    {
        self.graph.push_vertex(label, fields)
    }

    /// Adds a vertex without values, last. Refused `TooLarge` where there are 65,535 vertices.
    #[inline(always)]
    pub fn push_named(&mut self, label: Label) -> Result<(), Refusal>
        ensures ok { OnOk result
            (self.new ≡ record self.old { graph = with_vertex_last self.old.graph (new_vertex label six_zeros) }) }
        ensures err { IfErr result
            (λ e. (e ≡ Refusal.NoRoom) ⊎ ((e ≡ Refusal.TooLarge) × (65535 ≤ n_of self.old.graph))) }
        ensures room { IsErrOf result Refusal.NoRoom → n_of self.old.graph < 65535 }
        ensures unchanged { OnErr result (self.new ≡ self.old) }
    {
        self.graph.push_vertex(label, six_zeros())
    }

    /// Takes room for so many vertices more, or for as many as a graph may still have.
    pub fn reserve_vertices(&mut self, count: usize) -> Result<(), Refusal>
        ensures same { self.new ≡ self.old }
        ensures err { IfErr result (λ e. e ≡ Refusal.NoRoom) }
    {
        self.graph.reserve_vertices(count)
    }

    /// Takes room for so many insertions more, or for as many as the graph may still take.
    pub fn reserve(&mut self, count: usize) -> Result<(), Refusal>
        ensures same { self.new ≡ self.old }
        ensures err { IfErr result (λ e. e ≡ Refusal.NoRoom) }
    {
        if self.directed {
            self.graph.reserve_arcs(count)
        } else {
            self.graph.reserve_arcs(count.saturating_mul(2))
        }
    }

    /// Inserts an arc from one vertex to another, or an edge between them. Refused `TooLarge` where the graph would
    /// give out more than 1,000,000 numbers; the graph is then as it was, also where there was room for half an edge.
    #[inline(always)]
    pub fn insert(&mut self, from: VertexNo, to: VertexNo, len: i64) -> Result<(), Refusal>
        requires from { from.0 < n_of self.old.graph }
        requires to { to.0 < n_of self.old.graph }
        ensures value { Inserts self.old self.new (insertion from.0 to.0 len ∷ []) result }
        ensures room { IsErrOf result Refusal.NoRoom →
            made_of (grown self.old (insertion from.0 to.0 len ∷ [])).graph ≤ 1000000 }
        ensures unchanged { OnErr result (self.new ≡ self.old) }
    {
        if self.directed {
            self.graph.add_arc(from, to, len)?;
        } else {
            self.graph.add_edge(from, to, len)?;
        }
        Ok(())
    }

    /// The graph.
    pub fn finish(self) -> Graph
        ensures value { result ≡ self.graph }
        ensures sound { IsGraph result }
    {
        let graph = self.graph;
        let _ = graph.n();
        graph
    }
}
