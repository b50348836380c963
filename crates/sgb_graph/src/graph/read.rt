//! Reading a graph.
ghost use Rattle.std.specs.Prelude.{◌≡◌, ◌<◌, ◌≤◌, length, All, IsSome, IfSome};
ghost use Rattle.std.specs.List.{list_all};
ghost use Rattle.sgb_graph.specs.Graph.{IsGraph, IsId, IsTip, n_of, m_of, made_of, vertex_at, label_of, arcs_of, arc_at};
ghost use Rattle.sgb_graph.specs.Text.{IsText};
ghost use Rattle.sgb_graph.specs.Types.{IsTypes};
ghost use Rattle.sgb_graph.specs.Paired.{walk};
ghost use Rattle.sgb_graph.specs.Edit.{owner_of, entry_at};

use super::{Graph, Walk};
use crate::{ArcNo, Tip, Types, Util, VertexNo};

/// A live arc: the vertex that lists it, its tip and its length.
#[derive(Clone, Copy, Debug, PartialEq, Eq)]
pub struct ArcView {
    pub owner: VertexNo,
    pub tip: Tip,
    pub len: i64,
}

impl Graph {
    ghost use Rattle.sgb_graph.specs.Read.{arc_view, leads_on, ShowsEntry, IsNextOf};

    /// How many vertices there are.
    pub fn n(&self) -> u32
        ensures value { result ≡ n_of self.now }
        ensures limit { result ≤ 65535 }
        ensures graph { IsGraph self.now }
    {
        self.vertices.len() as u32
    }

    /// How many arcs live.
    pub fn m(&self) -> u32
        ensures value { result ≡ m_of self.now }
        ensures limit { result ≤ made_of self.now }
        ensures graph { IsGraph self.now }
    {
        self.made() - self.holes
    }

    /// How many arc numbers were given out, those of holes included.
    pub fn made(&self) -> u32
        ensures value { result ≡ made_of self.now }
        ensures limit { result ≤ 1000000 }
        ensures graph { IsGraph self.now }
    {
        self.slots.len() as u32
    }

    /// The bytes of the id.
    pub fn id(&self) -> &[u8]
        ensures value { result.now ≡ self.now.id }
        ensures id { IsId self.now.id }
    {
        self.id.bytes()
    }

    /// The letters of the utility fields.
    pub fn types(&self) -> Types
        ensures value { result ≡ self.now.types }
        ensures types { IsTypes self.now.types }
    {
        self.types
    }

    /// The bytes of a vertex's label.
    pub fn label(&self, vertex: VertexNo) -> &[u8]
        requires { vertex.0 < n_of self.now }
        ensures value { result.now ≡ label_of self.now vertex.0 }
        ensures text { IsText (label_of self.now vertex.0) }
    {
        self.vertices.label(vertex).bytes()
    }

    /// The numbers of a vertex's arcs, the newest first. Each is live.
    pub fn arcs(&self, vertex: VertexNo) -> Walk<'_>
        requires { vertex.0 < n_of self.now }
        ensures value { result ≡ arcs_of self.now vertex.0 }
        ensures live { All (λ k. IsSome (arc_at self.now k)) result }
        ensures within { All (λ k. k < made_of self.now) result }
        ensures owned { All (λ k. owner_of self.now k ≡ vertex.0) result }
        ensures few { length result ≤ made_of self.now }
        ensures graph { IsGraph self.now }
    {
        Walk::new(&self.slots, self.vertices.first(vertex), true)
    }

    /// The numbers of a vertex's arcs, the newest first, as many as there were insertions: where `directed` is false
    /// the second halves of loops are left out. Each is live. Takes no memory.
    pub fn walk(&self, vertex: VertexNo, directed: bool) -> Walk<'_>
        requires { vertex.0 < n_of self.now }
        ensures value { result ≡ walk directed self.now vertex.0 }
        ensures live { All (λ k. IsSome (arc_at self.now k)) result }
        ensures within { All (λ k. k < made_of self.now) result }
        ensures owned { All (λ k. owner_of self.now k ≡ vertex.0) result }
        ensures few { length result ≤ made_of self.now }
        ensures graph { IsGraph self.now }
    {
        Walk::new(&self.slots, self.vertices.first(vertex), directed)
    }

    /// The arc of this number, or `None` at a hole.
    pub fn arc(&self, number: ArcNo) -> Option<ArcView>
        requires { number.0 < made_of self.now }
        ensures value { result ≡ arc_view self.now number.0 }
        ensures tip { IfSome result (λ a. IsTip (n_of self.now) a.tip) }
        ensures entry { IfSome result (λ a. ShowsEntry (entry_at self.now number.0) a) }
        ensures graph { IsGraph self.now }
    {
        self.slots.arc(number)
    }

    /// Whether every arc leads to a vertex, and none to 0 or 1. Takes no memory, and time of all arc numbers.
    pub fn leads_on(&self) -> bool
        ensures { result ≡ list_all leads_on self.now.entries }
    {
        self.slots.is_aimed()
    }

    /// The tip of a live arc.
    pub fn arc_tip(&self, number: ArcNo) -> Tip
        requires { IsSome (arc_at self.now number.0) }
        ensures { result ≡ (entry_at self.now number.0).tip }
    {
        self.slots.tip(number)
    }

    /// The length of a live arc.
    pub fn arc_len(&self, number: ArcNo) -> i64
        requires { IsSome (arc_at self.now number.0) }
        ensures { result ≡ (entry_at self.now number.0).len }
    {
        self.slots.length(number)
    }

    /// The arc that follows a live one in its owner's list.
    pub fn next_of(&self, number: ArcNo) -> Option<ArcNo>
        requires { IsSome (arc_at self.now number.0) }
        ensures { IsNextOf self.now number.0 result }
    {
        self.slots.next_after(number).get()
    }

    /// The utility fields of a vertex, in the order of `VertexField`.
    pub fn vertex_fields(&self, vertex: VertexNo) -> &[Util; 6]
        requires { vertex.0 < n_of self.now }
        ensures { result.now ≡ (vertex_at self.now vertex.0).fields }
    {
        self.vertices.fields(vertex.0 as usize)
    }

    /// The utility fields of a live arc, in the order of `ArcField`.
    pub fn arc_fields(&self, number: ArcNo) -> &[Util; 2]
        requires { IsSome (arc_at self.now number.0) }
        ensures { result.now ≡ (entry_at self.now number.0).fields }
    {
        self.slots.fields(number.0 as usize)
    }

    /// The utility fields of the graph itself, in the order of `GraphField`.
    pub fn graph_fields(&self) -> &[Util; 6]
        ensures { result.now ≡ self.now.fields }
    {
        &self.fields
    }
}
