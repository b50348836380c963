//! Whether each arc has its other half.
ghost use Rattle.std.specs.Prelude.{◌≡◌, ◌<◌, ◌+◌, ◌==◌, true, IsTrue};
ghost use Rattle.std.specs.List.{list_all, range_with_len};
ghost use Rattle.sgb_graph.specs.Edit.{owner_of};
ghost use Rattle.sgb_graph.specs.Graph.{IsGraph, n_of, made_of, arcs_of};
ghost use Rattle.sgb_graph.specs.Paired.{goes, is_vertex, leads_from, is_loop, is_loop_pair, are_loops_paired, is_matched, is_tip_matched, is_paired};

use super::Graph;
use crate::{ArcNo, ArcView, Tip, VertexNo};

impl Graph {
    /// Each arc has its other half, as the arcs of edges have: every arc leads to a vertex; an arc k to a smaller
    /// vertex has arc k-1 lead back, one to a larger vertex arc k+1; and each loop is a second half, or the next
    /// arc of its list is its second half.
    ///
    /// Does not allocate. Takes time of the whole graph; lists are walked only where an arc is a loop.
    pub fn is_paired(&self) -> bool
        ensures { result ≡ is_paired self.now }
    {
        self.are_arcs_matched() && (self.has_no_loops() || self.are_all_loops_paired())
    }

    fn are_arcs_matched(&self) -> bool
        ensures { result ≡ list_all (is_matched self.now) (range_with_len 0 (made_of self.now)) }
    {
        for number in 0..self.made() {
            if !self.is_matched(ArcNo(number)) {
                return false;
            }
        }
        true
    }

    // No arc leads to its own vertex. Then no list need be walked.
    fn has_no_loops(&self) -> bool
        ensures { IsTrue result → list_all (λ v. are_loops_paired self.now v (arcs_of self.now v)) (range_with_len 0 (n_of self.now)) ≡ true }
    {
        for number in 0..self.made() {
            if self.is_own_loop(ArcNo(number)) {
                return false;
            }
        }
        true
    }

    // The arc leads to its own vertex.
    fn is_own_loop(&self, number: ArcNo) -> bool
        requires { number.0 < made_of self.now }
        ensures { result ≡ is_loop self.now (owner_of self.now number.0) number.0 }
    {
        match self.arc(number) {
            Some(arc) => is_vertex(arc.owner.0, arc.tip),
            None => false,
        }
    }

    fn are_all_loops_paired(&self) -> bool
        ensures { result ≡ list_all (λ v. are_loops_paired self.now v (arcs_of self.now v)) (range_with_len 0 (n_of self.now)) }
    {
        for vertex in 0..self.n() {
            if !self.are_loops_paired(VertexNo(vertex)) {
                return false;
            }
        }
        true
    }

    // A hole, or an arc with its other half.
    fn is_matched(&self, number: ArcNo) -> bool
        requires { number.0 < made_of self.now }
        ensures { result ≡ is_matched self.now number.0 }
    {
        match self.arc(number) {
            Some(arc) => self.is_tip_matched(number.0, arc.owner.0, arc.tip),
            None => true,
        }
    }

    // An arc of this number and tip, which leaves this vertex, has its other half.
    fn is_tip_matched(&self, number: u32, from: u32, tip: Tip) -> bool
        requires { number < 1000000 }
        ensures { result ≡ is_tip_matched self.now number from tip }
    {
        let Tip::To(to) = tip else {
            return false;
        };
        if to.0 == from {
            true
        } else if to.0 < from {
            number >= 1 && self.leads_from(number - 1, to.0, from)
        } else {
            self.leads_from(number + 1, to.0, from)
        }
    }

    // The arc of this number lives and leads from one vertex to the other.
    fn leads_from(&self, number: u32, from: u32, to: u32) -> bool
        ensures { result ≡ leads_from self.now number from to }
    {
        if number >= self.made() {
            return false;
        }
        goes(from, to, self.arc(ArcNo(number)))
    }

    // Every loop of the vertex is a second half, or the next arc is its second half.
    fn are_loops_paired(&self, vertex: VertexNo) -> bool
        requires { vertex.0 < n_of self.now }
        ensures { result ≡ are_loops_paired self.now vertex.0 (arcs_of self.now vertex.0) }
    {
        // A loop that needs the next arc as its second half.
        let mut alone: Option<ArcNo> = None;
        for number in self.arcs(vertex) {
            if let Some(first) = alone {
                if !self.is_loop_pair(vertex, first, number) {
                    return false;
                }
                alone = None;
            } else if self.is_loop(vertex, number) {
                alone = Some(number);
            }
        }
        alone.is_none()
    }

    // The arc of the vertex's list leads to the vertex.
    fn is_loop(&self, vertex: VertexNo, number: ArcNo) -> bool
        ensures { result ≡ is_loop self.now vertex.0 number.0 }
    {
        self.leads_from(number.0, vertex.0, vertex.0)
    }

    // Both are loops, and the second is numbered next.
    fn is_loop_pair(&self, vertex: VertexNo, first: ArcNo, second: ArcNo) -> bool
        ensures { result ≡ is_loop_pair self.now vertex.0 first.0 second.0 }
    {
        self.is_loop(vertex, first) && self.is_loop(vertex, second) && follows(first, second)
    }
}

pub(super) fn follows(first: ArcNo, second: ArcNo) -> bool
    ensures { result ≡ (first.0 + 1 == second.0) }
{
    u64::from(first.0) + 1 == u64::from(second.0)
}

// The arc leaves one vertex and leads to the other.
fn goes(from: u32, to: u32, arc: Option<ArcView>) -> bool
    ensures { result ≡ goes from to arc }
{
    match arc {
        Some(arc) => arc.owner.0 == from && is_vertex(to, arc.tip),
        None => false,
    }
}

pub(super) fn is_vertex(vertex: u32, tip: Tip) -> bool
    ensures { result ≡ is_vertex vertex tip }
{
    match tip {
        Tip::To(to) => to.0 == vertex,
        _ => false,
    }
}
