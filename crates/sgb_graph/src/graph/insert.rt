//! New arcs and edges.
ghost use Rattle.std.specs.Prelude.{◌≡◌, ◌⊎◌, ◌+◌, ◌<◌, ◌&&◌, IfOk, IfErr, OnOk, OnErr, None, Some};
ghost use Rattle.std.specs.Result.{IsErrOf};
ghost use Rattle.sgb_graph.specs.Graph.{IsGraph, has_vertex, n_of, made_of};
ghost use Rattle.sgb_graph.specs.Edit.{with_arc, with_edge, refusal_of_arc, refusal_of_edge};
ghost use Rattle.sgb_graph.specs.Delta.{LeftBy};
ghost use Rattle.sgb_graph.specs.Field.{arc_no};
ghost use Rattle.sgb_graph.specs.Private.Insert.{IsRefusedAt};

use super::Graph;
use crate::{ArcNo, GraphDelta, Refusal, VertexNo};

impl Graph {
    /// A new arc from one vertex to another, first in the list of the first (Knuth's `gb_new_arc`).
    ///
    /// Answers its number, and what `revert` needs. Refused `BadOperand` where there is no such vertex, and
    /// `TooLarge` where 1,000,000 numbers were given out.
    pub fn new_arc(
        &mut self,
        from: VertexNo,
        to: VertexNo,
        len: i64,
    ) -> Result<(ArcNo, GraphDelta), Refusal>
        ensures accepted { OnOk result (refusal_of_arc self.old from.0 to.0 ≡ None) }
        ensures number { IfOk result (λ p. p.0 ≡ arc_no (made_of self.old)) }
        ensures delta { IfOk result (λ p. p.1 ≡ GraphDelta.NewArc p.0) }
        ensures graph { OnOk result (self.new ≡ with_arc self.old from.0 to.0 len) }
        ensures left { IfOk result (λ p. LeftBy self.old p.1 self.new) }
        ensures err { IfErr result (λ e. (e ≡ Refusal.NoRoom) ⊎ (refusal_of_arc self.old from.0 to.0 ≡ Some e)) }
        ensures room { IsErrOf result Refusal.NoRoom → refusal_of_arc self.old from.0 to.0 ≡ None }
        ensures unchanged { OnErr result (self.new ≡ self.old) }
        ensures sound { IsGraph self.new }
    {
        if !self.has_both(from, to) {
            return Err(Refusal::BadOperand);
        }
        let number = self.add_arc(from, to, len)?;
        Ok((number, GraphDelta::NewArc(number)))
    }

    /// A new edge between two vertices (Knuth's `gb_new_edge`): two arcs with numbers that follow one another. The
    /// first leaves the vertex of the smaller number, the second the other, and each is first in its list; of a
    /// loop the first arc stands before the second.
    ///
    /// Answers the first number, and what `revert` needs. Refused `BadOperand` where there is no such vertex, and
    /// `TooLarge` where more than 999,998 numbers were given out.
    pub fn new_edge(
        &mut self,
        from: VertexNo,
        to: VertexNo,
        len: i64,
    ) -> Result<(ArcNo, GraphDelta), Refusal>
        ensures accepted { OnOk result (refusal_of_edge self.old from.0 to.0 ≡ None) }
        ensures number { IfOk result (λ p. p.0 ≡ arc_no (made_of self.old)) }
        ensures delta { IfOk result (λ p. p.1 ≡ GraphDelta.NewEdge p.0) }
        ensures graph { OnOk result (self.new ≡ with_edge self.old from.0 to.0 len) }
        ensures left { IfOk result (λ p. LeftBy self.old p.1 self.new) }
        ensures err { IfErr result (λ e. (e ≡ Refusal.NoRoom) ⊎ (refusal_of_edge self.old from.0 to.0 ≡ Some e)) }
        ensures room { IsErrOf result Refusal.NoRoom → refusal_of_edge self.old from.0 to.0 ≡ None }
        ensures unchanged { OnErr result (self.new ≡ self.old) }
        ensures sound { IsGraph self.new }
    {
        if !self.has_both(from, to) {
            return Err(Refusal::BadOperand);
        }
        let number = self.add_edge(from, to, len)?;
        Ok((number, GraphDelta::NewEdge(number)))
    }

    // Whether there are both vertices.
    fn has_both(&self, from: VertexNo, to: VertexNo) -> bool
        ensures value { result ≡ (has_vertex self.now from.0 && has_vertex self.now to.0) }
        ensures sound { IsGraph self.now }
    {
        from.0 < self.n() && to.0 < self.n()
    }

    // What `new_arc` does where there are both vertices. Answers the number alone.
    #[inline(always)]
    pub(crate) fn add_arc(
        &mut self,
        from: VertexNo,
        to: VertexNo,
        len: i64,
    ) -> Result<ArcNo, Refusal>
        requires from { from.0 < n_of self.old }
        requires to { to.0 < n_of self.old }
        ensures accepted { OnOk result (refusal_of_arc self.old from.0 to.0 ≡ None) }
        ensures number { IfOk result (λ k. k ≡ arc_no (made_of self.old)) }
        ensures graph { OnOk result (self.new ≡ with_arc self.old from.0 to.0 len) }
        ensures left { IfOk result (λ k. LeftBy self.old (GraphDelta.NewArc k) self.new) }
        ensures err { IfErr result (IsRefusedAt (made_of self.old + 1)) }
        ensures unchanged { OnErr result (self.new ≡ self.old) }
        ensures sound { IsGraph self.new }
    {
        let number = ArcNo(self.made());
        self.slots.push_arc(&mut self.vertices, from, to, len)?;
        Ok(number)
    }

    // What `new_edge` does where there are both vertices. Answers the first number alone.
    #[inline(always)]
    pub(crate) fn add_edge(
        &mut self,
        from: VertexNo,
        to: VertexNo,
        len: i64,
    ) -> Result<ArcNo, Refusal>
        requires from { from.0 < n_of self.old }
        requires to { to.0 < n_of self.old }
        ensures accepted { OnOk result (refusal_of_edge self.old from.0 to.0 ≡ None) }
        ensures number { IfOk result (λ k. k ≡ arc_no (made_of self.old)) }
        ensures graph { OnOk result (self.new ≡ with_edge self.old from.0 to.0 len) }
        ensures left { IfOk result (λ k. LeftBy self.old (GraphDelta.NewEdge k) self.new) }
        ensures err { IfErr result (IsRefusedAt (made_of self.old + 2)) }
        ensures unchanged { OnErr result (self.new ≡ self.old) }
        ensures sound { IsGraph self.new }
    {
        let number = ArcNo(self.made());
        self.slots.push_edge(&mut self.vertices, from, to, len)?;
        Ok(number)
    }
}
