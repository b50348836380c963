//! Cutting an arc.
ghost use Rattle.std.specs.Prelude.{◌≡◌, ◌==◌, ◌&&◌, IfOk, IfErr, OnOk, OnErr, None, Some};
ghost use Rattle.sgb_graph.specs.Graph.{IsGraph, has_arc, names_of};
ghost use Rattle.sgb_graph.specs.Edit.{without_arc, refusal_of_cut};
ghost use Rattle.sgb_graph.specs.Delta.{LeftBy, cut_arc};

use super::Graph;
use super::link::take_out;
use crate::{ArcNo, GraphDelta, Refusal};

impl Graph {
    /// Cuts an arc: no list has it any more, and its number is a hole.
    ///
    /// Answers what `revert` needs: the arc with its place and the arc before it. Takes no memory, and time of the owner's
    /// list. Refused `BadOperand` where no arc has this number or a utility field names the arc.
    pub fn cut(&mut self, number: ArcNo) -> Result<GraphDelta, Refusal>
        ensures accepted { OnOk result (refusal_of_cut self.old number.0 ≡ None) }
        ensures delta { IfOk result (λ d. d ≡ GraphDelta.Cut (cut_arc self.old number.0)) }
        ensures graph { OnOk result (self.new ≡ without_arc self.old number.0) }
        ensures left { IfOk result (λ d. LeftBy self.old d self.new) }
        ensures err { IfErr result (λ e. refusal_of_cut self.old number.0 ≡ Some e) }
        ensures unchanged { OnErr result (self.new ≡ self.old) }
        ensures sound { IsGraph self.new }
    {
        if !self.can_cut(number) {
            return Err(Refusal::BadOperand);
        }
        let arc = take_out(&mut self.vertices, &mut self.slots, number);
        self.holes += 1;
        Ok(GraphDelta::Cut(arc))
    }

    // The arc lives, and no field names it.
    fn can_cut(&self, number: ArcNo) -> bool
        ensures value { result ≡ (has_arc self.now number.0 && (names_of self.now number.0 == 0)) }
        ensures sound { IsGraph self.now }
    {
        match self.slots.names(number) {
            Some(names) => names == 0,
            None => false,
        }
    }
}
