//! Undoing an edit.
ghost use Rattle.std.specs.Prelude.{◌≡◌};
ghost use Rattle.sgb_graph.specs.Graph.{GraphOf, IsGraph};
ghost use Rattle.sgb_graph.specs.Delta.{LeftBy, LeftByArc, LeftByEdge, LeftByCut};

use super::Graph;
use super::link::{put_back, take_out};
use crate::{ArcNo, CutArc, GraphDelta};

impl Graph {
    /// Undoes the edit that gave this delta and left the graph as it is. Takes no memory.
    #[inline(always)]
    pub fn revert(&mut self, delta: GraphDelta)
        requires { (g : GraphOf) × LeftBy g delta self.old }
        ensures back { (g : GraphOf) → LeftBy g delta self.old → self.new ≡ g }
        ensures sound { IsGraph self.new }
    {
        match delta {
            GraphDelta::NewArc(number) => self.revert_arc(number),
            GraphDelta::NewEdge(number) => self.revert_edge(number),
            GraphDelta::Cut(arc) => self.revert_cut(arc),
            GraphDelta::SetLen(number, len) => {
                self.swap_len(number, len);
            }
            GraphDelta::SetUtil(place, value) => {
                self.swap_util(place, value);
            }
            GraphDelta::SetLabel(vertex, label) => {
                self.swap_label(vertex, label);
            }
            GraphDelta::SetId(id) => {
                self.swap_id(id);
            }
            GraphDelta::SetTypes(types) => {
                self.set_types(types);
            }
        }
    }

    // Takes back the last number, with its arc.
    fn revert_arc(&mut self, number: ArcNo)
        requires { (g : GraphOf) × LeftByArc g number self.old }
        ensures back { (g : GraphOf) → LeftByArc g number self.old → self.new ≡ g }
        ensures sound { IsGraph self.new }
    {
        take_out(&mut self.vertices, &mut self.slots, number);
        self.slots.truncate(number.0 as usize);
    }

    // Takes back the last two numbers, with their arcs.
    fn revert_edge(&mut self, number: ArcNo)
        requires { (g : GraphOf) × LeftByEdge g number self.old }
        ensures back { (g : GraphOf) → LeftByEdge g number self.old → self.new ≡ g }
        ensures sound { IsGraph self.new }
    {
        take_out(&mut self.vertices, &mut self.slots, number);
        take_out(&mut self.vertices, &mut self.slots, ArcNo(number.0 + 1));
        self.slots.truncate(number.0 as usize);
    }

    // Links the arc at its place again.
    fn revert_cut(&mut self, arc: CutArc)
        requires { (g : GraphOf) × LeftByCut g arc self.old }
        ensures back { (g : GraphOf) → LeftByCut g arc self.old → self.new ≡ g }
        ensures sound { IsGraph self.new }
    {
        put_back(&mut self.vertices, &mut self.slots, arc);
        self.holes -= 1;
    }
}
