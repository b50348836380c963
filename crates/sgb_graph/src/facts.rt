//! Laws of graphs. Each function does nothing: its clauses are the law.
ghost use Rattle.std.specs.Prelude.{◌≡◌, ◌↔◌, ℕ, IsTrue, true, false, Some, None};
ghost use Rattle.std.specs.Bool.{Decides};
ghost use Rattle.sgb_graph.specs.Graph.{GraphOf, IsGraph, arcs_of, has_arc};
ghost use Rattle.sgb_graph.specs.Delta.{LeftBy};
ghost use Rattle.sgb_graph.specs.Edit.{entry_at};
ghost use Rattle.sgb_graph.specs.Linked.{graph_of_parts};
ghost use Rattle.sgb_graph.specs.Operand.{refusal_of_operand, spoke_of};
ghost use Rattle.sgb_graph.specs.Paired.{walk, without_half_places, is_paired, HasHalves};
ghost use Rattle.sgb_graph.specs.Parts.{Builds};
ghost use Rattle.sgb_graph.specs.Reverted.{reverted};
ghost use Rattle.sgb_graph.specs.Same.{graph_eq, util_eq};
ghost use Rattle.sgb_graph.specs.Sound.{is_graph};
ghost use Rattle.sgb_graph.specs.declared.delta.GraphDelta.{GraphDelta};
ghost use Rattle.sgb_graph.specs.declared.field.Tip.TheVariants.{To};
ghost use Rattle.sgb_graph.specs.declared.field.Util.{Util};
ghost use Rattle.sgb_graph.specs.declared.parts.Parts.{Parts};

/// Two graphs, and two values of utility fields, are `==` exactly where contracts see the same of them.
pub fn same_law()
    ensures graphs { (g h : GraphOf) → IsTrue (graph_eq g h) ↔ (g ≡ h) }
    ensures values { (a b : Util) → IsTrue (util_eq a b) ↔ (a ≡ b) }
{}

/// Parts have one graph at most.
pub fn build_law()
    ensures one { (p : Parts) (g h : GraphOf) → Builds p g → Builds p h → g ≡ h }
{}

/// A directed walk is the list of the vertex; one that is not is the list without its second halves, in order.
pub fn walk_law()
    ensures directed { (g : GraphOf) (v : ℕ) → walk true g v ≡ arcs_of g v }
    ensures undirected { (g : GraphOf) (v : ℕ) → walk false g v ≡ without_half_places g v (arcs_of g v) }
{}

/// A graph is paired exactly where each arc leads to a vertex, and has its other half: below it in number where it
/// leads to a smaller vertex, above it where it leads to a larger one; and of a loop, the arc itself or the next in its
/// list is a second half.
pub fn pair_law()
    ensures { (g : GraphOf) → Decides (is_paired g) (HasHalves g) }
{}

/// The test of a graph tells whether it is sound.
pub fn sound_law()
    ensures { (g : GraphOf) → Decides (is_graph g) (IsGraph g) }
{}

/// The graph that parts build is the one that is computed of them; where none is computed, they build none.
pub fn parts_law()
    ensures some { (p : Parts) (g : GraphOf) → Builds p g → graph_of_parts p ≡ Some g }
    ensures built { (p : Parts) (g : GraphOf) → graph_of_parts p ≡ Some g → Builds p g }
{}

/// Each arc of an operand that is not refused leads to the vertex that its spoke names.
pub fn spoke_law()
    ensures { (g : GraphOf) (k : ℕ) → refusal_of_operand g ≡ None → has_arc g k ≡ true →
        (entry_at g k).tip ≡ To (record { 0 = (spoke_of (entry_at g k)).to }) }
{}

/// `reverted` tells the graph that an edit met from what the edit left and what it kept.
pub fn revert_law()
    ensures met { (g h : GraphOf) (d : GraphDelta) → LeftBy g d h → reverted h d ≡ g }
{}
