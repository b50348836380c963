//! Laws of combinations and of random lengths. Each function does nothing: its clauses are the law.
ghost use Rattle.std.specs.Prelude.{◌≡◌, ◌≢◌, ◌≤◌, ◌<◌, Bool, ℕ, length, None, true, List, [], ◌∷◌, ◌++◌, map, if◌then◌else◌};
ghost use Rattle.std.specs.List.{AllPairs};
ghost use Rattle.sgb_graph.specs.Graph.{GraphOf, IsGraph, has_arc, occurrences};
ghost use Rattle.sgb_graph.specs.declared.spoke.Spoke.{Spoke};
ghost use Rattle.sgb_combine.specs.Complement.{leads_to};
ghost use Rattle.sgb_combine.specs.Drawing.{drawing, source_of};
ghost use Rattle.sgb_combine.specs.Lengths.{refusal_of_arcs};
ghost use Rattle.sgb_combine.specs.Lowest.{lowest, least_to};

/// What is made of spokes where each vertex is joined once: they lead to the same vertices, to each once, by the least
/// of the lengths; and a further spoke leaves them in their places, and has a new one, last, where none led to its vertex.
pub fn lowest_law()
    ensures same { (ss : List Spoke) (w : ℕ) → leads_to (lowest ss) w ≡ leads_to ss w }
    ensures once { (ss : List Spoke) → AllPairs (λ r s. r.to ≢ s.to) (lowest ss) }
    ensures least { (ss : List Spoke) (w : ℕ) → least_to (lowest ss) w ≡ least_to ss w }
    ensures first { (ss : List Spoke) (s : Spoke) → map (λ r. r.to) (lowest (ss ++ s ∷ []))
        ≡ map (λ r. r.to) (lowest ss) ++ (if leads_to ss s.to then [] else s.to ∷ []) }
{}

/// No arc draws twice, and in a graph that is not refused each arc has its length from a draw.
pub fn lengths_law()
    ensures once { (directed : Bool) (g : GraphOf) (k : ℕ) → IsGraph g → occurrences k (drawing directed g) ≤ 1 }
    ensures drawn { (directed : Bool) (g : GraphOf) (k : ℕ) → IsGraph g → refusal_of_arcs directed g ≡ None → has_arc g k ≡ true →
        source_of directed (drawing directed g) k < length (drawing directed g) }
{}
