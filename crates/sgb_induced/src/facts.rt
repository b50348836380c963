//! Laws of induced graphs. Each function does nothing: its clauses are the law.
ghost use Rattle.std.specs.Prelude.{Bool};
ghost use Rattle.sgb_induced.specs.Least.{LeastLaw};

/// Of insertions that keep one for each pair of ends, each stands where the first with its ends stood, with the least
/// length of those with its ends. So it does not matter in which order lengths come at the same ends.
pub fn least_law()
    ensures { (directed : Bool) → LeastLaw directed }
{}
