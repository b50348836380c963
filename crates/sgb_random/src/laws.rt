//! Laws about the definitions that the contracts cite. The function does nothing: its clauses are the law.
ghost use Rattle.std.specs.Prelude.{◌≡◌, ◌≤ℤ◌, pos, None, false};
ghost use Rattle.sgb_flip.specs.Generator.{Generator};
ghost use Rattle.sgb_plan.specs.declared.part.Seed.{Seed};
ghost use Rattle.sgb_plan.specs.Plan.{is_too_large};
ghost use Rattle.sgb_random.specs.declared.spec.RandomSpec.{RandomSpec};
ghost use Rattle.sgb_random.specs.Random.{JoinsOnce, course, random_plan, refusal_of_random};

/// With `multi` at most 0 at most one insertion joins a pair of vertices, where edges are inserted in either order. So
/// the first insertion of a pair is its only one. And the insertions stay within the limits that `m` was judged by, so
/// that only `Stuck` is refused once there was a draw.
pub fn random_law()
    ensures once { (s : RandomSpec) (w : Generator) → s.multi ≤ℤ pos 0 →
        JoinsOnce s.directed (course s w).insertions }
    ensures fits { (s : RandomSpec) (seed : Seed) (w : Generator) → refusal_of_random s ≡ None →
        is_too_large (random_plan s seed (course s w).insertions) ≡ false }
{}
