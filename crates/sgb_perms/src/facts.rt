//! What the definitions of arrangements come to. The function does nothing: its clauses are the law.
ghost use Rattle.std.specs.Prelude.{◌≡◌, ◌≤◌, ◌<◌, ◌↔◌, ℕ, List, length, sum, Contains};
ghost use Rattle.sgb_plan.specs.Distinct.{Distinct};
ghost use Rattle.sgb_perms.specs.Arrangement.{IsArrangement, arrangements, greatest_from, vector_of};

/// The listed arrangements are all those with at most so many inversions, each once; and no two arrangements of a
/// multiset have one vector. What no limit comes to is the greatest number of inversions: one has it, and none exceeds it.
pub fn perms_law()
    ensures all { (counts a : List ℕ) (most : ℕ) → 0 < length counts →
        Contains (arrangements counts most) a ↔ (IsArrangement counts a × (sum (vector_of counts a) ≤ most)) }
    ensures once { (counts : List ℕ) (most : ℕ) → Distinct (arrangements counts most) }
    ensures vector { (counts a b : List ℕ) → 0 < length counts → IsArrangement counts a → IsArrangement counts b →
        vector_of counts a ≡ vector_of counts b → a ≡ b }
    ensures greatest { (counts a : List ℕ) → 0 < length counts → IsArrangement counts a →
        sum (vector_of counts a) ≤ greatest_from 0 counts }
    ensures reached { (counts : List ℕ) → 0 < length counts →
        (a : List ℕ) × (IsArrangement counts a × (sum (vector_of counts a) ≡ greatest_from 0 counts)) }
{}
