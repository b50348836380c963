//! Laws about the definitions that the contracts cite. Each function does nothing: its clauses are
//! the law.
ghost use Rattle.std.specs.Prelude.{◌≡◌, ◌<◌, ◌≤◌, ◌+◌, ◌-◌, ◌^◌, ℕ, List, length, slice_index};
ghost use Rattle.sgb_flip.specs.Generator.{Generator, HasNoUniform, IsGenerator, IsSeeding, IsUniform, after, drawn, seed_words, uniform};
ghost use Rattle.sgb_flip.specs.Sequence.{IsSequence, term, terms_after};

/// `term words` is the sequence that the words begin, and the only one.
pub fn sequence_law()
    ensures holds { (words : List ℕ) → IsSequence words (term words) }
    ensures only { (words : List ℕ) (c : ℕ → ℕ) → IsSequence words c → (n : ℕ) → 1 ≤ n → c n ≡ term words n }
{}

/// `seed_words` fills the words as a seed does, and no other list of 55 words does.
pub fn seeding_law()
    ensures holds { (x : ℕ) → IsSeeding x (seed_words x) }
    ensures only { (x : ℕ) (words : List ℕ) → length words ≡ 55 → IsSeeding x words → words ≡ seed_words x }
{}

/// `drawn` and `after` are told by single draws. A draw takes the last unread word; where none is
/// unread, the next 55 terms take the words' place first.
pub fn draws_law()
    ensures none { (w : Generator) → IsGenerator w → after w 0 ≡ w }
    ensures more { (w : Generator) (i j : ℕ) → after (after w i) j ≡ after w (i + j) }
    ensures number { (w : Generator) (i j : ℕ) → IsGenerator w →
        drawn (after w i) j ≡ drawn w (i + j) }
    ensures read { (w : Generator) → IsGenerator w → 0 < w.unread →
        (drawn w 0 ≡ slice_index w.words (w.unread - 1))
        × (after w 1 ≡ record w { unread = w.unread - 1 }) }
    ensures refilled { (w : Generator) → w.unread ≡ 0 →
        (drawn w 0 ≡ slice_index (terms_after w.words 55) 54)
        × (after w 1 ≡ record { words = terms_after w.words 55; unread = 54 }) }
    // So `back` after `next` changes nothing; `next` after `back` does not by the clause `before`.
    ensures only { (v w : Generator) (n : ℕ) → IsGenerator v → IsGenerator w →
        after v n ≡ after w n → v ≡ w }
{}

/// From each generator and for each bound there is a uniform number within 1,814 draws. The function
/// `uniform` tells it, and the relation `IsUniform` has no other.
pub fn uniform_law()
    ensures some { (w : Generator) (m : ℕ) → IsGenerator w → 1 ≤ m → m ≤ 2 ^ 31 →
        ¬ HasNoUniform w m }
    ensures holds { (w : Generator) (m : ℕ) → IsGenerator w → 1 ≤ m → m ≤ 2 ^ 31 →
        IsUniform w m (uniform w m).value (uniform w m).draws (uniform w m).rest }
    ensures only { (w : Generator) (m value draws : ℕ) (rest : Generator) →
        IsUniform w m value draws rest →
        record { value = value; draws = draws; rest = rest } ≡ uniform w m }
{}
