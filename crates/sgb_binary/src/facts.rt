//! Laws of trees and their rotations. Each function does nothing: its clauses are the law.
ghost use Rattle.std.specs.Prelude.{◌≡◌, ◌≤◌, ◌==◌, ◌∷◌, ◌++◌, [], ℕ, List, length, drop, codes, true, Contains};
ghost use Rattle.std.specs.Cmp.Lexicographic.{slice_cmp};
ghost use Rattle.std.specs.List.{starts_with, AllPairs};
ghost use Rattle.std.specs.Ordering.{nat_cmp};
ghost use Rattle.sgb_plan.specs.Distinct.{Distinct};
ghost use Rattle.sgb_binary.specs.Rotation.{turned_at};
ghost use Rattle.sgb_binary.specs.Shape.{Tree, text, dots, height};
ghost use Rattle.sgb_binary.specs.Shape.Tree.{Node};
ghost use Rattle.sgb_binary.specs.Tree.{trees};

use std::cmp::Ordering;

/// The vertices are all trees with so many dots and at most this height, each once, in
/// the order of the bytes.
pub fn binary_law()
    ensures all { (t : Tree) (n most : ℕ) → dots t ≡ n → height t ≤ most → Contains (trees n most) (text t) }
    ensures only { (n most : ℕ) (w : List ℕ) → Contains (trees n most) w →
        (t : Tree) × (text t ≡ w) × (dots t ≡ n) × (height t ≤ most) }
    ensures once { (n most : ℕ) → Distinct (trees n most) }
    ensures ordered { (n most : ℕ) → AllPairs (λ v w. slice_cmp nat_cmp v w ≡ Ordering.Less) (trees n most) }
{}

/// Where a subtree `..abc` begins, the word turns into the one with `.a.bc` in its place, and into no other; and wherever
/// two dots stand in a vertex's name, such a subtree begins.
pub fn rotation_law()
    ensures turned { (a b c : Tree) (front back : List ℕ) →
        turned_at (front ++ (text (Node (Node a b) c) ++ back)) (length front)
        ≡ (front ++ (text (Node a (Node b c)) ++ back)) ∷ [] }
    ensures found { (n most i : ℕ) (w : List ℕ) → Contains (trees n most) w →
        starts_with ◌==◌ (drop i w) (codes "..") ≡ true →
        (a : Tree) × (b : Tree) × (c : Tree) × (back : List ℕ) × (drop i w ≡ text (Node (Node a b) c) ++ back) }
{}
