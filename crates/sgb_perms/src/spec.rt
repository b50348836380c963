//! What graph of permutations is asked for.

/// The graph of the arrangements of a multiset, with the words of its call.
#[derive(Clone, Copy, Debug, PartialEq, Eq)]
pub struct PermsSpec {
    /// How many elements of kind 0 there are, at least 1.
    pub n0: i64,
    /// How many of kind 1, and so on: the first that is not above 0 ends the list of kinds.
    pub n1: i64,
    pub n2: i64,
    pub n3: i64,
    pub n4: i64,
    /// The most inversions of a vertex; 0 for no limit.
    pub max_inv: i64,
    /// An exchange makes an arc, and else an edge.
    pub directed: bool,
}
