//! What a graph of binary trees is asked for by.

/// Binary trees with `n` dots and a height of at most `max_height`, where a height of 0, or above `n`, is `n`.
/// Each rotation is an arc where `directed` is true, and else an edge.
#[derive(Clone, Copy, Debug, PartialEq, Eq)]
pub struct BinarySpec {
    /// From 0 to 100.
    pub n: i64,
    /// 0 or more.
    pub max_height: i64,
    pub directed: bool,
}
