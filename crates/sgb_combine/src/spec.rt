//! What a combination is asked for beside its graphs, and what random lengths are.

/// What a complement is asked for.
#[derive(Clone, Copy, Debug, PartialEq, Eq)]
pub struct ComplementSpec {
    /// Whether the pairs are joined that the graph joins; else those that it does not join.
    pub copy: bool,
    /// Whether a vertex may be joined to itself.
    pub loops: bool,
    /// Whether the result has arcs; else it has edges.
    pub directed: bool,
}

/// What a union is asked for.
#[derive(Clone, Copy, Debug, PartialEq, Eq)]
pub struct GunionSpec {
    /// Whether a pair of vertices may be joined more than once.
    pub multi: bool,
    /// Whether the result has arcs; else it has edges.
    pub directed: bool,
}

/// What a product is asked for.
#[derive(Clone, Copy, Debug, PartialEq, Eq)]
pub struct ProductSpec {
    /// 0 for the cartesian product, 1 for the direct one, 2 for the strong one.
    pub kind: i64,
    /// Whether the result has arcs; else it has edges.
    pub directed: bool,
}

/// Which lengths a graph is to have.
#[derive(Clone, Copy, Debug, PartialEq, Eq)]
pub struct LengthsSpec {
    /// Each arc draws a length of its own. Else the two halves of an edge have one length.
    pub directed: bool,
    /// The least length.
    pub min: i64,
    /// The greatest length, less than 2^31 above the least.
    pub max: i64,
}
