//! What is asked for.

/// The arguments of `simplex`.
#[derive(Clone, Copy, Debug, PartialEq, Eq)]
pub struct SimplexSpec {
    /// The sum of a point's coordinates, from 0 to 65,535.
    pub n: i64,
    /// The bound of the first coordinate; -d gives d + 1 coordinates, each with the bound `n`; 0 stands for -2.
    pub n0: i64,
    /// The bounds of the others. The first that is not above 0 ends the list: -d repeats the bounds before it, or cuts
    /// them, to d + 1.
    pub n1: i64,
    pub n2: i64,
    pub n3: i64,
    pub n4: i64,
    /// Whether a move makes an arc, or else an edge.
    pub directed: bool,
}

/// The arguments of `subsets`.
#[derive(Clone, Copy, Debug, PartialEq, Eq)]
pub struct SubsetsSpec {
    /// The sum of a point's coordinates, from 0 to 65,535.
    pub n: i64,
    /// The bounds of the coordinates, as those of `simplex`.
    pub n0: i64,
    pub n1: i64,
    pub n2: i64,
    pub n3: i64,
    pub n4: i64,
    /// The sizes of overlaps that join two points: size s where bit s is set.
    pub size_bits: u64,
    /// Whether a pair makes an arc, or else an edge.
    pub directed: bool,
}
