//! What a generated graph is asked to be.

/// A board: the sizes `n1` to `n4`, the piece that moves on it, which of its coordinates have their ends joined, and
/// whether a move makes an arc or an edge.
///
/// - The first of `n2`, `n3`, `n4` that is not above 0 ends the list of sizes: 0 leaves those before it, and -d repeats
///   these, or cuts them, to d sizes, at most 20. Where `n1` is not above 0 it is a board of 8 by 8.
/// - A piece moves by the vectors of whole numbers whose squares sum to `piece`: 1 is a rook's step, 2 a bishop's,
///   5 a knight's move. A piece below 0 goes on by steps of the same vector. 0 stands for 1. The absolute value is at
///   most 128 with up to 4 coordinates, 16 with up to 16, and else 4.
/// - Bit k of `wrap`, from 0, joins the ends of coordinate k; -1 joins all.
#[derive(Clone, Copy, Debug, PartialEq, Eq)]
pub struct BoardSpec {
    pub n1: i64,
    pub n2: i64,
    pub n3: i64,
    pub n4: i64,
    pub piece: i64,
    pub wrap: i64,
    pub directed: bool,
}
