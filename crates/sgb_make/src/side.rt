//! The sides of a board, and how a piece moves along them.

/// A coordinate of a board: its size, and whether its ends are joined.
#[derive(Clone, Copy, Debug)]
pub(crate) struct Side {
    pub(crate) size: u32,
    pub(crate) wraps: bool,
}

/// A part of a vector: by how much it moves a coordinate, and whether it moves it back.
#[derive(Clone, Copy, Debug)]
pub(crate) struct Step {
    pub(crate) by: u32,
    pub(crate) back: bool,
}

/// The sides of a board, whether its piece is a rider, and the sum of the squares of a vector's parts.
#[derive(Drop)]
pub(crate) struct Course {
    pub(crate) sides: Vec<Side>,
    pub(crate) rides: bool,
    pub(crate) most: u32,
}
