//! How a run ends.

/// A run that took its whole script.
#[derive(Clone, Copy, Debug, PartialEq, Eq)]
pub struct RunEnd {
    /// How many lines there were.
    pub lines: u64,
    /// How many of the units that they are were refused.
    pub refused: u64,
}
