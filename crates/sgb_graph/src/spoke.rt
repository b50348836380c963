//! Spokes: what an arc is without its owner.

/// Where an arc leads, as the number of a vertex, and its length.
#[derive(Clone, Copy, Debug, PartialEq, Eq)]
pub struct Spoke {
    pub to: u32,
    pub len: i64,
}
