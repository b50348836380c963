//! What random lengths take memory for.
use sgb_graph::Text;
use sgb_plan::LengthRange;

/// The lengths that are drawn from, the new id, and room for the length of each number.
#[derive(Drop)]
pub(crate) struct Prepared {
    pub(crate) range: LengthRange,
    pub(crate) id: Text,
    pub(crate) lengths: Vec<i64>,
}
