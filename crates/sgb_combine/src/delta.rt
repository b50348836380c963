//! What random lengths leave behind for their undoing.
use sgb_graph::{Items, Text};

/// What `revert_lengths` needs: the lengths that the arcs had, by number, where a hole has 0; and the id that the graph
/// had.
#[derive(Debug, Drop, PartialEq, Eq)]
pub struct LengthsDelta {
    pub lengths: Items<i64>,
    pub id: Text,
}
