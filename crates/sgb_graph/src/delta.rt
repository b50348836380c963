//! What an edit leaves behind for its undoing.
use crate::{ArcNo, Label, Place, Text, Tip, Types, Util, VertexNo};

/// What `Graph::revert` needs to undo one edit.
#[derive(Debug, Drop, PartialEq, Eq)]
pub enum GraphDelta {
    /// The number of a new arc.
    NewArc(ArcNo),
    /// The first number of a new edge.
    NewEdge(ArcNo),
    /// The arc that was cut.
    Cut(CutArc),
    /// The length that the arc had.
    SetLen(ArcNo, i64),
    /// The value that the field had.
    SetUtil(Place, Util),
    /// The label that the vertex had.
    SetLabel(VertexNo, Label),
    /// The id that the graph had.
    SetId(Text),
    /// The letters that the graph had.
    SetTypes(Types),
}

/// An arc that was cut: its number, its owner, its place in the owner's list, and the arc.
#[derive(Debug, Drop, PartialEq, Eq)]
pub struct CutArc {
    pub number: ArcNo,
    pub owner: VertexNo,
    pub place: u32,
    pub tip: Tip,
    pub len: i64,
    pub fields: [Util; 2],
}
