//! The parts of a graph, as they are saved: records that are linked by number.
use crate::{ArcNo, Items, Label, Text, Tip, Types, Util};

/// What `Graph::build` makes a graph of: its id, letters and own fields, its vertices, and the records of its arcs by
/// number. A record that no chain reaches is a hole, whatever it holds.
#[derive(Debug, Drop, PartialEq, Eq)]
pub struct Parts {
    pub id: Text,
    pub types: Types,
    pub fields: [Util; 6],
    pub vertices: Items<VertexPart>,
    pub arcs: Items<ArcPart>,
}

/// A vertex: its name, its fields in the order of `VertexField`, and the first of its arcs.
#[derive(Debug, Drop, PartialEq, Eq)]
pub struct VertexPart {
    pub label: Label,
    pub fields: [Util; 6],
    pub first: Option<ArcNo>,
}

/// The record of an arc: its tip, its length, its fields in the order of `ArcField`, and the arc that follows it.
#[derive(Debug, Drop, PartialEq, Eq)]
pub struct ArcPart {
    pub tip: Tip,
    pub len: i64,
    pub fields: [Util; 2],
    pub next: Option<ArcNo>,
}
