//! Graphs.

mod arena;
mod build;
mod codes;
mod cut;
mod exchange;
mod fields;
mod fill;
mod grow;
mod honest;
mod insert;
mod lay;
mod link;
mod new;
mod paired;
mod read;
mod revert;
mod room;
mod same;
mod set;
mod vertices;
mod walk;

use crate::text::Label;
use crate::{Text, Types, Util};
use arena::Arena;
use codes::Link;
pub(crate) use new::six_zeros;
pub use read::ArcView;
use std::marker::Model;
pub(crate) use vertices::Vertices;
pub use walk::Walk;

/// The most vertices that a graph has.
pub const MOST_VERTICES: u32 = 65_535;

/// The most arc numbers that a graph gives out.
pub const MOST_ARCS: u32 = 1_000_000;

/// A directed graph: vertices with labels and six utility fields each, and per vertex a list of arcs, the newest
/// first. An arc has a number, a tip, a length and two utility fields; the number of an arc that was cut is a hole.
#[derive(Drop)]
pub struct Graph {
    id: Text,
    types: Types,
    fields: [Util; 6],
    vertices: Vertices,
    slots: Arena,
    // How many slots hold no arc: a new arc, which fills a new slot, leaves it as it is.
    holes: u32,
}

#[derive(Drop)]
struct Vertex {
    label: Label,
    fields: [Util; 6],
    first: Link,
}

impl Model for Graph {
    ghost use Rattle.sgb_graph.specs.Graph.{GraphOf};

    ghost Value = { GraphOf };

    ghost use Rattle.sgb_graph.specs.Private.Arena.{graph_of, IsArena};

    ghost view = { graph_of };

    ghost invariant = { IsArena };
}
