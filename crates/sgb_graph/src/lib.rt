//! Directed graphs of vertices and numbered arcs with utility fields, whose edits can be undone.
#![tactic(auto)]

mod builder;
mod delta;
mod facts;
mod field;
mod graph;
mod items;
mod operand;
mod parts;
mod refusal;
mod spoke;
mod text;
mod types;

pub use builder::Builder;
pub use delta::{CutArc, GraphDelta};
pub use facts::{
    build_law, pair_law, parts_law, revert_law, same_law, sound_law, spoke_law, walk_law,
};
pub use field::{ArcField, ArcNo, GraphField, Place, Tip, Util, VertexField, VertexNo};
pub use graph::{ArcView, Graph, MOST_ARCS, MOST_VERTICES, Walk};
pub use items::Items;
pub use operand::{check_operand, read_spokes, spoke_at};
pub use parts::{ArcPart, Parts, VertexPart};
pub use refusal::Refusal;
pub use spoke::Spoke;
pub use text::{Label, Text};
pub use types::Types;
