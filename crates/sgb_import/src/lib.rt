//! Graphs from the texts of other tools.
#![tactic(auto)]

mod dimacs;
mod dimacs_laws;
mod dimacs_line;
mod dimacs_step;
mod edges;
mod edges_ends;
mod edges_header;
mod edges_id;
mod edges_line;
mod graph6;
mod graph6_laws;
mod ids;
mod importing;
mod laws;
mod lines;
mod number;
mod outline;
mod refusal;
mod source;

pub use dimacs_laws::{col_law, dimacs_law};
pub use graph6_laws::graph6_law;
pub use importing::import;
pub use laws::{edges_law, named_edges_law, outline_law, spells_law};
pub use refusal::{ImportRefusal, TextFault};
pub use source::{EdgeList, Source};
