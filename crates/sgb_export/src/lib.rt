//! Graphs in the text formats of other tools.
#![tactic(auto)]

mod check;
mod count;
mod dimacs;
mod direction;
mod dot;
mod edges;
mod exporting;
mod fault;
mod format;
mod graph6;
mod graphml;
mod link;
mod names;
mod position;
mod simple;
mod write;

pub use check::check_export;
pub use exporting::export;
pub use fault::ExportFault;
pub use format::Format;
