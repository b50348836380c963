//! Induced graphs: vertices of a graph that are kept, dropped, copied or joined into classes, with the arcs between them.
#![tactic(auto)]

mod expand;
mod facts;
mod fate;
mod gather;
mod image;
mod inducing;
mod merge;
mod name;
mod run;

pub use facts::least_law;
pub use inducing::{InducedSpec, induced};
