//! Random graphs (`gb_rand`): arcs or edges between vertices that a generator draws.
#![tactic(auto)]

mod attempt;
mod build;
mod draw;
mod laws;
mod pairs;
mod progress;
mod spec;

pub use draw::{random, random_graph};
pub use laws::random_law;
pub use spec::RandomSpec;
