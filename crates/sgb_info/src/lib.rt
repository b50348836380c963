//! Facts of a graph: counts, degrees, lengths, components, and their text.
#![tactic(auto)]

mod bipartite;
mod classes;
mod component;
mod degrees;
mod info;
mod joins;
mod lengths;
mod lines;
mod repeats;

pub use bipartite::is_bipartite;
pub use component::{components, components_law};
pub use info::{Facts, info_law};
pub use lines::print_facts;
