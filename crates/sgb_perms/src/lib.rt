//! Graphs whose vertices are the arrangements of a multiset, and whose arcs or edges exchange two neighbours.
#![tactic(auto)]

mod counts;
mod exchanges;
mod facts;
mod generate;
mod judge;
mod listing;
mod names;
mod places;
mod rows;
mod spec;

pub use facts::perms_law;
pub use generate::perms;
pub use spec::PermsSpec;
