//! Simplices and families of subsets: graphs whose vertices are the points with a given sum.
#![tactic(auto)]

mod arguments;
mod bounds;
mod coded;
mod counts;
mod generate;
mod judge;
mod list;
mod listing;
mod moves;
mod naming;
mod overlap;

pub use arguments::{SimplexSpec, SubsetsSpec};
pub use generate::{simplex, subsets};
pub use listing::list_within;
pub use naming::{point_types, push_point};
