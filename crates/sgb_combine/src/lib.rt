//! Combinations of graphs and random lengths: complements, unions, intersections, products, and the lengths of a graph's arcs
//! with their undoing. Induced graphs are re-exported.
#![tactic(auto)]

mod begin;
mod both;
mod combination;
mod delta;
mod draw;
mod exchange;
mod facts;
mod id;
mod intersect;
mod lengths;
mod lowest;
mod multiply;
mod negate;
mod pairs;
mod prepared;
mod rows;
mod run;
mod spec;
mod unite;

pub use delta::LengthsDelta;
pub use facts::{lengths_law, lowest_law};
pub use intersect::intersection;
pub use lengths::{random_lengths, revert_lengths};
pub use negate::complement;
pub use pairs::product;
pub use sgb_graph::{Spoke, check_operand, read_spokes, spoke_at, spoke_law};
pub use sgb_induced::{InducedSpec, induced, least_law};
pub use spec::{ComplementSpec, GunionSpec, LengthsSpec, ProductSpec};
pub use unite::gunion;
