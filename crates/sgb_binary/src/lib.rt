//! Graphs of binary trees and their rotations.
#![tactic(auto)]

mod code;
mod facts;
mod generator;
mod index;
mod judge;
mod lister;
mod rotation;
mod spec;

pub use facts::{binary_law, rotation_law};
pub use generator::binary;
pub use spec::BinarySpec;
