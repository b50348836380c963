//! Tests of graphs, of the generator, of the journal, of plans and of saved texts: what no clause says of them, and each call
//! with ample memory.
#![tactic(auto)]

#[cfg(test)]
mod arcs;
#[cfg(test)]
mod builders;
#[cfg(test)]
mod edits;
#[cfg(test)]
mod fields;
#[cfg(test)]
mod flip;
#[cfg(test)]
mod growths;
#[cfg(test)]
mod limits;
#[cfg(test)]
mod looks;
#[cfg(test)]
mod pairs;
#[cfg(test)]
mod parts;
mod plan;
#[cfg(test)]
mod saved;
#[cfg(test)]
mod texts;
#[cfg(test)]
mod undo;

pub use plan::path;
