//! The random number generator of the Stanford GraphBase (`gb_flip`), forward and backward.
#![tactic(auto)]

mod cycle;
mod flip;
mod laws;
mod seeding;

pub use flip::{Drawn, Flip};
pub use laws::{draws_law, seeding_law, sequence_law, uniform_law};
