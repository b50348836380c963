//! Random lengths: which numbers they are, and what undoing them leaves.

mod graphs;
mod growths;
mod tests;
