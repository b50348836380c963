//! Drawn lengths, names and ids, and an example of a generator over a plan.

mod example;

pub use example::path;

#[cfg(test)]
mod ids;
#[cfg(test)]
mod lengths;
#[cfg(test)]
mod lists;
#[cfg(test)]
mod names;
#[cfg(test)]
mod paths;
