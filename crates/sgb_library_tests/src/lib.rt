//! The programs of `docs/library.md`, which shows each of them word for word.
#![tactic(auto)]

#[cfg(test)]
mod combining;
mod counter;
#[cfg(test)]
mod editing;
#[cfg(test)]
mod exporting;
#[cfg(test)]
mod lengths;
#[cfg(test)]
mod numbers;
#[cfg(test)]
mod random;
#[cfg(test)]
mod saving;
#[cfg(test)]
mod scripts;
#[cfg(test)]
mod sessions;
#[cfg(test)]
mod standard;
#[cfg(test)]
mod standing;
#[cfg(test)]
mod walking;
