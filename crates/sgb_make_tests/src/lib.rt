//! Tests of standard and random graphs, and of combinations: what no script shows of them. Scripts that show the graphs
//! stand in tests/corpus/.
#![tactic(auto)]

#[cfg(test)]
mod combine;
#[cfg(test)]
mod growths;
#[cfg(test)]
mod laws;
#[cfg(test)]
mod looks;
#[cfg(test)]
mod seeds;
