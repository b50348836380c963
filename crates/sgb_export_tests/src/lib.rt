//! Tests of what is printed, of the facts of graphs, and of graphs in the text forms of other tools, written and read.
#![tactic(auto)]

#[cfg(test)]
mod failing;
#[cfg(test)]
mod graphs;
#[cfg(test)]
mod growths;
#[cfg(test)]
mod imported;
#[cfg(test)]
mod info;
#[cfg(test)]
mod printed;
#[cfg(test)]
mod refused;
#[cfg(test)]
mod texts;
