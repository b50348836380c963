//! Saved texts, their grammar and the graph of linked parts: what no script shows of them. Scripts that load and save
//! stand in tests/corpus/.

mod computed;
mod grammar;
mod growths;
mod laws;
mod refused;
