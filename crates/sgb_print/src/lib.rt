//! Readers and writers that remember failures, why a program ends early, and graphs as they are printed.
#![tactic(auto)]

mod fault;
mod meter;
mod page;
mod print;
mod show;

pub use fault::RunFault;
pub use meter::{Failed, MeteredReader, MeteredWriter};
pub use page::{PAGE_LIMIT, Page};
pub use print::{put, put_all};
pub use show::{print_graph, print_made};
