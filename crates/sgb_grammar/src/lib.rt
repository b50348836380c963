//! The grammar of a saved text: what its bytes spell, read from the front. Most readers return a value with the bytes
//! that follow it.
#![tactic(auto)]

mod bytes;
mod check;
mod fault;
mod fields;
mod header;
mod laws;
mod numbers;
mod records;
mod saved;
mod strings;

pub use check::check_number;
pub use fault::Fault;
pub use header::{Header, read_header};
pub use laws::{items_law, records_law, spelling_law};
pub use saved::{Saved, read_saved};
