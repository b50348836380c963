//! Graphs as text: what is saved, and what is read back.
#![tactic(auto)]

mod page;
mod records;
mod restoring;
mod saving;
mod values;

pub use restoring::{CheckRule, answers_are_exact, reading_law, restore};
pub use saving::{Saved, cleaning_law, save, texts_read_back};
