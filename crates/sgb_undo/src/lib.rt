//! The journal of any machine whose commands can be taken back.
//!
//! A [`Reversible`] machine answers an accepted command with a delta that leads back, and a
//! [`Journal`] keeps the commands and their deltas, so that they can be undone and redone. [`apply_all`]
//! performs several commands as one.
#![tactic(auto)]

mod group;
mod journal;
mod members;
mod refusal;
mod reversible;
mod runs;

pub use group::{apply_all, group_law, revert_all};
pub use journal::{GROWTH, Journal, MOST_COMMANDS};
pub use members::Members;
pub use refusal::{GroupRefusal, JournalRefusal, NothingToUndo};
pub use reversible::Reversible;
pub use runs::{Event, apply_and_undo, perform_all};
