//! The session: a generator and named graphs, as a machine whose commands can be undone.
//!
//! [`Base`] performs single commands. [`Session`], above it, performs commands that are single or groups.
#![tactic(auto)]

mod base;
mod boxed;
mod edit;
mod headline;
mod making;
mod mark;
mod reply;
mod session;
mod table;

pub use base::{Base, MOST_DRAWS, MOST_UNIFORM};
pub use boxed::Boxed;
pub use headline::headline_law;
pub use mark::Mark;
pub use reply::{Delta, Reply, SingleDelta, SingleReply, Source};
pub use session::Session;
pub use table::{Entry, MOST_GRAPHS};
