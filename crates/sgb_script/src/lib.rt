//! The script language: the commands, and the reading of a line.
#![tactic(auto)]

mod arguments;
mod command;
mod edits;
mod line;
mod makers;
mod name;
mod numbers;
mod refusal;
mod words;

pub use command::{Command, Edit, Line, MOST_MEMBERS, Maker, Query, Single};
pub use line::{LINE_LIMIT, parse};
pub use name::{NAME_LIMIT, Name};
pub use refusal::ShellRefusal;
