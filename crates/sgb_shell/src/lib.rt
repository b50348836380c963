//! The transcript of a script: its units, and what each is answered.
//!
//! [`run`] reads a script and writes its transcript. A line goes from the reader to a slice of what was read, to a
//! parsed line, to the journal's session, and its answer to the writer.
#![tactic(auto)]

mod answer;
mod buffer;
mod fault;
mod first;
mod group;
mod laws;
mod line;
mod pending;
mod perform;
mod reader;
mod script;
mod shell;
mod status;
mod text;
mod unit;

pub use fault::RunEnd;
pub use laws::transcript_law;
pub use script::{Ended, SCRIPT_LIMIT, run, run_metered};
pub use sgb_print::{Failed, MeteredReader, MeteredWriter, RunFault};
pub use sgb_script::{
    Command, Edit, LINE_LIMIT, Line, MOST_MEMBERS, Maker, NAME_LIMIT, Name, Query, ShellRefusal,
    Single, parse,
};
pub use sgb_session::{
    Base, Boxed, Delta, Entry, MOST_DRAWS, MOST_GRAPHS, MOST_UNIFORM, Mark, Reply, Session,
    SingleDelta, SingleReply, Source,
};
pub use sgb_text::CheckRule;
pub use status::exit_status;
