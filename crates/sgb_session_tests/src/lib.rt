//! Tests of lines, of single calls of a session, of groups in its journal, of the programs beside the script, and of readers
//! and writers that give little, stop early or fail. Whole scripts are kept in tests/corpus/ with their transcripts, and
//! long ones are made by tests/large.py.
#![tactic(auto)]

#[cfg(test)]
mod calls;
#[cfg(test)]
mod fake;
#[cfg(test)]
mod groups;
#[cfg(test)]
mod lines;
#[cfg(test)]
mod programs;
#[cfg(test)]
mod script;
#[cfg(test)]
mod session;
#[cfg(test)]
mod standing;
#[cfg(test)]
mod whole;
