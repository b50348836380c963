//! The program `sgb`, which runs scripts on a session of graphs, writes the queen's moves, checks and exports saved graphs and
//! tells facts of them, and imports and makes graphs.
#![tactic(auto)]

mod command_line;
mod complaint;
mod inputs;
mod programs;
mod task;
mod transcript;

use complaint::Complaint;
use inputs::open;
use programs::{print_check, print_export, print_import, print_info, print_made, print_queen};
use sgb_shell::exit_status;
use std::env;
use std::process::ExitCode;
use task::{Input, Task, read_task};
use transcript::print_transcript;

fn main(rt: HostRuntime) -> ExitCode {
    let words = match words(&rt) {
        Ok(words) => words,
        Err(complaint) => return complain(&rt, complaint),
    };
    match perform(&rt, words.as_slice()) {
        Ok(all_accepted) => ExitCode::from(exit_status(&Ok(all_accepted))),
        Err(complaint) => complain(&rt, complaint),
    }
}

// The words of the command line.
fn words(rt: &HostRuntime) -> Result<Vec<String>, Complaint<'static>> {
    let mut words = Vec::new(rt.alloc());
    for word in env::args(rt)? {
        words.push(word)?;
    }
    Ok(words)
}

// Does what the command line asks for, and answers whether nothing was refused.
fn perform<'a>(rt: &HostRuntime, words: &'a [String]) -> Result<bool, Complaint<'a>> {
    match read_task(rt, words)? {
        Task::Explained => {}
        Task::Run(Input::Standard) => return Ok(print_transcript(rt, rt.reader())?),
        Task::Run(Input::File(name)) => return Ok(print_transcript(rt, open(rt, name)?)?),
        Task::Queen => print_queen(rt)?,
        Task::Check(input, rule) => return print_check(rt, input, rule),
        Task::Export(input, rule, format) => print_export(rt, input, rule, format)?,
        Task::Import(input, source) => print_import(rt, input, source)?,
        Task::Info(input, rule) => print_info(rt, input, rule)?,
        Task::Make(making) => print_made(rt, making)?,
    }
    Ok(true)
}

// One line on standard error, and the status of a fault or a refusal.
fn complain(rt: &HostRuntime, complaint: Complaint<'_>) -> ExitCode {
    let _ = eprintln!(rt; "sgb: {complaint}");
    ExitCode::from(exit_status(&complaint.end()))
}
