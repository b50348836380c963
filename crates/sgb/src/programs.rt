//! The queen's moves, the check, the export and the facts of a saved graph, and graphs that are imported or made, to standard
//! output.

use crate::complaint::Complaint;
use crate::inputs::{read_input, read_operands};
use crate::task::{Input, Making};
use sgb_export::Format;
use sgb_import::Source;
use sgb_programs::{
    CHECK_LIMIT, Finished, INPUT_LIMIT, check, export_text, import_text, info_text, make, queen,
};
use sgb_shell::RunFault;
use sgb_text::CheckRule;
use std::io::{BufWriter, Stdout, Write};

/// Writes the queen's moves.
pub fn print_queen(rt: &HostRuntime) -> Result<(), RunFault> {
    outcome(queen(rt.alloc(), writer(rt)?))
}

/// Tells what saved graph an input is or why it is refused, and answers whether it is accepted.
pub fn print_check<'a>(
    rt: &HostRuntime,
    input: Input<'a>,
    rule: CheckRule,
) -> Result<bool, Complaint<'a>> {
    let text = read_input(rt, input, CHECK_LIMIT)?;
    Ok(outcome(check(rt.alloc(), text.as_slice(), rule, writer(rt)?))?)
}

/// Writes the saved graph that an input is in this form.
pub fn print_export<'a>(
    rt: &HostRuntime,
    input: Input<'a>,
    rule: CheckRule,
    format: Format,
) -> Result<(), Complaint<'a>> {
    let text = read_input(rt, input, INPUT_LIMIT)?;
    match outcome(export_text(rt.alloc(), text.as_slice(), rule, format, writer(rt)?))? {
        Ok(()) => Ok(()),
        Err(refusal) => Err(Complaint::Refused(refusal.number(), refusal.text())),
    }
}

/// Writes the saved text of the graph that an input is in this form.
pub fn print_import<'a>(
    rt: &HostRuntime,
    input: Input<'a>,
    source: Source,
) -> Result<(), Complaint<'a>> {
    let text = read_input(rt, input, INPUT_LIMIT)?;
    match outcome(import_text(rt.alloc(), text.as_slice(), source, writer(rt)?))? {
        Ok(()) => Ok(()),
        Err(refusal) => Err(Complaint::NotImported(refusal.number(), refusal)),
    }
}

/// Writes the facts of the saved graph that an input is.
pub fn print_info<'a>(
    rt: &HostRuntime,
    input: Input<'a>,
    rule: CheckRule,
) -> Result<(), Complaint<'a>> {
    let text = read_input(rt, input, INPUT_LIMIT)?;
    match outcome(info_text(rt.alloc(), text.as_slice(), rule, writer(rt)?))? {
        Ok(()) => Ok(()),
        Err(refusal) => Err(Complaint::Refused(refusal.number(), refusal.text())),
    }
}

/// Writes the saved text of the graph that a command makes.
pub fn print_made<'a>(rt: &HostRuntime, making: Making<'a>) -> Result<(), Complaint<'a>> {
    let operands = read_operands(rt, making.inputs)?;
    let made = make(
        rt.alloc(),
        making.rule,
        operands,
        making.command.as_bytes(),
        making.words.as_slice(),
        writer(rt)?,
    );
    match outcome(made)? {
        Ok(()) => Ok(()),
        Err(refusal) => Err(Complaint::Refused(refusal.number(), refusal.text())),
    }
}

fn writer(rt: &HostRuntime) -> Result<BufWriter<Stdout>, RunFault> {
    match BufWriter::new(rt.alloc(), rt.stdout()) {
        Ok(writer) => Ok(writer),
        Err(_) => Err(RunFault::NoRoom),
    }
}

// Writes out what is held back, whatever came of the program.
fn outcome<T: Drop, W: Write + Drop>(finished: Finished<T, W>) -> Result<T, RunFault> {
    let flushed = finished.writer.into_inner().flush();
    let end = finished.end?;
    match flushed {
        Ok(()) => Ok(end),
        Err(_) => Err(RunFault::Write),
    }
}
