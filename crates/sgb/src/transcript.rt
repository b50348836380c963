//! Runs a script to standard output.

use sgb_shell::{Ended, RunFault, run};
use std::io::{BufWriter, IsTerminal, LineWriter, Read, Write};

/// Runs the reader's script, and answers whether no line was refused. A person at a terminal sees
/// each line at once; what goes to a file or a pipe is written in larger pieces, the last of them
/// before each read, which may wait for one who waits for an answer.
pub fn print_transcript<R: Read + Drop>(rt: &HostRuntime, reader: R) -> Result<bool, RunFault> {
    let output = rt.stdout();
    if output.is_terminal() {
        match LineWriter::new(rt.alloc(), output) {
            Ok(writer) => outcome(run(rt.alloc(), reader, writer)),
            Err(_) => Err(RunFault::NoRoom),
        }
    } else {
        match BufWriter::new(rt.alloc(), output) {
            Ok(writer) => outcome(run(rt.alloc(), reader, writer)),
            Err(_) => Err(RunFault::NoRoom),
        }
    }
}

// Writes out what is held back, whatever came of the run.
fn outcome<R: Read + Drop, W: Write + Drop>(ended: Ended<R, W>) -> Result<bool, RunFault> {
    let flushed = ended.writer.into_inner().flush();
    let end = ended.end?;
    match flushed {
        Ok(()) => Ok(end.refused == 0),
        Err(_) => Err(RunFault::Write),
    }
}
