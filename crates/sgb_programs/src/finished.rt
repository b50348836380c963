//! The result of a program.

use sgb_print::{MeteredWriter, RunFault};
use std::io::Write;

/// The result of a program, with its writer.
#[derive(Debug, Drop)]
pub struct Finished<T, W: Write> {
    /// The program's answer, or why it ended early.
    pub end: Result<T, RunFault>,
    /// The writer, and whether a write failed.
    pub writer: MeteredWriter<W>,
}
