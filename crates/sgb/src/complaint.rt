//! Why the program ends with a line on standard error.

use sgb_import::ImportRefusal;
use sgb_shell::RunFault;
use std::alloc::{AllocError, AllocFailed};
use std::io;
use thiserror::Error;

/// What is told in one line on standard error.
#[derive(Debug, Drop, Error)]
pub enum Complaint<'a> {
    #[error("bad command line")]
    CommandLine,
    #[error("cannot open {0}")]
    CannotOpen(&'a str),
    #[error("{0}")]
    Fault(RunFault),
    /// No fault, but a refusal: its number and its text.
    #[error("refused {0} {1}")]
    Refused(u8, &'static str),
    /// The same of a text of another tool, with its line.
    #[error("refused {0} {1}")]
    NotImported(u8, ImportRefusal),
}

impl<'a> Complaint<'a> {
    /// How the program ended: a refusal is no fault.
    pub fn end(&self) -> Result<bool, RunFault> {
        match self {
            Complaint::Refused(_, _) | Complaint::NotImported(_, _) => Ok(false),
            Complaint::Fault(fault) => Err(*fault),
            _ => Err(RunFault::Read),
        }
    }
}

impl<'a> From<RunFault> for Complaint<'a> {
    fn from(fault: RunFault) -> Self {
        Complaint::Fault(fault)
    }
}

impl<'a> From<AllocError> for Complaint<'a> {
    fn from(_: AllocError) -> Self {
        Complaint::Fault(RunFault::NoRoom)
    }
}

impl<'a, T: Drop> From<AllocFailed<T>> for Complaint<'a> {
    fn from(_: AllocFailed<T>) -> Self {
        Complaint::Fault(RunFault::NoRoom)
    }
}

impl<'a> From<io::Error> for Complaint<'a> {
    fn from(error: io::Error) -> Self {
        if error.kind() == io::ErrorKind::OutOfMemory {
            Complaint::Fault(RunFault::NoRoom)
        } else {
            Complaint::CommandLine
        }
    }
}

impl<'a> From<clap::Error> for Complaint<'a> {
    fn from(error: clap::Error) -> Self {
        if error.kind() == clap::error::ErrorKind::OutOfMemory {
            Complaint::Fault(RunFault::NoRoom)
        } else {
            Complaint::CommandLine
        }
    }
}
