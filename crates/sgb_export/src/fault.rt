//! Why an export fails.

use sgb_graph::Refusal;
use thiserror::Error;

/// Why an export failed.
#[derive(Clone, Copy, Debug, PartialEq, Eq, Error)]
pub enum ExportFault {
    /// The graph has no text in this format, or what it needs could not be allocated. Nothing was written.
    #[error("{0}")]
    Refused(Refusal),
    /// A write failed. A front of the text was written.
    #[error("write failed")]
    Write,
}
