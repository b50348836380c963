//! How a program fails.

use thiserror::Error;

/// Why a program ended early. What it wrote by then is a front of its whole output.
#[derive(Clone, Copy, Debug, PartialEq, Eq, Error)]
pub enum RunFault {
    /// A read failed. The complete lines before it are answered.
    #[error("read failed")]
    Read,
    /// A write failed.
    #[error("write failed")]
    Write,
    /// The input has more than 16,777,216 bytes. A script's complete lines within them are answered.
    #[error("too long")]
    TooLong,
    /// An allocation failed before the program wrote anything.
    #[error("no room")]
    NoRoom,
}
