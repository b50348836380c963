//! Writes whole texts to a metered writer.
ghost use Rattle.std.specs.List.{flat_map};
ghost use Rattle.sgb_print.specs.Print.{Prints};

use crate::meter::{Failed, MeteredWriter};
use std::io::Write;

/// Writes all the pieces, one after another, or a front of them where a write fails.
pub fn put_all<W: Write>(writer: &mut MeteredWriter<W>, pieces: &[&[u8]]) -> Result<(), Failed>
    ensures { Prints writer.old writer.new result (flat_map (λ piece. piece.now) pieces.now) }
{
    for piece in pieces {
        put(writer, piece)?;
    }
    Ok(())
}

/// Writes all the bytes, or a front of them where a write fails.
pub fn put<W: Write>(writer: &mut MeteredWriter<W>, bytes: &[u8]) -> Result<(), Failed>
    ensures { Prints writer.old writer.new result bytes.now }
{
    let mut rest = bytes;
    while !rest.is_empty() {
        let count = writer.write(rest)?;
        (_, rest) = rest.split_at(count);
    }
    Ok(())
}
