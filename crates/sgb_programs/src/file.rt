//! Whole files.
ghost use Rattle.std.specs.Prelude.{◌≡◌, false};
ghost use Rattle.sgb_programs.specs.File.{ReadsFile};

use sgb_print::{MeteredReader, RunFault};
use std::alloc::Global;
use std::io::Read;

/// The greatest size in bytes of a file that is checked.
pub const CHECK_LIMIT: u32 = 16_777_216;

/// The greatest size in bytes of a file that is read as a graph.
pub const INPUT_LIMIT: u32 = 268_435_456;

const CHUNK: usize = 4096;

/// Reads a whole file of at most `limit` bytes.
///
/// Fails with `TooLong` if the file has more bytes, of which it reads one; with `Read` if a read fails; with `NoRoom` if
/// the bytes cannot be allocated.
pub fn read_file<R: Read>(
    alloc: Global,
    reader: &mut MeteredReader<R>,
    limit: u32,
) -> Result<Vec<u8>, RunFault>
    requires unread { reader.old.reads ≡ 0 }
    requires reader { reader.old.failed ≡ false }
    ensures reads { ReadsFile limit reader.old reader.new result }
{
    let mut file = Vec::new(alloc);
    let mut chunk = [0u8; CHUNK];
    let mut room = limit as usize;
    while room > 0 {
        let Ok(count) = reader.read_some(&mut chunk, room) else {
            return Err(RunFault::Read);
        };
        if count == 0 {
            return Ok(file);
        }
        room -= count;
        let (bytes, _) = chunk.split_at(count);
        if file.extend_from_slice(bytes).is_err() {
            return Err(RunFault::NoRoom);
        }
    }
    match reader.read_some(&mut chunk, 1) {
        Ok(0) => Ok(file),
        Ok(_) => Err(RunFault::TooLong),
        Err(_) => Err(RunFault::Read),
    }
}
