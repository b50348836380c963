//! Runs a script from a reader to a writer.
ghost use Rattle.std.specs.Prelude.{◌≡◌, ◌<◌, ◌^◌, false, length, []};
ghost use Rattle.sgb_shell.specs.Private.Reaching.{Progress};
ghost use Rattle.sgb_shell.specs.Private.Taking.{TakesScript, ReadsOn};
ghost use Rattle.sgb_shell.specs.Run.{Runs};

use crate::fault::RunEnd;
use crate::reader::LineReader;
use sgb_print::{MeteredReader, MeteredWriter, RunFault};
use std::alloc::Global;
use std::io::{Read, Write};

/// The most bytes of a script.
pub const SCRIPT_LIMIT: usize = 16_777_216;

const CHUNK: usize = 65_536;

/// How a run ended, with the reader and the writer that it was given.
#[derive(Debug, Drop)]
pub struct Ended<R: Read, W: Write> {
    /// What came of it.
    pub end: Result<RunEnd, RunFault>,
    /// The reader, and how it was used.
    pub reader: MeteredReader<R>,
    /// The writer, and how it was used.
    pub writer: MeteredWriter<W>,
}

/// Runs the script that the reader gives, and writes its transcript: [`run_metered`] with meters of its own.
pub fn run<R: Read, W: Write>(alloc: Global, reader: R, writer: W) -> Ended<R, W>
    ensures runs { Runs (R.remaining reader) result.reader (W.contents writer) result.writer result.end }
{
    let mut reader = MeteredReader::new(reader);
    let mut writer = MeteredWriter::new(writer);
    let end = run_metered(alloc, &mut reader, &mut writer);
    Ended {
        end,
        reader,
        writer,
    }
}

/// Runs the script that the reader gives, and writes its transcript.
///
/// At most 16,777,216 bytes are taken, and one further read tells whether more follow. Units are
/// answered as they end, and before each read all that was written is flushed, so that who gives the script
/// can wait for an answer before the next line. After a failed write or flush nothing more is read. Room for one
/// line is taken at the start; where it is refused nothing is read or written.
pub fn run_metered<R: Read, W: Write>(
    alloc: Global,
    reader: &mut MeteredReader<R>,
    writer: &mut MeteredWriter<W>,
) -> Result<RunEnd, RunFault>
    requires unread { reader.old.reads ≡ 0 }
    requires reader { reader.old.failed ≡ false }
    requires writer { writer.old.failed ≡ false }
    ensures runs { Runs reader.old.left reader.new writer.old.held writer.new result }
{
    let Ok(mut lines) = LineReader::new(alloc) else {
        return Err(RunFault::NoRoom);
    };
    take_script(&mut lines, reader, writer)?;
    match lines.end(writer) {
        Ok(()) => Ok(lines.shell().end_of_run()),
        Err(_) => Err(RunFault::Write),
    }
}

// Takes all the bytes of the script, and answers each unit that its whole lines end.
fn take_script<R: Read, W: Write>(
    lines: &mut LineReader,
    reader: &mut MeteredReader<R>,
    writer: &mut MeteredWriter<W>,
) -> Result<(), RunFault>
    requires unread { reader.old.reads ≡ 0 }
    requires reader { reader.old.failed ≡ false }
    requires writer { writer.old.failed ≡ false }
    requires begun { Progress writer.old.held writer.old.held [] lines.old }
    ensures { TakesScript reader.old.left reader.new writer.old.held writer.new lines.new result }
{
    let mut chunk = [0u8; CHUNK];
    let mut room = SCRIPT_LIMIT;
    while room > 0 {
        let count = read_on(reader, writer, &mut chunk, room)?;
        if count == 0 {
            return Ok(());
        }
        room -= count;
        let (bytes, _) = chunk.split_at(count);
        if lines.take(writer, bytes).is_err() {
            return Err(RunFault::Write);
        }
    }
    let more = read_on(reader, writer, &mut chunk, 1)?;
    if more > 0 {
        return Err(RunFault::TooLong);
    }
    Ok(())
}

// Hands on what was written, and then makes one read, of at most so many bytes.
fn read_on<R: Read, W: Write>(
    reader: &mut MeteredReader<R>,
    writer: &mut MeteredWriter<W>,
    chunk: &mut [u8],
    most: usize,
) -> Result<usize, RunFault>
    requires most { 0 < most }
    requires chunk { 0 < length chunk.old }
    requires reads { reader.old.reads < 2 ^ 63 }
    requires reader { reader.old.failed ≡ false }
    requires writer { writer.old.failed ≡ false }
    ensures { ReadsOn reader.old reader.new writer.old writer.new most chunk.new result }
{
    if writer.flush().is_err() {
        return Err(RunFault::Write);
    }
    match reader.read_some(chunk, most) {
        Ok(count) => Ok(count),
        Err(_) => Err(RunFault::Read),
    }
}
