//! The import of a text of another tool.
ghost use Rattle.sgb_print.specs.Meter.{fresh_writer};
ghost use Rattle.sgb_programs.specs.Imported.{ImportsText};

use crate::finished::Finished;
use sgb_import::{ImportRefusal, Source, import};
use sgb_print::{MeteredWriter, RunFault, put};
use sgb_text::save;
use std::alloc::Global;
use std::io::Write;

/// Writes the saved text of the graph that a text of another tool spells, as [`import_text_metered`] does, on a writer that
/// it wraps itself.
pub fn import_text<W: Write>(
    alloc: Global,
    text: &[u8],
    source: Source,
    writer: W,
) -> Finished<Result<(), ImportRefusal>, W>
    ensures imports { ImportsText source text.now (fresh_writer W.contents writer) result.writer result.end }
{
    let mut writer = MeteredWriter::new(writer);
    let end = import_text_metered(alloc, text, source, &mut writer);
    Finished { end, writer }
}

/// Writes the saved text of the graph that a text of another tool spells. Returns a refusal, and writes nothing, if the
/// text spells none in this format.
///
/// Fails with `NoRoom` if the graph or its text cannot be allocated, and then writes nothing; with `Write` if a write
/// fails.
pub fn import_text_metered<W: Write>(
    alloc: Global,
    text: &[u8],
    source: Source,
    writer: &mut MeteredWriter<W>,
) -> Result<Result<(), ImportRefusal>, RunFault>
    ensures imports { ImportsText source text.now writer.old writer.new result }
{
    let graph = match import(alloc, text, source) {
        Ok(graph) => graph,
        Err(ImportRefusal::NoRoom) => return Err(RunFault::NoRoom),
        Err(refusal) => return Ok(Err(refusal)),
    };
    let Ok(saved) = save(alloc, &graph) else {
        return Err(RunFault::NoRoom);
    };
    match put(writer, saved.text.as_slice()) {
        Ok(()) => Ok(Ok(())),
        Err(_) => Err(RunFault::Write),
    }
}
