//! The export of a saved text.
ghost use Rattle.std.specs.Prelude.{◌≡◌, ◌≢◌, Err, IfOk, IfErr};
ghost use Rattle.sgb_print.specs.Meter.{fresh_writer};
ghost use Rattle.sgb_programs.specs.Exported.{exported, ExportsText};

use crate::finished::Finished;
use sgb_export::{ExportFault, Format, export};
use sgb_graph::Refusal;
use sgb_print::{MeteredWriter, RunFault};
use sgb_text::{CheckRule, restore};
use std::alloc::Global;
use std::io::Write;

/// Writes the graph of a saved text in the format of another tool, as [`export_text_metered`] does, on a writer that it
/// wraps itself.
pub fn export_text<W: Write>(
    alloc: Global,
    text: &[u8],
    rule: CheckRule,
    format: Format,
    writer: W,
) -> Finished<Result<(), Refusal>, W>
    ensures exports { ExportsText (exported rule format text.now)
        (fresh_writer W.contents writer) result.writer result.end }
{
    let mut writer = MeteredWriter::new(writer);
    let end = export_text_metered(alloc, text, rule, format, &mut writer);
    Finished { end, writer }
}

/// Writes the graph of a saved text in the format of another tool. Returns a refusal, and writes nothing, if the text is
/// refused under this rule or its graph has no text in this format.
///
/// Fails with `NoRoom` if the graph or the index of its labels cannot be allocated, and then writes nothing; with `Write`
/// if a write fails.
pub fn export_text_metered<W: Write>(
    alloc: Global,
    text: &[u8],
    rule: CheckRule,
    format: Format,
    writer: &mut MeteredWriter<W>,
) -> Result<Result<(), Refusal>, RunFault>
    ensures exports { ExportsText (exported rule format text.now)
        writer.old writer.new result }
{
    match restore(alloc, text, rule) {
        Ok(graph) => match export(alloc, &graph, format, writer) {
            Ok(()) => Ok(Ok(())),
            Err(ExportFault::Refused(refusal)) => refused(refusal),
            Err(ExportFault::Write) => Err(RunFault::Write),
        },
        Err(refusal) => refused(refusal),
    }
}

// Makes a fault of a failed allocation, and an answer of each other refusal.
fn refused(refusal: Refusal) -> Result<Result<(), Refusal>, RunFault>
    ensures answer { IfOk result (λ answer. (answer ≡ Err refusal) × (refusal ≢ Refusal.NoRoom)) }
    ensures fault { IfErr result (λ fault. fault ≡ RunFault.NoRoom) }
{
    match refusal {
        Refusal::NoRoom => Err(RunFault::NoRoom),
        _ => Ok(Err(refusal)),
    }
}
