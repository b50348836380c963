//! The facts of a saved text's graph.
ghost use Rattle.std.specs.Prelude.{◌≡◌, ◌⊎◌, Ok, Err, IfOk, IfErr};
ghost use Rattle.sgb_info.specs.Info.{AreFacts};
ghost use Rattle.sgb_print.specs.Meter.{fresh_writer};
ghost use Rattle.sgb_programs.specs.Informed.{informed, Informs};

use crate::finished::Finished;
use sgb_graph::{Graph, Refusal};
use sgb_info::{Facts, print_facts};
use sgb_print::{MeteredWriter, RunFault};
use sgb_text::{CheckRule, restore};
use std::alloc::Global;
use std::io::Write;

/// Writes the facts of the graph of a saved text, as [`info_text_metered`] does, on a writer that it wraps itself.
pub fn info_text<W: Write>(
    alloc: Global,
    text: &[u8],
    rule: CheckRule,
    writer: W,
) -> Finished<Result<(), Refusal>, W>
    ensures informs { Informs (informed rule text.now)
        (fresh_writer W.contents writer) result.writer result.end }
{
    let mut writer = MeteredWriter::new(writer);
    let end = info_text_metered(alloc, text, rule, &mut writer);
    Finished { end, writer }
}

/// Writes the facts of the graph of a saved text, one a line. Returns a refusal, and writes nothing, if the text is
/// refused under this rule or an arc of its graph leads to no vertex.
///
/// Fails with `NoRoom` if the graph, numbers for its vertices or its text cannot be allocated, and then writes nothing;
/// with `Write` if a write fails.
pub fn info_text_metered<W: Write>(
    alloc: Global,
    text: &[u8],
    rule: CheckRule,
    writer: &mut MeteredWriter<W>,
) -> Result<Result<(), Refusal>, RunFault>
    ensures informs { Informs (informed rule text.now)
        writer.old writer.new result }
{
    match read_facts(alloc, text, rule) {
        Ok((graph, facts)) => match print_facts(writer, graph.id(), &facts) {
            Ok(()) => Ok(Ok(())),
            Err(_) => Err(RunFault::Write),
        },
        Err(Refusal::NoRoom) => Err(RunFault::NoRoom),
        Err(refusal) => Ok(Err(refusal)),
    }
}

// Returns the graph of a text and its facts.
fn read_facts(alloc: Global, text: &[u8], rule: CheckRule) -> Result<(Graph, Facts), Refusal>
    ensures graph { IfOk result (λ p. informed rule text.now ≡ Ok p.0) }
    ensures facts { IfOk result (λ p. AreFacts p.0 p.1) }
    ensures err { IfErr result (λ e. (e ≡ Refusal.NoRoom) ⊎ (informed rule text.now ≡ Err e)) }
{
    let graph = restore(alloc, text, rule)?;
    let facts = Facts::of(alloc, &graph)?;
    Ok((graph, facts))
}
