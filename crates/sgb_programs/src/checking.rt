//! The check of a saved text.
ghost use Rattle.sgb_print.specs.Meter.{fresh_writer};
ghost use Rattle.sgb_print.specs.Print.{Prints};
ghost use Rattle.sgb_programs.specs.Checked.{checked_text, refused_text, Checks};

use crate::finished::Finished;
use itoa::Buffer;
use sgb_graph::{Graph, Refusal};
use sgb_print::{Failed, MeteredWriter, RunFault, put_all};
use sgb_text::{CheckRule, restore};
use std::alloc::Global;
use std::io::Write;

/// Checks whether a text is a saved graph, as [`check_metered`] does, on a writer that it wraps itself.
pub fn check<W: Write>(alloc: Global, text: &[u8], rule: CheckRule, writer: W) -> Finished<bool, W>
    ensures checks { Checks rule text.now (fresh_writer W.contents writer) result.writer result.end }
{
    let mut writer = MeteredWriter::new(writer);
    let end = check_metered(alloc, text, rule, &mut writer);
    Finished { end, writer }
}

/// Checks whether a text is a saved graph. Writes the graph's id and counts and returns true, or writes the number and
/// text of the refusal and returns false.
///
/// Fails with `NoRoom` if the graph cannot be allocated, and then writes nothing; with `Write` if a write fails.
pub fn check_metered<W: Write>(
    alloc: Global,
    text: &[u8],
    rule: CheckRule,
    writer: &mut MeteredWriter<W>,
) -> Result<bool, RunFault>
    ensures checks { Checks rule text.now writer.old writer.new result }
{
    match restore(alloc, text, rule) {
        Ok(graph) => match print_checked(writer, &graph) {
            Ok(()) => Ok(true),
            Err(_) => Err(RunFault::Write),
        },
        Err(refusal) => match refusal {
            Refusal::NoRoom => Err(RunFault::NoRoom),
            _ => match print_refused(writer, refusal) {
                Ok(()) => Ok(false),
                Err(_) => Err(RunFault::Write),
            },
        },
    }
}

// Prints the id and the counts.
fn print_checked<W: Write>(writer: &mut MeteredWriter<W>, graph: &Graph) -> Result<(), Failed>
    ensures { Prints writer.old writer.new result (checked_text graph.now) }
{
    let mut vertex_digits = Buffer::new();
    let mut arc_digits = Buffer::new();
    let mut number_digits = Buffer::new();
    put_all(
        writer,
        &[
            b"\"",
            graph.id(),
            b"\"\n",
            vertex_digits.format(graph.n()).as_bytes(),
            b" vertices, ",
            arc_digits.format(graph.m()).as_bytes(),
            b" arcs, ",
            number_digits.format(graph.made()).as_bytes(),
            b" numbers\n",
        ],
    )
}

// Prints the refusal's number and text.
fn print_refused<W: Write>(writer: &mut MeteredWriter<W>, refusal: Refusal) -> Result<(), Failed>
    ensures { Prints writer.old writer.new result (refused_text refusal) }
{
    let mut digits = Buffer::new();
    put_all(
        writer,
        &[
            b"refused ",
            digits.format(refusal.number()).as_bytes(),
            b" ",
            refusal.text().as_bytes(),
            b"\n",
        ],
    )
}
