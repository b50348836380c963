//! The facts of a graph as they are printed.
ghost use Rattle.std.specs.Prelude.{◌≡◌, ◌++◌, codes};
ghost use Rattle.sgb_print.specs.Print.{Prints};
ghost use Rattle.sgb_print.specs.Show.{quoted};
ghost use Rattle.sgb_info.specs.Info.{answer_text, answers_text, counts_text, extremes_text, facts_text, length_text, line, number_text};

use crate::Facts;
use itoa::Buffer;
use sgb_print::{Failed, MeteredWriter, put_all};
use std::io::Write;

/// Writes a line for each fact of a graph with this id, or a front of the lines if a write fails: the name of the fact,
/// spaces up to column 16, and the value, or `-` where there is none. Does not allocate.
pub fn print_facts<W: Write>(
    writer: &mut MeteredWriter<W>,
    id: &[u8],
    facts: &Facts,
) -> Result<(), Failed>
    ensures { Prints writer.old writer.new result (facts_text id.now facts.now) }
{
    put_counts(writer, id, facts)?;
    put_extremes(writer, facts)?;
    put_answers(writer, facts)
}

fn put_counts<W: Write>(
    writer: &mut MeteredWriter<W>,
    id: &[u8],
    facts: &Facts,
) -> Result<(), Failed>
    ensures { Prints writer.old writer.new result (counts_text id.now facts.now) }
{
    put_id(writer, b"id              ", id)?;
    put_count(writer, b"vertices        ", Some(facts.vertices))?;
    put_count(writer, b"arcs            ", Some(facts.arcs))?;
    put_number(writer, b"edges           ", facts.edges)?;
    put_number(writer, b"loops           ", Some(facts.loops))?;
    put_number(writer, b"repeated        ", Some(facts.repeated))
}

fn put_extremes<W: Write>(writer: &mut MeteredWriter<W>, facts: &Facts) -> Result<(), Failed>
    ensures { Prints writer.old writer.new result (extremes_text facts.now) }
{
    put_count(writer, b"out-least       ", facts.out_least)?;
    put_count(writer, b"out-greatest    ", facts.out_greatest)?;
    put_count(writer, b"in-least        ", facts.in_least)?;
    put_count(writer, b"in-greatest     ", facts.in_greatest)?;
    put_length(writer, b"length-least    ", facts.length_least)?;
    put_length(writer, b"length-greatest ", facts.length_greatest)
}

fn put_answers<W: Write>(writer: &mut MeteredWriter<W>, facts: &Facts) -> Result<(), Failed>
    ensures { Prints writer.old writer.new result (answers_text facts.now) }
{
    put_count(writer, b"components      ", Some(facts.components))?;
    put_answer(writer, b"bipartite       ", facts.bipartite)?;
    put_answer(writer, b"honest          ", facts.honest)?;
    put_number(writer, b"check           ", Some(facts.check))
}

fn put_id<W: Write>(writer: &mut MeteredWriter<W>, name: &[u8], id: &[u8]) -> Result<(), Failed>
    ensures { Prints writer.old writer.new result (line name.now (quoted id.now)) }
{
    put_all(writer, &[name, b"\"", id, b"\"\n"])
}

fn put_number<W: Write>(
    writer: &mut MeteredWriter<W>,
    name: &[u8],
    number: Option<u64>,
) -> Result<(), Failed>
    ensures { Prints writer.old writer.new result (line name.now (number_text number)) }
{
    match number {
        Some(number) => put_all(
            writer,
            &[name, Buffer::new().format(number).as_bytes(), b"\n"],
        ),
        None => put_all(writer, &[name, b"-\n"]),
    }
}

fn put_count<W: Write>(
    writer: &mut MeteredWriter<W>,
    name: &[u8],
    count: Option<u32>,
) -> Result<(), Failed>
    ensures { Prints writer.old writer.new result (line name.now (number_text count)) }
{
    put_number(writer, name, count.map(u64::from))
}

fn put_length<W: Write>(
    writer: &mut MeteredWriter<W>,
    name: &[u8],
    length: Option<i64>,
) -> Result<(), Failed>
    ensures { Prints writer.old writer.new result (line name.now (length_text length)) }
{
    match length {
        Some(length) => put_all(
            writer,
            &[name, Buffer::new().format(length).as_bytes(), b"\n"],
        ),
        None => put_all(writer, &[name, b"-\n"]),
    }
}

fn put_answer<W: Write>(
    writer: &mut MeteredWriter<W>,
    name: &[u8],
    answer: bool,
) -> Result<(), Failed>
    ensures { Prints writer.old writer.new result (line name.now (answer_text answer)) }
{
    let value: &[u8] = if answer { b"yes" } else { b"no" };
    put_all(writer, &[name, value, b"\n"])
}
