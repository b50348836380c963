//! Reads one line of a script.
ghost use Rattle.std.specs.Prelude.{◌≡◌, ◌⊎◌, IfOk, IfErr, IsTrue, ◌==◌, slice_index, codes, Some, None};
ghost use Rattle.std.specs.List.{list_all};
ghost use Rattle.std.specs.Option.{option_and_then};
ghost use Rattle.sgb_script.specs.Commands.{line_of_command};
ghost use Rattle.sgb_script.specs.Line.{line_of, line_of_words, takes_memory, is_printable_byte};
ghost use Rattle.sgb_script.specs.Private.Reading.{Reads};
ghost use Rattle.sgb_script.specs.declared.refusal.ShellRefusal.TheVariants.{NoRoom, ScriptSyntax};

use crate::command::{Line, Query, Single};
use crate::refusal::ShellRefusal;
use crate::words::Words;
use crate::{edits, makers};
use std::alloc::Global;

/// The most bytes of a line, not counting its newline.
pub const LINE_LIMIT: usize = 8192;

/// Reads one line of a script, given without its newline. Allocates only for a text, and only once the whole line is
/// known to be well formed.
///
/// # Errors
///
/// `ScriptSyntax` if this is not a line of the language, `NoRoom` if an allocation fails.
// A line is large: inlined, it is written where the caller keeps it.
#[inline(always)]
#[tactic(auto, unfolding(crate::specs::Line::line_of))]
pub fn parse(alloc: Global, line: &[u8]) -> Result<Line, ShellRefusal>
    ensures ok { IfOk result (λ l. line_of line.now ≡ Some l) }
    ensures err { IfErr result (λ e. ((e ≡ ScriptSyntax) × (line_of line.now ≡ None))
        ⊎ ((e ≡ NoRoom) × IsTrue (takes_memory (line_of line.now)))) }
{
    if line.len() > LINE_LIMIT || !is_printable(line) {
        return Err(ShellRefusal::ScriptSyntax);
    }
    if is_comment(line) {
        return Ok(Line::Nothing);
    }
    let mut words = Words::new(line);
    line_of_words(alloc, &mut words)
}

// The line that these words make.
#[inline(always)]
fn line_of_words(alloc: Global, words: &mut Words<'_>) -> Result<Line, ShellRefusal>
    ensures { Reads (option_and_then line_of_words words.old) result }
{
    if words.is_empty() {
        return Ok(Line::Nothing);
    }
    let command = words.plain()?;
    line_of_command(alloc, command, words)
}

// The line of this command, with the words behind it.
#[inline(always)]
fn line_of_command(
    alloc: Global,
    command: &[u8],
    words: &mut Words<'_>,
) -> Result<Line, ShellRefusal>
    ensures { Reads (option_and_then (line_of_command command.now) words.old) result }
{
    match command {
        _ if command == b"seed".as_slice() => seed(words),
        _ if command == b"next".as_slice() => words.finish(Line::Change(Single::Next)),
        _ if command == b"unif".as_slice() => unif(words),
        _ if command == b"gen".as_slice() => words.finish(Line::Query(Query::Gen)),
        _ if command == b"undo".as_slice() => words.finish(Line::Undo),
        _ if command == b"redo".as_slice() => words.finish(Line::Redo),
        _ if command == b"group".as_slice() => words.finish(Line::Group),
        _ if command == b"end".as_slice() => words.finish(Line::End),
        _ if command == b"graph".as_slice() => makers::empty(words),
        _ if command == b"arc".as_slice() => edits::arc(words),
        _ if command == b"edge".as_slice() => edits::edge(words),
        _ if command == b"cut".as_slice() => edits::cut(words),
        _ if command == b"len".as_slice() => edits::len(words),
        _ if command == b"set".as_slice() => edits::set(alloc, words),
        _ if command == b"types".as_slice() => edits::types(words),
        _ if command == b"label".as_slice() => edits::label(alloc, words),
        _ if command == b"id".as_slice() => edits::id(alloc, words),
        _ if command == b"drop".as_slice() => edits::drop_graph(words),
        _ if command == b"list".as_slice() => words.finish(Line::Query(Query::List)),
        _ if command == b"show".as_slice() => show(words),
        _ if command == b"board".as_slice() => makers::board(words),
        _ if command == b"simplex".as_slice() => makers::simplex(words),
        _ if command == b"subsets".as_slice() => makers::subsets(words),
        _ if command == b"perms".as_slice() => makers::perms(words),
        _ if command == b"binary".as_slice() => makers::binary(words),
        _ if command == b"random".as_slice() => makers::random(words),
        _ if command == b"lengths".as_slice() => edits::lengths(words),
        _ if command == b"complement".as_slice() => makers::complement(words),
        _ if command == b"gunion".as_slice() => makers::gunion(words),
        _ if command == b"intersection".as_slice() => makers::intersection(words),
        _ if command == b"product".as_slice() => makers::product(words),
        _ if command == b"induced".as_slice() => makers::induced(alloc, words),
        _ if command == b"save".as_slice() => save(words),
        _ if command == b"load".as_slice() => load(words),
        _ => Err(ShellRefusal::ScriptSyntax),
    }
}

fn seed(words: &mut Words<'_>) -> Result<Line, ShellRefusal>
    ensures { Reads (option_and_then (line_of_command (codes "seed")) words.old) result }
{
    let seed = words.number()?;
    words.finish(Line::Change(Single::Seed(seed)))
}

fn unif(words: &mut Words<'_>) -> Result<Line, ShellRefusal>
    ensures { Reads (option_and_then (line_of_command (codes "unif")) words.old) result }
{
    let bound = words.number()?;
    words.finish(Line::Change(Single::Unif(bound)))
}

fn show(words: &mut Words<'_>) -> Result<Line, ShellRefusal>
    ensures { Reads (option_and_then (line_of_command (codes "show")) words.old) result }
{
    let graph = words.name()?;
    words.finish(Line::Query(Query::Show(graph)))
}

fn save(words: &mut Words<'_>) -> Result<Line, ShellRefusal>
    ensures { Reads (option_and_then (line_of_command (codes "save")) words.old) result }
{
    let graph = words.name()?;
    words.finish(Line::Query(Query::Save(graph)))
}

fn load(words: &mut Words<'_>) -> Result<Line, ShellRefusal>
    ensures { Reads (option_and_then (line_of_command (codes "load")) words.old) result }
{
    let name = words.name()?;
    let rule = words.rule()?;
    words.finish(Line::Load { name, rule })
}

fn is_comment(line: &[u8]) -> bool
    ensures { result ≡ (slice_index line.now 0 == 35) }
{
    line.first() == Some(&b'#')
}

// Tests every byte, without stopping at the first that fails, so that the compiler can test several at once.
fn is_printable(line: &[u8]) -> bool
    ensures { result ≡ list_all is_printable_byte line.now }
{
    let mut all = true;
    'bytes: for byte in line {
        all = all & is_printable_byte(*byte);
    }
    all
}

fn is_printable_byte(byte: u8) -> bool
    ensures { result ≡ is_printable_byte byte }
{
    byte >= b' ' && byte <= b'~'
}
