//! Graphs that are made by the words of a command line, of saved texts or of words alone.
ghost use Rattle.std.specs.Prelude.{◌≡◌, ◌⊎◌, ◌∷◌, ◌++◌, map, Some, Ok, Err, IfOk, IfErr, OnOk, IsOkAnd};
ghost use Rattle.std.specs.List.{flat_map};
ghost use Rattle.sgb_print.specs.Meter.{fresh_writer};
ghost use Rattle.sgb_script.specs.Line.{line_of};
ghost use Rattle.sgb_script.specs.declared.command.Line.TheVariants.{Change};
ghost use Rattle.sgb_text.specs.Clean.{clean_of};
ghost use Rattle.sgb_text.specs.Save.{text_of};
ghost use Rattle.sgb_programs.specs.Made.{made_line, loaded, made_by, made_of, Makes};

use crate::finished::Finished;
use crate::operand::{Operands, loads, put_front};
use sgb_graph::Items;
use sgb_print::{MeteredWriter, RunFault, put};
use sgb_script::{Command, Line, ShellRefusal, Single, parse};
use sgb_session::Session;
use sgb_text::{CheckRule, save};
use sgb_undo::Reversible;
use std::alloc::{AllocError, Global};
use std::io::Write;

/// Writes the saved text of a graph, as [`make_metered`] does, on a writer that it wraps itself.
pub fn make<W: Write>(
    alloc: Global,
    rule: CheckRule,
    operands: Operands,
    command: &[u8],
    words: &[&[u8]],
    writer: W,
) -> Finished<Result<(), ShellRefusal>, W>
    ensures makes { Makes (made_of rule operands command.now (map (λ word. word.now) words.now))
        (fresh_writer W.contents writer) result.writer result.end }
{
    let mut writer = MeteredWriter::new(writer);
    let end = make_metered(alloc, rule, operands, command, words, &mut writer);
    Finished { end, writer }
}

/// Writes the saved text of the graph that a command leaves last in a session that begins with its operands, loaded by
/// this rule one after another. The command is a line of a script: behind it stand the name `g`, where another graph is
/// made, the names of the operands, and the words. Returns the first refusal, and writes nothing, if an operand is refused
/// or else the line is; a line that is no command, or leaves no graph, is refused as a bad command.
///
/// Fails with `NoRoom` if the line, a graph or its text cannot be allocated, and then writes nothing; with `Write` if a
/// write fails.
#[tactic(auto, using(crate::proofs::MadeLemmas::whole_made, crate::proofs::MadeLemmas::refused_otherwise))]
pub fn make_metered<W: Write>(
    alloc: Global,
    rule: CheckRule,
    operands: Operands,
    command: &[u8],
    words: &[&[u8]],
    writer: &mut MeteredWriter<W>,
) -> Result<Result<(), ShellRefusal>, RunFault>
    ensures makes { Makes (made_of rule operands command.now (map (λ word. word.now) words.now))
        writer.old writer.new result }
{
    match text_made(alloc, rule, operands, command, words) {
        Ok(text) => match put(writer, text.as_slice()) {
            Ok(()) => Ok(Ok(())),
            Err(_) => Err(RunFault::Write),
        },
        Err(ShellRefusal::NoRoom) => Err(RunFault::NoRoom),
        Err(refusal) => Ok(Err(refusal)),
    }
}

// The saved text of the graph that is made.
#[tactic(auto, unfolding(crate::specs::Made::made_of))]
fn text_made(
    alloc: Global,
    rule: CheckRule,
    operands: Operands,
    command: &[u8],
    words: &[&[u8]],
) -> Result<Items<u8>, ShellRefusal>
    ensures ok { IfOk result (λ text. IsOkAnd (made_of rule operands command.now (map (λ word. word.now) words.now)) (λ g. text ≡ text_of (clean_of g))) }
    ensures err { IfErr result (λ r. (r ≡ ShellRefusal.NoRoom) ⊎ (made_of rule operands command.now (map (λ word. word.now) words.now) ≡ Err r)) }
{
    let Ok(line) = line_of_words(alloc, &operands, command, words) else {
        return Err(ShellRefusal::NoRoom);
    };
    let session = session_of(alloc, rule, operands)?;
    text_of_line(alloc, session, line.as_slice())
}

// The command, with what stands between it and its words, and the words in one line.
fn line_of_words(
    alloc: Global,
    operands: &Operands,
    command: &[u8],
    words: &[&[u8]],
) -> Result<Vec<u8>, AllocError>
    ensures { IfOk result (λ line. line.items ≡ made_line command.now operands.now (map (λ word. word.now) words.now)) }
{
    let mut line = Vec::new(alloc);
    line.extend_from_slice(command)?;
    put_front(&mut line, operands)?;
    put_words(&mut line, words)?;
    Ok(line)
}

// Each word behind a space.
fn put_words(line: &mut Vec<u8>, words: &[&[u8]]) -> Result<(), AllocError>
    ensures { OnOk result (line.new.items ≡ line.old.items ++ flat_map (λ word. 32 ∷ word.now) words.now) }
{
    for word in words {
        line.push(b' ')?;
        line.extend_from_slice(word)?;
    }
    Ok(())
}

// A session with the operands.
#[tactic(auto, unfolding(crate::specs::Made::loaded))]
fn session_of(alloc: Global, rule: CheckRule, operands: Operands) -> Result<Session, ShellRefusal>
    ensures ok { IfOk result (λ session. loaded rule operands ≡ Ok session) }
    ensures err { IfErr result (λ r. (r ≡ ShellRefusal.NoRoom) ⊎ (loaded rule operands ≡ Err r)) }
{
    let Ok(commands) = loads(alloc, rule, operands) else {
        return Err(ShellRefusal::NoRoom);
    };
    let mut session = Session::new(alloc);
    session.apply(&Command::Group(commands))?;
    Ok(session)
}

// The saved text of the graph that a line makes in a session.
fn text_of_line(alloc: Global, session: Session, line: &[u8]) -> Result<Items<u8>, ShellRefusal>
    ensures ok { IfOk result (λ text. IsOkAnd (made_by (Ok session) (line_of line.now)) (λ g. text ≡ text_of (clean_of g))) }
    ensures err { IfErr result (λ r. (r ≡ ShellRefusal.NoRoom) ⊎ (made_by (Ok session) (line_of line.now) ≡ Err r)) }
{
    match parse(alloc, line) {
        Ok(Line::Change(single)) => text_after(alloc, session, single),
        Err(refusal) => Err(refusal),
        Ok(_) => Err(ShellRefusal::ScriptSyntax),
    }
}

// The saved text of the graph that a command leaves last in a session.
fn text_after(
    alloc: Global,
    mut session: Session,
    single: Single,
) -> Result<Items<u8>, ShellRefusal>
    ensures ok { IfOk result (λ text. IsOkAnd (made_by (Ok session) (Some (Change single))) (λ g. text ≡ text_of (clean_of g))) }
    ensures err { IfErr result (λ r. (r ≡ ShellRefusal.NoRoom) ⊎ (made_by (Ok session) (Some (Change single)) ≡ Err r)) }
{
    session.apply(&Command::One(single))?;
    let count = session.len();
    if count == 0 {
        return Err(ShellRefusal::ScriptSyntax);
    }
    match save(alloc, session.graph_at(count - 1)) {
        Ok(saved) => Ok(saved.text),
        Err(_) => Err(ShellRefusal::NoRoom),
    }
}
