//! Does what a line says to the session's journal.
ghost use Rattle.std.specs.Prelude.{◌≡◌, Some};
ghost use Rattle.sgb_script.specs.Line.{line_of};
ghost use Rattle.sgb_shell.specs.Private.Performing.{IsBegun, Does, Answers, Saves, by_command, by_line, answer_from, refusal_from};
ghost use Rattle.sgb_script.specs.declared.command.Line.TheVariants.{Undo, Redo};

use crate::answer::Answer;
use sgb_graph::Graph;
use sgb_script::{Command, Line, Query, ShellRefusal, parse};
use sgb_session::{Reply, Session};
use sgb_text::save;
use sgb_undo::{Journal, JournalRefusal};
use std::alloc::Global;

/// Reads a line without a text, and does what it says.
pub(crate) fn perform(alloc: Global, journal: &mut Journal<Session>, line: &[u8]) -> Answer
    ensures { IsBegun journal.old → Does (by_line (line_of line.now)) journal.old journal.new result }
{
    match parse(alloc, line) {
        Ok(Line::Nothing) => Answer::Silent,
        Ok(Line::Change(command)) => change(journal, Command::One(command)),
        Ok(Line::Undo) => undo(journal),
        Ok(Line::Redo) => redo(journal),
        Ok(Line::Query(query)) => ask(alloc, journal.machine(), query),
        Ok(Line::Load { .. }) => Answer::Refused(ShellRefusal::ScriptSyntax),
        Ok(Line::Group) => Answer::Refused(ShellRefusal::ScriptSyntax),
        Ok(Line::End) => Answer::Refused(ShellRefusal::ScriptSyntax),
        Err(refusal) => Answer::Refused(refusal),
    }
}

/// Performs a command, or a group.
pub(crate) fn change(journal: &mut Journal<Session>, command: Command) -> Answer
    ensures { IsBegun journal.old → Does (by_command command) journal.old journal.new result }
{
    let outcome = journal.apply(command);
    answer_to(outcome)
}

fn undo(journal: &mut Journal<Session>) -> Answer
    ensures { IsBegun journal.old → Does (by_line (Some Undo)) journal.old journal.new result }
{
    match journal.undo() {
        Ok(()) => Answer::Undone,
        Err(_) => Answer::Refused(ShellRefusal::NothingToUndo),
    }
}

fn redo(journal: &mut Journal<Session>) -> Answer
    ensures { IsBegun journal.old → Does (by_line (Some Redo)) journal.old journal.new result }
{
    let outcome = journal.redo();
    answer_to(outcome)
}

fn answer_to(outcome: Result<Reply, JournalRefusal<ShellRefusal>>) -> Answer
    ensures { result ≡ answer_from outcome }
{
    match outcome {
        Ok(reply) => Answer::Replied(reply),
        Err(refusal) => Answer::Refused(refusal_of(refusal)),
    }
}

fn refusal_of(refusal: JournalRefusal<ShellRefusal>) -> ShellRefusal
    ensures { result ≡ refusal_from refusal }
{
    match refusal {
        JournalRefusal::NoRoom => ShellRefusal::NoRoom,
        JournalRefusal::Full => ShellRefusal::JournalFull,
        JournalRefusal::NothingToRedo => ShellRefusal::NothingToRedo,
        JournalRefusal::Machine(refusal) => refusal,
    }
}

fn ask(alloc: Global, session: &Session, query: Query) -> Answer
    ensures { Answers session.now query result }
{
    match query {
        Query::Gen => Answer::Generator,
        Query::List => Answer::Graphs,
        Query::Show(name) => match session.find(&name) {
            Some(place) => Answer::Graph(place),
            None => Answer::Refused(ShellRefusal::NoGraph),
        },
        Query::Save(name) => match session.find(&name) {
            Some(place) => saved(alloc, session.graph_at(place)),
            None => Answer::Refused(ShellRefusal::NoGraph),
        },
    }
}

fn saved(alloc: Global, graph: &Graph) -> Answer
    ensures { Saves graph.now result }
{
    match save(alloc, graph) {
        Ok(saved) => Answer::Saved(saved),
        Err(_) => Answer::Refused(ShellRefusal::NoRoom),
    }
}
