//! What the lines of a script come to, one by one.
ghost use Rattle.std.specs.Prelude.{◌≡◌, List, ℕ, Option, None, true};
ghost use Rattle.sgb_script.specs.Line.{line_of};
ghost use Rattle.sgb_shell.specs.Unit.{ScriptUnit, closed_by};
ghost use Rattle.sgb_shell.specs.Group.{closes};
ghost use Rattle.sgb_shell.specs.Private.Line.{IsLine};
ghost use Rattle.sgb_shell.specs.Private.Gathering.{IsGathered};
ghost use Rattle.sgb_shell.specs.Private.Performing.{IsBegun, Does, by_line, by_unit};
ghost use Rattle.sgb_shell.specs.Private.Reaching.{Waits, Settles, unit_by};

use crate::answer::Answer;
use crate::line::ScriptLine;
use crate::pending::Pending;
use crate::perform::{change, perform};
use sgb_script::ShellRefusal;
use sgb_session::Session;
use sgb_undo::Journal;
use std::alloc::Global;

/// Takes the line of a number, behind the unit that is not finished. Where the line ends a unit, the answer to it comes
/// with the number of its first line.
pub(crate) fn take_line(
    alloc: Global,
    journal: &mut Journal<Session>,
    pending: &mut Option<Pending>,
    number: u64,
    line: &ScriptLine<'_>,
) -> Option<(u64, Answer)>
    ensures { (before : Option ScriptUnit) (l : List ℕ) → IsLine l line.now → Waits before pending.old → IsBegun journal.old
        → Settles (unit_by number before l) journal.old journal.new pending.new result }
{
    if pending.is_none() {
        return begin(alloc, journal, pending, number, line);
    }
    let Some(mut unit) = pending.take() else {
        unreachable!()
    };
    if unit.closes(line) {
        return Some((unit.number, close(journal, unit, line)));
    }
    unit.take_line(alloc, line);
    *pending = Some(unit);
    None
}

// Takes a line behind which no unit goes on yet.
fn begin(
    alloc: Global,
    journal: &mut Journal<Session>,
    pending: &mut Option<Pending>,
    number: u64,
    line: &ScriptLine<'_>,
) -> Option<(u64, Answer)>
    ensures { (l : List ℕ) → IsLine l line.now → pending.old ≡ None → IsBegun journal.old
        → Settles (unit_by number None l) journal.old journal.new pending.new result }
{
    if line.takes_lines() {
        *pending = Some(Pending::new(alloc, number, line));
        return None;
    }
    Some((number, answer_line(alloc, journal, line)))
}

fn close(journal: &mut Journal<Session>, unit: Pending, line: &ScriptLine<'_>) -> Answer
    ensures { (u : ScriptUnit) (l : List ℕ) → IsLine l line.now → closes u l ≡ true → IsGathered u unit → IsBegun journal.old
        → Does (by_unit (closed_by u l)) journal.old journal.new result }
{
    match unit.command(line) {
        Ok(command) => change(journal, command),
        Err(refusal) => Answer::Refused(refusal),
    }
}

// Answers a line that is a unit of its own.
fn answer_line(alloc: Global, journal: &mut Journal<Session>, line: &ScriptLine<'_>) -> Answer
    ensures { (l : List ℕ) → IsLine l line.now → IsBegun journal.old → Does (by_line (line_of l)) journal.old journal.new result }
{
    match line.whole() {
        Some(bytes) => perform(alloc, journal, bytes),
        None => Answer::Refused(ShellRefusal::ScriptSyntax),
    }
}
