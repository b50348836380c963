//! Answers a script line by line.
ghost use Rattle.std.specs.Prelude.{◌≡◌, ◌<◌, ◌≤◌, ◌+◌, ◌-◌, ◌^◌, ◌++◌, ◌∷◌, [], min, List, ℕ, Option, None, length};
ghost use Rattle.sgb_print.specs.Print.{Prints};
ghost use Rattle.sgb_shell.specs.Answer.{answer_text};
ghost use Rattle.sgb_shell.specs.Private.Line.{IsLine};
ghost use Rattle.sgb_shell.specs.Private.Reaching.{Reached, Finishes, Concludes};
ghost use Rattle.sgb_shell.specs.Transcript.{refusals};

use crate::answer::{Answer, print_answer};
use crate::fault::RunEnd;
use crate::line::ScriptLine;
use crate::pending::Pending;
use crate::unit::take_line;
use sgb_print::{Failed, MeteredWriter};
use sgb_session::Session;
use sgb_undo::Journal;
use std::alloc::Global;
use std::io::Write;
use std::marker::Model;

/// A session at work on the lines of a script.
#[derive(Drop)]
pub(crate) struct Shell {
    alloc: Global,
    journal: Journal<Session>,
    // The unit whose end has not come.
    pending: Option<Pending>,
    // How many lines came.
    lines: u64,
    // How many units were refused.
    refused: u64,
}

impl Model for Shell {
    ghost use Rattle.sgb_shell.specs.Private.Reaching.{ShellView};

    ghost Value = { ShellView };

    ghost view = { λ s. record { journal = s.journal; pending = s.pending; lines = s.lines; refused = s.refused } };
}

impl Shell {
    /// An empty session that has met no lines. Does not allocate.
    pub(crate) fn new(alloc: Global) -> Shell
        ensures { (held : Option (List ℕ)) → Reached held held [] result }
    {
        Shell {
            alloc,
            journal: Journal::new(alloc, Session::new(alloc)),
            pending: None,
            lines: 0,
            refused: 0,
        }
    }

    /// How many lines came, and how many units were refused.
    pub(crate) fn end_of_run(&self) -> RunEnd
        ensures { result ≡ record { lines = self.now.lines; refused = self.now.refused } }
    {
        RunEnd {
            lines: self.lines,
            refused: self.refused,
        }
    }

    /// Takes the next line, and answers the unit that it ends, if it ends one.
    pub(crate) fn take_line<W: Write>(
        &mut self,
        writer: &mut MeteredWriter<W>,
        line: &ScriptLine<'_>,
    ) -> Result<(), Failed>
        ensures { (held : Option (List ℕ)) (ls : List (List ℕ)) (l : List ℕ) → length ls < 2 ^ 32 → IsLine l line.now
            → Reached held writer.old.held ls self.old → Finishes held writer.old writer.new ls (ls ++ l ∷ []) self.new result }
    {
        self.lines = self.lines.saturating_add(1);
        let told = take_line(
            self.alloc,
            &mut self.journal,
            &mut self.pending,
            self.lines,
            line,
        );
        let Some((number, answer)) = told else {
            return Ok(());
        };
        tell(
            writer,
            &mut self.refused,
            number,
            self.journal.machine(),
            &answer,
        )
    }

    /// Ends the script: answers the unit whose end has not come, if there is one.
    pub(crate) fn end<W: Write>(&mut self, writer: &mut MeteredWriter<W>) -> Result<(), Failed>
        ensures { (held : Option (List ℕ)) (ls : List (List ℕ)) → length ls ≤ 2 ^ 32
            → Reached held writer.old.held ls self.old → Concludes held writer.old writer.new ls ls self.new result }
    {
        let Some(unit) = self.pending.take() else {
            return Ok(());
        };
        let answer = Answer::Refused(unit.refusal());
        tell(
            writer,
            &mut self.refused,
            unit.number,
            self.journal.machine(),
            &answer,
        )
    }
}

// Counts the answer to the unit of a number where it is a refusal, and prints it.
fn tell<W: Write>(
    writer: &mut MeteredWriter<W>,
    refused: &mut u64,
    number: u64,
    session: &Session,
    answer: &Answer,
) -> Result<(), Failed>
    ensures refused { refused.new ≡ min (refused.old + refusals answer.now) (2 ^ 64 - 1) }
    ensures prints { Prints writer.old writer.new result (answer_text number session.now answer.now) }
{
    *refused = refused.saturating_add(refusal_count(answer));
    print_answer(writer, number, session, answer)
}

fn refusal_count(answer: &Answer) -> u64
    ensures { result ≡ refusals answer.now }
{
    match answer {
        Answer::Refused(_) => 1,
        _ => 0,
    }
}
