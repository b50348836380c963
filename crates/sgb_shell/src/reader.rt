//! Cuts what is read into lines.
ghost use Rattle.std.specs.Prelude.{◌≡◌, ◌<◌, ◌≤◌, ◌^◌, ◌++◌, ◌∷◌, ◌==◌, ◌&&◌, [], nat_le, List, ℕ, Option, IfOk, MatchOption, length};
ghost use Rattle.sgb_shell.specs.Lines.{lines, whole_lines};
ghost use Rattle.sgb_shell.specs.Private.Holding.{IsFirstLine, HasNoNewline, held_line};
ghost use Rattle.sgb_shell.specs.Private.Reaching.{Reached, Progress, Takes, TakesFront, TakesLine, Finishes, Concludes};

use crate::buffer::LineBuffer;
use crate::line::ScriptLine;
use crate::shell::Shell;
use memchr::memchr;
use sgb_print::{Failed, MeteredWriter};
use sgb_script::LINE_LIMIT;
use std::alloc::{AllocError, Global};
use std::io::Write;
use std::marker::Model;

/// Hands the lines of a script to a shell, as its bytes come.
///
/// A line that lies whole in the bytes is handed on where it lies. One that ends in later bytes is copied.
#[derive(Drop)]
pub(crate) struct LineReader {
    shell: Shell,
    // The line whose end has not come.
    line: LineBuffer,
}

impl Model for LineReader {
    ghost use Rattle.sgb_shell.specs.Private.Reaching.{ReaderView};

    ghost Value = { ReaderView };

    ghost view = { λ r. record { shell = r.shell; line = r.line } };
}

impl LineReader {
    /// A new shell and no bytes. Allocates for one line.
    pub(crate) fn new(alloc: Global) -> Result<LineReader, AllocError>
        ensures { IfOk result (λ r. (held : Option (List ℕ)) → Progress held held [] r) }
    {
        let line = LineBuffer::new(alloc)?;
        Ok(LineReader {
            shell: Shell::new(alloc),
            line,
        })
    }

    pub(crate) fn shell(&self) -> &Shell
        ensures { result.now ≡ self.now.shell }
    {
        &self.shell
    }

    /// Takes the next bytes, and answers each unit that they end.
    pub(crate) fn take<W: Write>(
        &mut self,
        writer: &mut MeteredWriter<W>,
        bytes: &[u8],
    ) -> Result<(), Failed>
        ensures { (held : Option (List ℕ)) (script : List ℕ) → length (script ++ bytes.now) < 2 ^ 32
            → Progress held writer.old.held script self.old
            → Takes held writer.old writer.new script (script ++ bytes.now) self.new result }
    {
        let mut done = 0;
        while done < bytes.len() {
            let (_, rest) = bytes.split_at(done);
            let count = self.take_front(writer, rest)?;
            done += count;
        }
        Ok(())
    }

    // Takes the next line with its newline, or what there is of it, and returns how many bytes that were.
    fn take_front<W: Write>(
        &mut self,
        writer: &mut MeteredWriter<W>,
        bytes: &[u8],
    ) -> Result<usize, Failed>
        requires some { 0 < length bytes.now }
        ensures count { IfOk result (λ count. (0 < count) × (count ≤ length bytes.now)) }
        ensures takes { (held : Option (List ℕ)) (script : List ℕ) → length (script ++ bytes.now) < 2 ^ 32
            → Progress held writer.old.held script self.old
            → TakesFront held writer.old writer.new script bytes.now self.new result }
    {
        let Some(line) = first_line(bytes) else {
            self.line.extend(bytes);
            return Ok(bytes.len());
        };
        self.take_end(writer, line)?;
        Ok(line.len() + 1)
    }

    // Takes what is left of a line, whose newline comes next.
    fn take_end<W: Write>(
        &mut self,
        writer: &mut MeteredWriter<W>,
        end: &[u8],
    ) -> Result<(), Failed>
        ensures { (held : Option (List ℕ)) (script : List ℕ) → length script < 2 ^ 32
            → Progress held writer.old.held script self.old
            → TakesLine held writer.old writer.new script end.now self.new result }
    {
        if self.is_whole(end) {
            return self.shell.take_line(writer, &ScriptLine::Whole(end));
        }
        self.line.extend(end);
        self.take_held(writer)
    }

    // Whether the end of a line is all of it, and not too long.
    fn is_whole(&self, end: &[u8]) -> bool
        ensures { (line : List ℕ) → self.now.line ≡ held_line line → result ≡ (length line == 0 && nat_le (length end.now) 8192) }
    {
        self.line.is_empty() && end.len() <= LINE_LIMIT
    }

    // Hands on the line that is held.
    fn take_held<W: Write>(&mut self, writer: &mut MeteredWriter<W>) -> Result<(), Failed>
        ensures { (held : Option (List ℕ)) (ls : List (List ℕ)) (line : List ℕ) → length ls < 2 ^ 32
            → Reached held writer.old.held ls self.old.shell → self.old.line ≡ held_line line
            → (self.new.line ≡ held_line []) × Finishes held writer.old writer.new ls (ls ++ line ∷ []) self.new.shell result }
    {
        let taken = self.shell.take_line(writer, &self.line.line());
        self.line.clear();
        taken
    }

    /// Ends the script: answers the line that no newline ends, and the unit whose end has not come, if there are such.
    pub(crate) fn end<W: Write>(&mut self, writer: &mut MeteredWriter<W>) -> Result<(), Failed>
        ensures { (held : Option (List ℕ)) (script : List ℕ) → length script < 2 ^ 32
            → Progress held writer.old.held script self.old
            → Concludes held writer.old writer.new (whole_lines script) (lines script) self.new.shell result }
    {
        self.end_line(writer)?;
        self.shell.end(writer)
    }

    // Answers the line that no newline ends, if there is one.
    fn end_line<W: Write>(&mut self, writer: &mut MeteredWriter<W>) -> Result<(), Failed>
        ensures { (held : Option (List ℕ)) (script : List ℕ) → length script < 2 ^ 32
            → Progress held writer.old.held script self.old
            → Finishes held writer.old writer.new (whole_lines script) (lines script) self.new.shell result }
    {
        if self.line.is_empty() {
            return Ok(());
        }
        self.take_held(writer)
    }
}

// The line that the bytes begin with, if a newline ends it.
fn first_line(bytes: &[u8]) -> Option<&[u8]>
    ensures { MatchOption result (HasNoNewline bytes.now) (λ line. IsFirstLine line.now bytes.now) }
{
    let Some(end) = memchr(b'\n', bytes) else {
        return None;
    };
    let (line, _) = bytes.split_at(end);
    Some(line)
}
