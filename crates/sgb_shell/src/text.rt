//! A text that is not finished.
ghost use Rattle.std.specs.Prelude.{◌≡◌, List, ℕ, Some, true};
ghost use Rattle.sgb_script.specs.Line.{line_of};
ghost use Rattle.sgb_shell.specs.Group.{text_member};
ghost use Rattle.sgb_shell.specs.Unit.{ScriptUnit, opened, with_line, as_closed, takes_text};
ghost use Rattle.sgb_shell.specs.Private.Line.{IsLine};
ghost use Rattle.sgb_shell.specs.Private.Gathering.{IsText, IsMember, IsRefused, Begins, ClosesText, Puts};

use crate::line::ScriptLine;
use sgb_graph::Items;
use sgb_script::{Line, Maker, Name, ShellRefusal, Single, parse};
use sgb_text::CheckRule;
use std::alloc::Global;

/// What a line that takes a text comes to, and the lines of the text so far.
#[derive(Drop)]
pub(crate) enum OpenText {
    /// A graph of this name is made by this rule from the text, of which these are the bytes so far.
    Text(Name, CheckRule, Vec<u8>),
    /// It is refused, however it goes on.
    Refused(ShellRefusal),
}

impl OpenText {
    /// The text that a line begins.
    pub(crate) fn new(alloc: Global, line: &ScriptLine<'_>) -> OpenText
        ensures { (number : ℕ) (l : List ℕ) → IsLine l line.now → takes_text l ≡ true → IsText (opened number l) result }
    {
        begun_by(alloc, line)
    }

    /// The text has one line more.
    pub(crate) fn take_line(&mut self, line: &ScriptLine<'_>)
        ensures { (u : ScriptUnit) (l : List ℕ) → IsLine l line.now → IsText u self.old → IsText (with_line u l) self.new }
    {
        let OpenText::Text(_, _, text) = self else {
            return;
        };
        if let Err(refusal) = put_line(text, line) {
            *self = OpenText::Refused(refusal);
        }
    }

    /// The command that it is, where the text has its end.
    pub(crate) fn command(self) -> Result<Single, ShellRefusal>
        ensures { (u : ScriptUnit) → IsText u self → ClosesText u result }
    {
        match self {
            OpenText::Text(name, rule, text) => {
                Ok(Single::Make(name, Maker::Load(Items::from_vec(text), rule)))
            }
            OpenText::Refused(refusal) => Err(refusal),
        }
    }

    /// The member of a group that it is, where the text has its end.
    pub(crate) fn member(self) -> Result<Option<Single>, ShellRefusal>
        ensures { (u : ScriptUnit) → IsText u self → IsMember (text_member (line_of u.first) (as_closed u)) result }
    {
        Ok(Some(self.command()?))
    }

    /// Why it is refused where the text has no end.
    pub(crate) fn refusal(&self) -> ShellRefusal
        ensures { (u : ScriptUnit) → IsText u self.now → IsRefused u result }
    {
        match self {
            OpenText::Text(_, _, _) => ShellRefusal::ScriptSyntax,
            OpenText::Refused(refusal) => *refusal,
        }
    }
}

// What comes of a line that takes a text.
fn begun_by(alloc: Global, line: &ScriptLine<'_>) -> OpenText
    ensures { (l : List ℕ) → IsLine l line.now → Begins (line_of l) result }
{
    let Some(bytes) = line.whole() else {
        return OpenText::Refused(ShellRefusal::ScriptSyntax);
    };
    match parse(alloc, bytes) {
        Ok(asked) => text_of(alloc, &asked),
        Err(_) => OpenText::Refused(ShellRefusal::ScriptSyntax),
    }
}

// The text that is asked for, of which there is nothing yet.
fn text_of(alloc: Global, asked: &Line) -> OpenText
    ensures { Begins (Some asked.now) result }
{
    match asked {
        Line::Load { name, rule } => OpenText::Text(*name, *rule, Vec::new(alloc)),
        _ => OpenText::Refused(ShellRefusal::ScriptSyntax),
    }
}

// A text has one line more, and its newline.
fn put_line(text: &mut Vec<u8>, line: &ScriptLine<'_>) -> Result<(), ShellRefusal>
    ensures { (l : List ℕ) → IsLine l line.now → Puts text.old.items text.new.items l result }
{
    let Some(bytes) = line.whole() else {
        return Err(ShellRefusal::ScriptSyntax);
    };
    if text.extend_from_slice(bytes).is_err() || text.push(b'\n').is_err() {
        return Err(ShellRefusal::NoRoom);
    }
    Ok(())
}
