//! A group that is not finished.
ghost use Rattle.std.specs.Prelude.{◌≡◌, ◌≤◌, List, [], ℕ, length, Option, None, Some, Bool, true, false};
ghost use Rattle.sgb_script.specs.declared.command.Single.{Single};
ghost use Rattle.sgb_script.specs.declared.command.Line.{Line};
ghost use Rattle.sgb_script.specs.Line.{line_of};
ghost use Rattle.sgb_shell.specs.Group.{closes, joined, line_member};
ghost use Rattle.sgb_shell.specs.Unit.{ScriptUnit, opened, with_line, takes_text, takes_members};
ghost use Rattle.sgb_shell.specs.Private.Line.{IsLine};
ghost use Rattle.sgb_shell.specs.Private.Gathering.{IsGroup, IsRefused, IsMember, Collects, Adds, Closes, with_text};

use crate::line::ScriptLine;
use crate::text::OpenText;
use sgb_graph::Items;
use sgb_script::{Command, Line, MOST_MEMBERS, ShellRefusal, Single, parse};
use std::alloc::Global;

/// What the lines of a group come to, as long as it goes on.
#[derive(Drop)]
pub(crate) struct OpenGroup {
    /// The commands of its members so far, or why it is refused, however it goes on.
    pub(crate) commands: Result<Vec<Single>, ShellRefusal>,
    /// The member whose text goes on.
    pub(crate) text: Option<OpenText>,
}

impl OpenGroup {
    /// The group that a line begins.
    pub(crate) fn new(alloc: Global, line: &ScriptLine<'_>) -> OpenGroup
        ensures { (number : ℕ) (l : List ℕ) → IsLine l line.now → takes_text l ≡ false → takes_members l ≡ true
            → IsGroup (opened number l) result }
    {
        OpenGroup {
            commands: begun_by(alloc, line),
            text: None,
        }
    }

    /// Whether the line ends the group.
    pub(crate) fn closes(&self, line: &ScriptLine<'_>) -> bool
        ensures { (u : ScriptUnit) (l : List ℕ) → IsLine l line.now → IsGroup u self.now → result ≡ closes u l }
    {
        self.text.is_none() && line.is_end()
    }

    /// The group has one line more.
    pub(crate) fn take_line(&mut self, alloc: Global, line: &ScriptLine<'_>)
        ensures { (u : ScriptUnit) (l : List ℕ) → IsLine l line.now → IsGroup u self.old → IsGroup (with_line u l) self.new }
    {
        match self.text.take() {
            Some(text) => self.go_on(text, line),
            None => self.begin(alloc, line),
        }
    }

    // A line in the text of a member.
    fn go_on(&mut self, text: OpenText, line: &ScriptLine<'_>)
        ensures { (u : ScriptUnit) (l : List ℕ) → IsLine l line.now → self.old.text ≡ None
            → IsGroup u (with_text self.old text) → IsGroup (with_line u l) self.new }
    {
        if line.is_dot() {
            add(&mut self.commands, text.member());
            return;
        }
        let mut text = text;
        text.take_line(line);
        self.text = Some(text);
    }

    // A line behind whole members.
    fn begin(&mut self, alloc: Global, line: &ScriptLine<'_>)
        ensures { (u : ScriptUnit) (l : List ℕ) → IsLine l line.now → self.old.text ≡ None
            → IsGroup u self.old → IsGroup (with_line u l) self.new }
    {
        if line.takes_text() {
            self.text = Some(OpenText::new(alloc, line));
            return;
        }
        add(&mut self.commands, member_of(alloc, line));
    }

    /// The group as a command, where the line ends it.
    pub(crate) fn command(self, line: &ScriptLine<'_>) -> Result<Command, ShellRefusal>
        ensures { (u : ScriptUnit) (l : List ℕ) → IsLine l line.now → IsGroup u self → Closes u l result }
    {
        let OpenGroup { commands, .. } = self;
        let Some(_) = line.whole() else {
            return Err(ShellRefusal::ScriptSyntax);
        };
        match commands {
            Ok(list) => Ok(Command::Group(Items::from_vec(list))),
            Err(refusal) => Err(refusal),
        }
    }

    /// Why it is refused where it has no end.
    pub(crate) fn refusal(&self) -> ShellRefusal
        ensures { (u : ScriptUnit) → IsGroup u self.now → IsRefused u result }
    {
        match &self.commands {
            Ok(_) => ShellRefusal::ScriptSyntax,
            Err(refusal) => *refusal,
        }
    }
}

// What comes of a line that begins a group: no commands yet.
fn begun_by(alloc: Global, line: &ScriptLine<'_>) -> Result<Vec<Single>, ShellRefusal>
    ensures { (l : List ℕ) → IsLine l line.now → Collects (line_of l) (Some []) false result }
{
    let Some(bytes) = line.whole() else {
        return Err(ShellRefusal::ScriptSyntax);
    };
    match parse(alloc, bytes) {
        Ok(Line::Group) => Ok(Vec::new(alloc)),
        _ => Err(ShellRefusal::ScriptSyntax),
    }
}

// The command of a member that is one line, and none for a line of nothing.
fn member_of(alloc: Global, line: &ScriptLine<'_>) -> Result<Option<Single>, ShellRefusal>
    ensures { (l : List ℕ) → IsLine l line.now → IsMember (line_member (line_of l)) result }
{
    let Some(bytes) = line.whole() else {
        return Err(ShellRefusal::ScriptSyntax);
    };
    match parse(alloc, bytes)? {
        Line::Nothing => Ok(None),
        Line::Change(command) => Ok(Some(command)),
        _ => Err(ShellRefusal::ScriptSyntax),
    }
}

// A group has one member more.
fn add(
    commands: &mut Result<Vec<Single>, ShellRefusal>,
    member: Result<Option<Single>, ShellRefusal>,
)
    ensures { (first : Option Line) (old more : Option (List Single)) (has_lines : Bool) → IsMember more member
        → Collects first old has_lines commands.old → Collects first (joined old more) true commands.new }
{
    let Ok(list) = commands else {
        return;
    };
    if let Err(refusal) = put(list, member) {
        *commands = Err(refusal);
    }
}

// The commands have one more, where the member is one and there are not too many.
fn put(
    list: &mut Vec<Single>,
    member: Result<Option<Single>, ShellRefusal>,
) -> Result<(), ShellRefusal>
    ensures { (more : Option (List Single)) → length list.old.items ≤ 1024 → IsMember more member
        → Adds list.old.items list.new.items more result }
{
    let Some(command) = member? else {
        return Ok(());
    };
    if list.len() >= MOST_MEMBERS {
        return Err(ShellRefusal::ScriptSyntax);
    }
    match list.push(command) {
        Ok(()) => Ok(()),
        Err(_) => Err(ShellRefusal::NoRoom),
    }
}
