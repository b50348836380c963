//! A unit of the script that is not finished.
ghost use Rattle.std.specs.Prelude.{◌≡◌, List, ℕ, true, false};
ghost use Rattle.sgb_shell.specs.Group.{closes};
ghost use Rattle.sgb_shell.specs.Unit.{ScriptUnit, opened, with_line, takes_lines};
ghost use Rattle.sgb_shell.specs.Private.Line.{IsLine};
ghost use Rattle.sgb_shell.specs.Private.Gathering.{IsGathered, IsRefused, Closes};

use crate::group::OpenGroup;
use crate::line::ScriptLine;
use crate::text::OpenText;
use sgb_script::{Command, ShellRefusal};
use std::alloc::Global;

/// A line behind which others belong to its unit, with these lines so far.
#[derive(Drop)]
pub(crate) struct Pending {
    /// The number of its first line.
    pub(crate) number: u64,
    /// What comes of its lines.
    pub(crate) unit: OpenUnit,
}

/// What the lines of a unit come to, as long as it goes on.
#[derive(Drop)]
pub(crate) enum OpenUnit {
    /// A line that takes a text.
    Text(OpenText),
    /// A group.
    Group(OpenGroup),
}

impl Pending {
    /// The unit that a line begins.
    #[inline(never)]
    pub(crate) fn new(alloc: Global, number: u64, line: &ScriptLine<'_>) -> Pending
        ensures { (l : List ℕ) → IsLine l line.now → takes_lines l ≡ true → IsGathered (opened number l) result }
    {
        if line.takes_text() {
            let unit = OpenUnit::Text(OpenText::new(alloc, line));
            return Pending { number, unit };
        }
        let unit = OpenUnit::Group(OpenGroup::new(alloc, line));
        Pending { number, unit }
    }

    /// Whether the line ends the unit.
    pub(crate) fn closes(&self, line: &ScriptLine<'_>) -> bool
        ensures { (u : ScriptUnit) (l : List ℕ) → IsLine l line.now → IsGathered u self.now → result ≡ closes u l }
    {
        match &self.unit {
            OpenUnit::Text(_) => line.is_dot(),
            OpenUnit::Group(group) => group.closes(line),
        }
    }

    /// The unit has one line more.
    pub(crate) fn take_line(&mut self, alloc: Global, line: &ScriptLine<'_>)
        ensures { (u : ScriptUnit) (l : List ℕ) → IsLine l line.now → IsGathered u self.old → IsGathered (with_line u l) self.new }
    {
        match &mut self.unit {
            OpenUnit::Text(text) => text.take_line(line),
            OpenUnit::Group(group) => group.take_line(alloc, line),
        }
    }

    /// The command of the unit, which the line ends.
    pub(crate) fn command(self, line: &ScriptLine<'_>) -> Result<Command, ShellRefusal>
        ensures { (u : ScriptUnit) (l : List ℕ) → IsLine l line.now → closes u l ≡ true → IsGathered u self → Closes u l result }
    {
        let Pending { unit, .. } = self;
        match unit {
            OpenUnit::Text(text) => Ok(Command::One(text.command()?)),
            OpenUnit::Group(group) => group.command(line),
        }
    }

    /// Why the unit is refused where it has no end.
    pub(crate) fn refusal(&self) -> ShellRefusal
        ensures { (u : ScriptUnit) → IsGathered u self.now → IsRefused u result }
    {
        match &self.unit {
            OpenUnit::Text(text) => text.refusal(),
            OpenUnit::Group(group) => group.refusal(),
        }
    }
}
