//! The refusals of the session and of its script, with their numbers.

use thiserror::Error;

/// Why a line or a command was refused. A refused command changes nothing.
#[derive(Clone, Copy, Debug, PartialEq, Eq, Error)]
pub enum ShellRefusal {
    /// 1: an allocation failed.
    #[error("no room")]
    NoRoom,
    /// 11: the check number of a saved graph is not that of its lines.
    #[error("check number is wrong")]
    CheckWrong,
    /// 20: a text is not a saved graph.
    #[error("bad saved graph")]
    Syntax,
    /// 30: a number is out of its range.
    #[error("bad specification")]
    BadSpecs,
    /// 31: a range of lengths has too many values for one uniform number.
    #[error("length range too wide")]
    LengthRange,
    /// 40: a limit would be exceeded.
    #[error("too large")]
    TooLarge,
    /// 50: no graph has this name.
    #[error("no such graph")]
    NoGraph,
    /// 60: the command cannot work on this operand.
    #[error("bad operand")]
    BadOperand,
    /// 100: the line is not one of the language.
    #[error("bad command")]
    ScriptSyntax,
    /// 101: the table of graphs is full.
    #[error("table is full")]
    TableFull,
    /// 102: a graph has this name already.
    #[error("name is taken")]
    NameTaken,
    /// 103: there is no command to undo.
    #[error("nothing to undo")]
    NothingToUndo,
    /// 104: there is no command to redo.
    #[error("nothing to redo")]
    NothingToRedo,
    /// 105: the journal is full.
    #[error("journal is full")]
    JournalFull,
    /// 106: a random graph ran out of attempts before it had all its arcs.
    #[error("stuck")]
    Stuck,
}

impl ShellRefusal {
    ghost use Rattle.std.specs.Prelude.{◌≡◌};
    ghost use Rattle.sgb_script.specs.Refusal.{number_of, text_of};

    /// The number of the refusal, as the transcript prints it.
    pub fn number(&self) -> u8
        ensures { result ≡ number_of self.now }
    {
        match self {
            ShellRefusal::NoRoom => 1,
            ShellRefusal::CheckWrong => 11,
            ShellRefusal::Syntax => 20,
            ShellRefusal::BadSpecs => 30,
            ShellRefusal::LengthRange => 31,
            ShellRefusal::TooLarge => 40,
            ShellRefusal::NoGraph => 50,
            ShellRefusal::BadOperand => 60,
            ShellRefusal::ScriptSyntax => 100,
            ShellRefusal::TableFull => 101,
            ShellRefusal::NameTaken => 102,
            ShellRefusal::NothingToUndo => 103,
            ShellRefusal::NothingToRedo => 104,
            ShellRefusal::JournalFull => 105,
            ShellRefusal::Stuck => 106,
        }
    }

    /// The text of the refusal, as the transcript prints it after the number. `Display` prints the same.
    pub fn text(&self) -> &'static str
        ensures { result.now ≡ text_of self.now }
    {
        match self {
            ShellRefusal::NoRoom => "no room",
            ShellRefusal::CheckWrong => "check number is wrong",
            ShellRefusal::Syntax => "bad saved graph",
            ShellRefusal::BadSpecs => "bad specification",
            ShellRefusal::LengthRange => "length range too wide",
            ShellRefusal::TooLarge => "too large",
            ShellRefusal::NoGraph => "no such graph",
            ShellRefusal::BadOperand => "bad operand",
            ShellRefusal::ScriptSyntax => "bad command",
            ShellRefusal::TableFull => "table is full",
            ShellRefusal::NameTaken => "name is taken",
            ShellRefusal::NothingToUndo => "nothing to undo",
            ShellRefusal::NothingToRedo => "nothing to redo",
            ShellRefusal::JournalFull => "journal is full",
            ShellRefusal::Stuck => "stuck",
        }
    }
}
