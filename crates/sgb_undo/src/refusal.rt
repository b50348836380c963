//! Why a call of a journal is refused.

/// Why a command is not applied or not redone. `F` is the machine's own refusal.
#[derive(Debug, Drop, PartialEq, Eq)]
pub enum JournalRefusal<F> {
    /// There is no memory for one more command.
    NoRoom,
    /// As many commands stand as a journal may hold.
    Full,
    /// No command is undone.
    NothingToRedo,
    /// The machine refuses the command.
    Machine(F),
}

/// Why a group of commands is not performed. `F` is the machine's own refusal.
#[derive(Debug, Drop, PartialEq, Eq)]
pub enum GroupRefusal<F> {
    /// There is no memory for what the commands give.
    NoRoom,
    /// The machine refuses one of the commands.
    Machine(F),
}

/// No command stands.
#[derive(Clone, Copy, Debug, PartialEq, Eq)]
pub struct NothingToUndo;
