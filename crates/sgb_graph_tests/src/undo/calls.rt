//! The calls of a journal, of any machine. They promise nothing, so that the proof of what calls them stays short.

use sgb_undo::{Journal, JournalRefusal, NothingToUndo, Reversible};

pub fn machine<M: Reversible>(journal: &Journal<M>) -> &M {
    journal.machine()
}

/// How many commands stand, and how many are undone.
pub fn counts<M: Reversible>(journal: &Journal<M>) -> (usize, usize) {
    (journal.standing(), journal.undone())
}

/// Whether the standing command at a place is this one.
pub fn has_command<C: Drop + PartialEq, M: Reversible<Command = C>>(
    journal: &Journal<M>,
    place: usize,
    command: &C,
) -> bool {
    place < journal.standing() && journal.command(place) == command
}

pub fn apply<M: Reversible>(
    journal: &mut Journal<M>,
    command: M::Command,
) -> Result<M::Reply, JournalRefusal<M::Refusal>> {
    journal.apply(command)
}

pub fn undo<M: Reversible>(journal: &mut Journal<M>) -> Result<(), NothingToUndo> {
    journal.undo()
}

pub fn redo<M: Reversible>(
    journal: &mut Journal<M>,
) -> Result<M::Reply, JournalRefusal<M::Refusal>> {
    journal.redo()
}

/// The answer to a command. Where the journal finds no memory nothing has changed, and it is asked once more.
pub fn answer<C: Copy, M: Reversible<Command = C>>(
    journal: &mut Journal<M>,
    command: C,
) -> Result<M::Reply, JournalRefusal<M::Refusal>> {
    let before = counts(journal);
    match apply(journal, command) {
        Err(JournalRefusal::NoRoom) if counts(journal) == before => apply(journal, command),
        other => other,
    }
}
