//! Whole runs of a journal.

ghost use Rattle.std.specs.Prelude.{◌≡◌, ◌↔◌, ◌⊎◌, [], ◌∷◌, length, true, IfOk, OnOk, OnErr, IsErrOf, IsTrue};
ghost use Rattle.std.specs.Bool.{OnTrue, OnFalse};
ghost use Rattle.sgb_undo.specs.Outcome.{Accepted, Refused};
ghost use Rattle.sgb_undo.specs.History.{IsJournal, grows_at};
ghost use Rattle.sgb_undo.specs.Events.{lists_of, after, after_all, accepted_of, IsAnsweredRightly, AreAnsweredRightly};

use crate::{Journal, JournalRefusal, Reversible};
use std::alloc::{AllocError, Global};

/// What is asked of a journal.
#[derive(Debug, Drop, PartialEq, Eq)]
pub enum Event<C> {
    Apply(C),
    Undo,
    Redo,
}

/// Performs events in order, and answers of each whether it was accepted.
///
/// Memory for the answers is taken first. Without it nothing is performed.
pub fn perform_all<M: Reversible>(
    alloc: Global,
    journal: &mut Journal<M>,
    events: Vec<Event<M::Command>>,
) -> Result<Vec<bool>, AllocError>
    ensures len { IfOk result (λ accepted. length accepted.items ≡ length events.items) }
    ensures lists { IfOk result (λ accepted.
        lists_of journal.new ≡ after_all (accepted_of events.items accepted.items) (lists_of journal.old)) }
    ensures right { IfOk result (λ accepted.
        AreAnsweredRightly M.step M.may_want journal.old.start events.items accepted.items (lists_of journal.old)) }
    ensures start { journal.new.start ≡ journal.old.start }
    ensures sound { IsJournal M.step M.before journal.new }
    ensures err { OnErr result (journal.new ≡ journal.old) }
{
    let _machine = journal.machine();
    let mut accepted = Vec::with_capacity(alloc, events.len())?;
    for event in events {
        accepted.push_reserved(perform(journal, event));
    }
    Ok(accepted)
}

// Performs an event, and answers whether it was accepted.
fn perform<M: Reversible>(journal: &mut Journal<M>, event: Event<M::Command>) -> bool
    requires { IsJournal M.step M.before journal.old }
    ensures accepted { OnTrue result (lists_of journal.new ≡ after event (lists_of journal.old)) }
    ensures right { IsAnsweredRightly M.step M.may_want journal.old.start event result (lists_of journal.old) }
    ensures same { OnFalse result (journal.new ≡ journal.old) }
    ensures start { journal.new.start ≡ journal.old.start }
    ensures sound { IsJournal M.step M.before journal.new }
{
    match event {
        Event::Apply(command) => journal.apply(command).is_ok(),
        Event::Undo => journal.undo().is_ok(),
        Event::Redo => journal.redo().is_ok(),
    }
}

/// Performs a command and takes it back: the machine and what stands are as before, and the command
/// can be redone.
pub fn apply_and_undo<M: Reversible>(
    journal: &mut Journal<M>,
    command: M::Command,
) -> Result<M::Reply, JournalRefusal<M::Refusal>>
    ensures machine { journal.new.machine ≡ journal.old.machine }
    ensures standing { journal.new.standing ≡ journal.old.standing }
    ensures deltas { journal.new.deltas ≡ journal.old.deltas }
    ensures start { journal.new.start ≡ journal.old.start }
    ensures undone { OnOk result (journal.new.undone ≡ command ∷ []) }
    ensures reply { IfOk result (λ reply. (next : M) × (delta : M.Delta)
        × (M.step journal.old.machine command ≡ Accepted next delta reply)) }

    ensures no_room { IsErrOf result JournalRefusal.NoRoom → (journal.old.undone ≡ []) × IsTrue (grows_at (length journal.old.standing)) }
    ensures full { IsErrOf result JournalRefusal.Full ↔ (length journal.old.standing ≡ 65535) }
    ensures nothing { IsErrOf result JournalRefusal.NothingToRedo → ⊥ }
    ensures refused { (r : M.Refusal) → IsErrOf result (JournalRefusal.Machine r)
        → ((M.is_want_of_memory r ≡ true) × (M.may_want journal.old.machine command ≡ true)) ⊎ (M.step journal.old.machine command ≡ Refused r) }

    ensures err { OnErr result (journal.new ≡ journal.old) }
    ensures sound { IsJournal M.step M.before journal.new }
{
    match journal.apply(command) {
        Ok(reply) => {
            journal.undo().unwrap();
            Ok(reply)
        }
        Err(refusal) => Err(refusal),
    }
}
