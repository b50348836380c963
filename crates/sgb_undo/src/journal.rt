//! The journal of a machine.

ghost use Rattle.std.specs.Prelude.{◌≡◌, ◌↔◌, ◌<◌, ◌≤◌, ◌+◌, ◌⊎◌, ⊤, [], length, true, slice_get, vec_len, vec_capacity, Some, OnOk, OnErr, IfOk, IfErr, IsErr, IsErrOf, IsTrue};
ghost use Rattle.sgb_undo.specs.Outcome.{Refused};
ghost use Rattle.sgb_undo.specs.History.{grows_at};
ghost use Rattle.sgb_undo.specs.Private.Kept.{places};

use crate::{JournalRefusal, NothingToUndo, Reversible};
use std::alloc::{AllocError, Global};
use std::marker::Model;

/// How many commands a journal holds at most, standing and undone together.
pub const MOST_COMMANDS: usize = 65_535;

/// A journal takes memory for so many commands at least, where a multiple of it stand.
pub const GROWTH: usize = 1_024;

/// A machine with the commands that it performed.
///
/// The commands that stand are kept in order, and behind them those that are undone, the next to
/// redo first. Of each standing command the delta is kept, and of no command a copy of the machine.
#[derive(Drop)]
pub struct Journal<M: Reversible> {
    machine: M,
    commands: Vec<M::Command>,
    deltas: Vec<M::Delta>,
}

impl<M: Reversible> Model for Journal<M> {
    ghost use Rattle.std.specs.Prelude.{vec_len, vec_capacity};
    ghost use Rattle.sgb_undo.specs.History.{History};
    ghost use Rattle.sgb_undo.specs.Private.Kept.{history, places, IsSound};

    ghost Value = { History M M.Command M.Delta };

    ghost view = { λ j. history M.before j.machine j.commands.items j.deltas.items (vec_len j.deltas) };

    ghost invariant = { λ j. IsSound M.step M.before M.can_revert
        j.machine j.commands.items j.deltas.items 65535 (places (vec_capacity j.commands) (vec_capacity j.deltas)) };
}

impl<M: Reversible> Journal<M> {
    ghost use Rattle.sgb_undo.specs.History.{begun, grows_at, FirstMayWant, IsJournal, Applies, Undoes, Redoes};

    /// A journal in which nothing stands and nothing is undone. It takes no memory.
    pub fn new(alloc: Global, machine: M) -> Self
        ensures value { result ≡ begun machine }
        ensures sound { IsJournal M.step M.before result }
    {
        Journal {
            machine,
            commands: Vec::new(alloc),
            deltas: Vec::new(alloc),
        }
    }

    /// Performs a command, which then stands last, and forgets the undone ones.
    ///
    /// The journal takes memory only where nothing is undone and a multiple of [`GROWTH`] stand,
    /// before the machine is asked. A command that is refused is dropped, and everything stays as it
    /// was, the undone commands too.
    pub fn apply(&mut self, command: M::Command) -> Result<M::Reply, JournalRefusal<M::Refusal>>
        ensures ok { IfOk result (λ reply. Applies M.step M.before self.old command reply self.new) }

        ensures no_room { IsErrOf result JournalRefusal.NoRoom → (self.old.undone ≡ []) × IsTrue (grows_at (length self.old.standing)) }
        ensures full { IsErrOf result JournalRefusal.Full ↔ (length self.old.standing ≡ 65535) }
        ensures nothing { IsErrOf result JournalRefusal.NothingToRedo → ⊥ }
        ensures refused { (r : M.Refusal) → IsErrOf result (JournalRefusal.Machine r)
            → ((M.is_want_of_memory r ≡ true) × (M.may_want self.old.machine command ≡ true)) ⊎ (M.step self.old.machine command ≡ Refused r) }

        ensures start { self.new.start ≡ self.old.start }
        ensures err { OnErr result (self.new ≡ self.old) }
        ensures sound { IsJournal M.step M.before self.new }
    {
        let standing = self.deltas.len();
        if standing == MOST_COMMANDS {
            return Err(JournalRefusal::Full);
        }
        if make_place(&mut self.commands, &mut self.deltas).is_err() {
            return Err(JournalRefusal::NoRoom);
        }
        match self.machine.apply(&command) {
            Ok((delta, reply)) => {
                self.commands.truncate(standing);
                self.commands.push_reserved(command);
                self.deltas.push_reserved(delta);
                Ok(reply)
            }
            Err(refusal) => Err(JournalRefusal::Machine(refusal)),
        }
    }

    /// Takes back the last standing command, which becomes the one to redo next. It takes no memory.
    pub fn undo(&mut self) -> Result<(), NothingToUndo>
        ensures ok { OnOk result (Undoes M.step M.before self.old self.new) }
        ensures nothing { IsErr result ↔ (self.old.standing ≡ []) }
        ensures start { self.new.start ≡ self.old.start }
        ensures err { OnErr result (self.new ≡ self.old) }
        ensures sound { IsJournal M.step M.before self.new }
    {
        match self.deltas.pop() {
            Some(delta) => {
                self.machine.revert(delta);
                Ok(())
            }
            None => Err(NothingToUndo),
        }
    }

    /// Performs the first undone command again, which then stands last.
    ///
    /// The journal itself takes no memory for it, so the machine's want of memory is the only
    /// refusal where something is undone.
    pub fn redo(&mut self) -> Result<M::Reply, JournalRefusal<M::Refusal>>
        ensures ok { IfOk result (λ reply. Redoes M.step M.before self.old reply self.new) }

        ensures nothing { IsErrOf result JournalRefusal.NothingToRedo ↔ (self.old.undone ≡ []) }
        ensures no_room { IsErrOf result JournalRefusal.NoRoom → ⊥ }
        ensures full { IsErrOf result JournalRefusal.Full → ⊥ }
        ensures refused { (r : M.Refusal) → IsErrOf result (JournalRefusal.Machine r)
            → (M.is_want_of_memory r ≡ true) × FirstMayWant M.may_want self.old.machine self.old.undone }

        ensures start { self.new.start ≡ self.old.start }
        ensures err { OnErr result (self.new ≡ self.old) }
        ensures sound { IsJournal M.step M.before self.new }
    {
        let next = self.deltas.len();
        if next == self.commands.len() {
            return Err(JournalRefusal::NothingToRedo);
        }
        match self.machine.apply(&self.commands[next]) {
            Ok((delta, reply)) => {
                self.deltas.push_reserved(delta);
                Ok(reply)
            }
            Err(want) => Err(JournalRefusal::Machine(want)),
        }
    }

    /// How many commands stand.
    pub fn standing(&self) -> usize
        ensures value { result ≡ length self.now.standing }
        ensures sound { IsJournal M.step M.before self.now }
    {
        self.deltas.len()
    }

    /// How many commands are undone and can be redone.
    pub fn undone(&self) -> usize
        ensures value { result ≡ length self.now.undone }
        ensures sound { IsJournal M.step M.before self.now }
    {
        self.commands.len() - self.deltas.len()
    }

    /// The standing command at a place, the first at 0.
    pub fn command(&self, place: usize) -> &M::Command
        requires { place < length self.now.standing }
        ensures value { slice_get self.now.standing place ≡ Some result.now }
        ensures sound { IsJournal M.step M.before self.now }
    {
        &self.commands[place]
    }

    /// The machine.
    pub fn machine(&self) -> &M
        ensures value { result.now ≡ self.now.machine }
        ensures sound { IsJournal M.step M.before self.now }
    {
        &self.machine
    }
}

/// Makes a place for one more command and its delta. It takes memory only where each command has its
/// delta, so that nothing is undone, and a multiple of [`GROWTH`] stand.
fn make_place<C, D>(commands: &mut Vec<C>, deltas: &mut Vec<D>) -> Result<(), AllocError>
    requires within { vec_len deltas.old ≤ vec_len commands.old }
    requires placed { vec_len commands.old ≤ places (vec_capacity commands.old) (vec_capacity deltas.old) }
    ensures commands { commands.new.items ≡ commands.old.items }
    ensures deltas { deltas.new.items ≡ deltas.old.items }
    ensures place { OnOk result (vec_len deltas.new < places (vec_capacity commands.new) (vec_capacity deltas.new)) }
    ensures kept { places (vec_capacity commands.old) (vec_capacity deltas.old)
        ≤ places (vec_capacity commands.new) (vec_capacity deltas.new) }
    ensures refused { OnErr result (vec_len deltas.old ≡ vec_len commands.old) }
    ensures grows { OnErr result (IsTrue (grows_at (vec_len deltas.old))) }
{
    if deltas.len() == commands.len() && deltas.len() % GROWTH == 0 {
        commands.reserve(GROWTH)?;
        deltas.reserve(GROWTH)?;
    }
    Ok(())
}
