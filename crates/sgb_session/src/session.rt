//! The session, whose commands may be groups.
ghost use Rattle.std.specs.Prelude.{◌≡◌, ◌<◌, ◌≤◌, ◌⊎◌, length, true, IfOk, IfErr, OnErr};
ghost use Rattle.sgb_undo.specs.Outcome.{Accepted, Refused};
ghost use Rattle.sgb_session.specs.Drawing.{generator_of};

use crate::base::Base;
use crate::reply::{Delta, Reply};
use sgb_graph::Graph;
use sgb_script::{Command, Name, ShellRefusal};
use sgb_undo::{GroupRefusal, Reversible, apply_all, revert_all};
use std::alloc::Global;
use std::marker::Model;

/// The state that a script works on: a generator, and named graphs in their order.
///
/// It keeps the laws of [`Reversible`]. Contracts see all that it keeps.
#[derive(Drop)]
pub struct Session {
    alloc: Global,
    base: Base,
}

impl Model for Session {
    ghost use Rattle.sgb_session.specs.State.{State};

    ghost Value = { State };

    ghost view = { λ s. s.base };
}

impl Session {
    ghost use Rattle.sgb_session.specs.State.{empty};
    ghost use Rattle.sgb_session.specs.Table.{find, entry_in, graph_in};

    /// The empty session: the generator of seed 0, and no graphs. Does not allocate.
    pub fn new(alloc: Global) -> Session
        ensures { result ≡ empty }
    {
        Session {
            alloc,
            base: Base::new(alloc),
        }
    }

    /// The generator's seed modulo 2^31, the count of numbers drawn since the seeding, and the count of unread words.
    pub fn generator(&self) -> (u32, u64, u32)
        ensures seed { result.0 ≡ self.now.generator.seed }
        ensures draws { result.1 ≡ self.now.generator.draws }
        ensures unread { result.2 ≡ (generator_of self.now.generator).unread }
    {
        let mark = &self.base.generator;
        (mark.seed(), mark.draws(), mark.unread())
    }

    /// The number of graphs, at most 64.
    pub fn len(&self) -> usize
        ensures value { result ≡ length self.now.table }
        ensures few { result ≤ 64 }
    {
        self.base.table.len()
    }

    /// The name of the graph at a place of the table.
    pub fn name_at(&self, place: usize) -> Name
        requires { place < length self.now.table }
        ensures { result ≡ (entry_in self.now.table place).name }
    {
        self.base.table.entry(place).name
    }

    /// The graph at a place of the table.
    pub fn graph_at(&self, place: usize) -> &Graph
        requires { place < length self.now.table }
        ensures { result.now ≡ graph_in self.now.table place }
    {
        self.base.table.graph(place)
    }

    /// The place of the graph of this name.
    pub fn find(&self, name: &Name) -> Option<usize>
        ensures { result ≡ find self.now.table name.now }
    {
        self.base.table.find(name)
    }
}

impl Reversible for Session {
    ghost use Rattle.sgb_session.specs.Command.{step, before, can_revert, may_want};
    ghost use Rattle.sgb_script.specs.Refusal.{is_no_room};

    type Command = Command;

    type Delta = Delta;

    type Reply = Reply;

    type Refusal = ShellRefusal;

    ghost step = { step };

    ghost before = { before };

    ghost can_revert = { can_revert };

    ghost is_want_of_memory = { is_no_room };

    ghost may_want = { may_want };

    /// Performs a command, or a group of commands: all of it, or nothing where a member is refused.
    ///
    /// # Allocates
    ///
    /// A single command as [`Base`] does. A group, unless it is empty, for its members' deltas and replies before the
    /// first member is performed, and then as each member does.
    #[inline(always)]
    fn apply(&mut self, command: &Command) -> Result<(Delta, Reply), ShellRefusal>
        ensures accepted { IfOk result (λ a. step self.old command.now ≡ Accepted self.new a.0 a.1) }
        ensures can_revert { IfOk result (λ a. can_revert self.new a.0) }
        ensures before { IfOk result (λ a. before self.new a.0 ≡ self.old) }
        ensures refused { IfErr result (λ r.
            ((is_no_room r ≡ true) × (may_want self.old command.now ≡ true)) ⊎ (step self.old command.now ≡ Refused r)) }
        ensures err { OnErr result (self.new ≡ self.old) }
    {
        match command {
            Command::One(single) => {
                let (delta, reply) = self.base.apply(single)?;
                Ok((Delta::One(delta), Reply::One(reply)))
            }
            Command::Group(members) => {
                match apply_all(self.alloc, &mut self.base, members.as_slice()) {
                    Ok((deltas, replies)) => Ok((Delta::Group(deltas), Reply::Group(replies))),
                    Err(GroupRefusal::NoRoom) => Err(ShellRefusal::NoRoom),
                    Err(GroupRefusal::Machine(refusal)) => Err(refusal),
                }
            }
        }
    }

    /// Undoes a command, or each member of a group, the last first. Does not allocate.
    #[inline(always)]
    fn revert(&mut self, delta: Delta) {
        match delta {
            Delta::One(single) => self.base.revert(single),
            Delta::Group(members) => revert_all(&mut self.base, members),
        }
    }

    fn is_memory(refusal: &ShellRefusal) -> bool {
        Base::is_memory(refusal)
    }
}
