//! Commands that are performed as one.

ghost use Rattle.std.specs.Prelude.{◌≡◌, ◌≤◌, ◌⊎◌, List, [], Some, None, length, true, vec_capacity, IfOk, OnOk, OnErr, IfErr, IsErrOf};
ghost use Rattle.sgb_undo.specs.Outcome.{Accepted, Refused, on_accepted};
ghost use Rattle.sgb_undo.specs.Replay.{fold, deltas_of, start_of};
ghost use Rattle.sgb_undo.specs.Group.{step_all, any_may_want, CanRevertAll};

use crate::{GroupRefusal, Members, Reversible};
use std::alloc::{AllocError, Global};

/// Performs commands in order as one: all of them, or none where one is refused.
///
/// It answers their deltas, by which [`revert_all`] takes them back, and their replies. The memory for
/// both is taken before the first command, and a group of none takes none. A group is refused as its
/// first refused command is, and the machine then stays as it was.
pub fn apply_all<M: Reversible>(
    alloc: Global,
    machine: &mut M,
    commands: &[M::Command],
) -> Result<(Members<M::Delta>, Members<M::Reply>), GroupRefusal<M::Refusal>>
    ensures accepted { IfOk result (λ a. step_all M.step machine.old commands.now ≡ Accepted machine.new a.0 a.1) }
    ensures can_revert { IfOk result (λ a. CanRevertAll M.before M.can_revert machine.new a.0) }
    ensures before { IfOk result (λ a. start_of M.before machine.new a.0 ≡ machine.old) }

    ensures no_room { IsErrOf result GroupRefusal.NoRoom → commands.now ≡ [] → ⊥ }
    ensures refused { (r : M.Refusal) → IsErrOf result (GroupRefusal.Machine r)
        → ((M.is_want_of_memory r ≡ true) × (any_may_want M.step M.may_want machine.old commands.now ≡ true))
        ⊎ (step_all M.step machine.old commands.now ≡ Refused r) }

    ensures err { OnErr result (machine.new ≡ machine.old) }
{
    let Ok((mut deltas, mut replies)) = take_places(alloc, commands.len()) else {
        return Err(GroupRefusal::NoRoom);
    };
    match perform_each(machine, commands, &mut deltas, &mut replies) {
        Ok(()) => Ok((Members::from_vec(deltas), Members::from_vec(replies))),
        Err(refusal) => {
            revert_all(machine, Members::from_vec(deltas));
            Err(GroupRefusal::Machine(refusal))
        }
    }
}

/// Takes back the commands that gave the deltas, the last first. It takes no memory and is never
/// refused.
pub fn revert_all<M: Reversible>(machine: &mut M, deltas: Members<M::Delta>)
    requires can_revert { CanRevertAll M.before M.can_revert machine.old deltas }
    ensures value { machine.new ≡ start_of M.before machine.old deltas }
{
    let mut deltas = deltas.into_vec();
    while let Some(delta) = deltas.pop() {
        machine.revert(delta);
    }
}

/// A group leaves the value and the deltas that its commands give one after another, and is refused
/// where one of them is.
pub fn group_law<M: Reversible>()
    ensures value { (m : M) (cs : List M.Command) → fold M.step m cs ≡ on_accepted (step_all M.step m cs) (λ n _. Some n) None }
    ensures deltas { (m n : M) (cs : List M.Command) (ds : List M.Delta) (rs : List M.Reply) →
        step_all M.step m cs ≡ Accepted n ds rs → deltas_of M.step m cs ≡ ds }
{}

// Two empty lists with so many places each.
fn take_places<D: Drop, R: Drop>(
    alloc: Global,
    count: usize,
) -> Result<(Vec<D>, Vec<R>), AllocError>
    ensures none { IfOk result (λ lists. (lists.0.items ≡ []) × (lists.1.items ≡ [])) }
    ensures places { IfOk result (λ lists. (count ≤ vec_capacity lists.0) × (count ≤ vec_capacity lists.1)) }
    ensures succeeds { OnErr result (count ≡ 0 → ⊥) }
{
    let deltas = Vec::with_capacity(alloc, count)?;
    let replies = Vec::with_capacity(alloc, count)?;
    Ok((deltas, replies))
}

// Performs commands up to the first that is refused, and puts what they gave into the lists, which have
// a place for each.
fn perform_each<M: Reversible>(
    machine: &mut M,
    commands: &[M::Command],
    deltas: &mut Vec<M::Delta>,
    replies: &mut Vec<M::Reply>,
) -> Result<(), M::Refusal>
    requires none { (deltas.old.items ≡ []) × (replies.old.items ≡ []) }
    requires places { (length commands.now ≤ vec_capacity deltas.old) × (length commands.now ≤ vec_capacity replies.old) }
    ensures accepted { OnOk result (step_all M.step machine.old commands.now ≡ Accepted machine.new deltas.new.items replies.new.items) }
    ensures can_revert { CanRevertAll M.before M.can_revert machine.new deltas.new.items }
    ensures before { start_of M.before machine.new deltas.new.items ≡ machine.old }
    ensures refused { IfErr result (λ r.
        ((M.is_want_of_memory r ≡ true) × (any_may_want M.step M.may_want machine.old commands.now ≡ true))
        ⊎ (step_all M.step machine.old commands.now ≡ Refused r)) }
{
    for command in commands {
        let (delta, reply) = machine.apply(command)?;
        deltas.push_reserved(delta);
        replies.push_reserved(reply);
    }
    Ok(())
}
