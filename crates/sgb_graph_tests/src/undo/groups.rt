//! Groups of a machine's commands, and the lists of what they give.

use crate::undo::register::{Change, Lacks, Register, Trouble};
use sgb_undo::{GroupRefusal, Members, apply_all, group_law, revert_all};
use std::alloc::{AllocError, Global};
use std::test::Fail;

const CHANGES: [Change; 3] = [Change::Add(5), Change::Set(7), Change::Add(1)];

fn register(value: u8) -> Register {
    Register::new(value, u32::MAX, Lacks::Heap)
}

// Whether the changes are made in order, and taken back.
fn there_and_back(alloc: Global, register: &mut Register) -> Result<bool, GroupRefusal<Trouble>> {
    let (deltas, replies) = apply_all(alloc, register, &CHANGES)?;
    let between = register.value();
    let right = replies.as_slice() == [8, 7, 8].as_slice() && deltas.len() == 3;
    revert_all(register, deltas);
    Ok(right && between == 8)
}

#[test]
fn a_group_is_performed_in_order_and_taken_back(rt: HostRuntime) {
    group_law::<Register>();
    let mut register = register(3);
    let answer = match there_and_back(rt.alloc(), &mut register) {
        Err(GroupRefusal::NoRoom) => there_and_back(rt.alloc(), &mut register),
        answer => answer,
    };
    assert!(rt; answer == Ok(true));
    assert!(rt; register.value() == 3);
}

// Whether a group of none is performed, and gives nothing.
fn performs_none(alloc: Global, register: &mut Register) -> bool {
    match apply_all(alloc, register, &[]) {
        Ok((deltas, replies)) => deltas.is_empty() && replies.is_empty(),
        Err(_) => false,
    }
}

#[test]
fn a_group_of_none_changes_nothing(rt: HostRuntime) {
    let mut register = register(3);
    assert!(rt; performs_none(rt.alloc(), &mut register));
    assert!(rt; register.value() == 3);
}

// Why a group is refused, where it is.
fn refused(alloc: Global, register: &mut Register) -> Option<GroupRefusal<Trouble>> {
    apply_all(alloc, register, &[Change::Set(9), Change::Add(247)]).err()
}

// Whether the group is refused so, and leaves the register as it was.
fn is_refused(alloc: Global, register: &mut Register, trouble: Trouble) -> bool {
    let refusal = match refused(alloc, register) {
        Some(GroupRefusal::NoRoom) => refused(alloc, register),
        refusal => refusal,
    };
    refusal == Some(GroupRefusal::Machine(trouble)) && register.value() == 3
}

#[test]
fn a_refused_member_leaves_nothing(rt: HostRuntime) {
    let mut register = Register::new(3, 1, Lacks::Quota);
    assert!(rt; is_refused(rt.alloc(), &mut register, Trouble::Memory(Lacks::Quota)));
    assert!(rt; is_refused(rt.alloc(), &mut register, Trouble::TooLarge));
}

// Whether the list has its items, and gives back the very vector.
fn is_list(items: Vec<u8>) -> bool {
    let places = items.capacity();
    let members = Members::from_vec(items);
    let right = members.len() == 2 && !members.is_empty() && *members.get(1) == 8;
    let items = members.into_vec();
    right && items.as_slice() == [7, 8].as_slice() && items.capacity() == places
}

fn two(alloc: Global) -> Result<Vec<u8>, AllocError> {
    let mut items = Vec::with_capacity(alloc, 9)?;
    items.push(7)?;
    items.push(8)?;
    Ok(items)
}

#[test]
fn a_list_is_a_vector_and_gives_it_back(rt: HostRuntime) -> Result<(), Fail> {
    assert!(rt; is_list(two(rt.alloc())?));
    assert!(rt; Members::from_vec(two(rt.alloc())?) == Members::from_vec(two(rt.alloc())?));
    Ok(())
}
