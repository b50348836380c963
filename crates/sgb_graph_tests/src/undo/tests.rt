//! What no clause says: that each call can succeed, and what a refused allocation leads to. The small functions promise
//! nothing, so that the proof of a test stays short.

use crate::undo::calls::{answer, apply, counts, has_command, machine, redo, undo};
use crate::undo::register::{Change, Lacks, Register, Trouble};
use sgb_undo::{
    Event, Journal, JournalRefusal, MOST_COMMANDS, NothingToUndo, Reversible, apply_and_undo,
    perform_all,
};
use std::alloc::{AllocError, Global};

// A register that is granted so many commands before one finds no memory.
fn granted(alloc: Global, value: u8, granted: u32, lacks: Lacks) -> Journal<Register> {
    Journal::new(alloc, Register::new(value, granted, lacks))
}

fn register(alloc: Global, value: u8) -> Journal<Register> {
    granted(alloc, value, u32::MAX, Lacks::Heap)
}

// Whether the register has this value, and so many commands stand and are undone.
fn is_at(journal: &Journal<Register>, value: u8, standing: usize, undone: usize) -> bool {
    machine(journal).value() == value && counts(journal) == (standing, undone)
}

// Whether the register replies this value to an addition.
fn adds(journal: &mut Journal<Register>, amount: u8, value: u8) -> bool {
    answer(journal, Change::Add(amount)) == Ok(value)
}

fn sets(journal: &mut Journal<Register>, value: u8) -> bool {
    answer(journal, Change::Set(value)) == Ok(value)
}

fn has_nothing_to_redo(journal: &mut Journal<Register>) -> bool {
    redo(journal) == Err(JournalRefusal::NothingToRedo)
}

#[test]
fn commands_are_undone_and_redone(rt: HostRuntime) {
    let mut journal = register(rt.alloc(), 3);
    assert!(rt; undo(&mut journal) == Err(NothingToUndo));
    assert!(rt; has_nothing_to_redo(&mut journal));
    assert!(rt; adds(&mut journal, 5, 8));
    assert!(rt; sets(&mut journal, 7));
    assert!(rt; is_at(&journal, 7, 2, 0));
    assert!(rt; has_command(&journal, 0, &Change::Add(5)));
    assert!(rt; has_command(&journal, 1, &Change::Set(7)));
    assert!(rt; undo(&mut journal).is_ok());
    assert!(rt; is_at(&journal, 8, 1, 1));
    assert!(rt; undo(&mut journal).is_ok());
    assert!(rt; is_at(&journal, 3, 0, 2));
    assert!(rt; redo(&mut journal) == Ok(8));
    assert!(rt; redo(&mut journal) == Ok(7));
    assert!(rt; is_at(&journal, 7, 2, 0));
}

#[test]
fn a_refused_command_leaves_the_undone_ones(rt: HostRuntime) {
    let mut journal = register(rt.alloc(), 0);
    assert!(rt; adds(&mut journal, 200, 200) && adds(&mut journal, 10, 210));
    assert!(rt; undo(&mut journal).is_ok());
    let refused = JournalRefusal::Machine(Trouble::TooLarge);
    assert!(rt; apply(&mut journal, Change::Add(56)) == Err(refused));
    assert!(rt; is_at(&journal, 200, 1, 1));
    assert!(rt; redo(&mut journal) == Ok(210));
    assert!(rt; undo(&mut journal).is_ok());
    // Another takes its place.
    assert!(rt; adds(&mut journal, 55, 255));
    assert!(rt; is_at(&journal, 255, 2, 0));
    assert!(rt; has_nothing_to_redo(&mut journal));
}

// Whether as many commands as a journal holds are performed.
fn fills(journal: &mut Journal<Register>) -> bool {
    for _ in 0..MOST_COMMANDS {
        if !adds(journal, 0, 0) {
            return false;
        }
    }
    is_at(journal, 0, 65535, 0)
}

fn is_full(journal: &mut Journal<Register>) -> bool {
    apply(journal, Change::Add(1)) == Err(JournalRefusal::Full)
}

#[test]
fn a_full_journal_takes_another_after_an_undo(rt: HostRuntime) {
    let mut journal = register(rt.alloc(), 0);
    assert!(rt; fills(&mut journal));
    assert!(rt; is_full(&mut journal));
    assert!(rt; undo(&mut journal).is_ok());
    assert!(rt; is_at(&journal, 0, 65534, 1));
    assert!(rt; apply(&mut journal, Change::Add(1)) == Ok(1));
    assert!(rt; is_at(&journal, 1, 65535, 0));
    assert!(rt; is_full(&mut journal));
}

fn lacks(lacks: Lacks) -> Result<u8, JournalRefusal<Trouble>> {
    Err(JournalRefusal::Machine(Trouble::Memory(lacks)))
}

// Whether the machine's refusal for memory is the answer to a command, where it comes first.
fn hands_on(alloc: Global, kind: Lacks) -> bool {
    let mut journal = granted(alloc, 3, 0, kind);
    answer(&mut journal, Change::Add(5)) == lacks(kind)
        && is_at(&journal, 3, 0, 0)
        && adds(&mut journal, 5, 8)
}

// Whether it is the answer to a redo.
fn hands_on_again(alloc: Global, kind: Lacks) -> bool {
    let mut journal = granted(alloc, 3, 1, kind);
    adds(&mut journal, 5, 8)
        && undo(&mut journal).is_ok()
        && redo(&mut journal) == lacks(kind)
        && is_at(&journal, 3, 0, 1)
        && redo(&mut journal) == Ok(8)
}

#[test]
fn a_refusal_for_memory_is_handed_on_as_it_was_given(rt: HostRuntime) {
    for kind in [Lacks::Heap, Lacks::Quota] {
        assert!(rt; Register::is_memory(&Trouble::Memory(kind)));
        assert!(rt; hands_on(rt.alloc(), kind));
        assert!(rt; hands_on_again(rt.alloc(), kind));
    }
    assert!(rt; !Register::is_memory(&Trouble::TooLarge));
}

fn performed(alloc: Global, journal: &mut Journal<Register>) -> Result<Vec<bool>, AllocError> {
    let events: Vec<Event<Change>> = vec![in alloc;
        Event::Undo,
        Event::Apply(Change::Set(200)),
        Event::Apply(Change::Add(56)),
        Event::Apply(Change::Add(55)),
        Event::Undo,
        Event::Apply(Change::Add(100)),
        Event::Redo,
        Event::Redo,
        Event::Undo,
    ]?;
    perform_all(alloc, journal, events)
}

// Whether the events are performed in order. Where memory is refused nothing has changed, and it is asked for once more.
fn performs_in_order(alloc: Global, journal: &mut Journal<Register>) -> bool {
    let before = counts(journal);
    let answer = match performed(alloc, journal) {
        Err(_) if counts(journal) == before => performed(alloc, journal),
        answer => answer,
    };
    let want = [false, true, false, true, true, false, true, false, true];
    match answer {
        Ok(accepted) => accepted.as_slice() == want.as_slice(),
        Err(_) => false,
    }
}

#[test]
fn events_are_performed_in_order(rt: HostRuntime) {
    let mut journal = register(rt.alloc(), 0);
    assert!(rt; adds(&mut journal, 9, 9));
    assert!(rt; undo(&mut journal).is_ok());
    assert!(rt; performs_in_order(rt.alloc(), &mut journal));
    assert!(rt; is_at(&journal, 200, 1, 1));
}

// The reply to a command that is applied and undone. Where a growth is refused it is asked for once more.
fn replied(journal: &mut Journal<Register>, amount: u8) -> Result<u8, JournalRefusal<Trouble>> {
    match apply_and_undo(journal, Change::Add(amount)) {
        Err(JournalRefusal::NoRoom) => apply_and_undo(journal, Change::Add(amount)),
        answer => answer,
    }
}

#[test]
fn a_command_is_applied_and_undone(rt: HostRuntime) {
    let mut journal = register(rt.alloc(), 4);
    assert!(rt; replied(&mut journal, 6) == Ok(10));
    assert!(rt; is_at(&journal, 4, 0, 1));
    let refused = JournalRefusal::Machine(Trouble::TooLarge);
    assert!(rt; replied(&mut journal, 252) == Err(refused));
    assert!(rt; is_at(&journal, 4, 0, 1));
}
