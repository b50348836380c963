use sgb_undo::{Journal, JournalRefusal, Reversible};
use std::marker::Model;

/// The greatest value of a counter.
const LIMIT: u32 = 100;

/// Contracts see the value.
#[derive(Drop)]
struct Counter {
    value: u32,
}

impl Model for Counter {
    ghost use Rattle.std.specs.Prelude.{ℕ};

    ghost Value = { ℕ };

    ghost view = { λ counter. counter.value };
}

#[derive(Debug, Drop, PartialEq, Eq)]
enum Command {
    Add(u32),
    Clear,
}

/// What undoing a command needs: the amount that was added, or the value before the counter was cleared.
#[derive(Drop)]
enum Delta {
    Added(u32),
    Cleared(u32),
}

#[derive(Clone, Copy, Debug, PartialEq, Eq)]
enum Refusal {
    AboveLimit,
}

impl Reversible for Counter {
    ghost use Rattle.sgb_library_tests.specs.Counter.{step, before, can_revert, is_want_of_memory, may_want};

    type Command = Command;

    type Delta = Delta;

    type Reply = u32;

    type Refusal = Refusal;

    ghost step = { step };

    ghost before = { before };

    ghost can_revert = { can_revert };

    ghost is_want_of_memory = { is_want_of_memory };

    ghost may_want = { may_want };

    fn apply(&mut self, command: &Command) -> Result<(Delta, u32), Refusal> {
        let before = self.value;
        match command {
            Command::Add(amount) => match before.checked_add(*amount) {
                Some(sum) if sum <= LIMIT => {
                    self.value = sum;
                    Ok((Delta::Added(*amount), sum))
                }
                _ => Err(Refusal::AboveLimit),
            },
            Command::Clear => {
                self.value = 0;
                Ok((Delta::Cleared(before), 0))
            }
        }
    }

    fn revert(&mut self, delta: Delta) {
        match delta {
            Delta::Added(amount) => self.value -= amount,
            Delta::Cleared(value) => self.value = value,
        }
    }

    fn is_memory(refusal: &Refusal) -> bool {
        match refusal {
            Refusal::AboveLimit => false,
        }
    }
}

/// The value of a counter, and how many commands stand.
fn value_of(journal: &Journal<Counter>) -> (u32, usize) {
    (journal.machine().value, journal.standing())
}

#[test]
fn a_counter_is_undone_and_redone(rt: HostRuntime) {
    let mut journal = Journal::new(rt.alloc(), Counter { value: 0 });
    assert!(rt; journal.apply(Command::Add(70)) == Ok(70));
    let refused = JournalRefusal::Machine(Refusal::AboveLimit);
    assert!(rt; journal.apply(Command::Add(31)) == Err(refused));
    assert!(rt; journal.apply(Command::Clear) == Ok(0));
    assert!(rt; value_of(&journal) == (0, 2));
    assert!(rt; journal.undo().is_ok());
    assert!(rt; value_of(&journal) == (70, 1));
    assert!(rt; journal.redo() == Ok(0));
}
