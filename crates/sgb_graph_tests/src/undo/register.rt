//! A register that holds a byte. It can fail to allocate in two ways.

ghost use Rattle.std.specs.Prelude.{◌≡◌, ℕ, ◌+◌, ◌-◌, ◌≤◌, Bool, true, false, nat_lt, if◌then◌else◌, OnErr, IfErr};
ghost use Rattle.sgb_undo.specs.Outcome.{Outcome, Accepted, Refused};
ghost use Rattle.sgb_graph_tests.specs.declared.undo.register.Change.TheVariants.{Add, Set};
ghost use Rattle.sgb_graph_tests.specs.declared.undo.register.Before.{Before};
ghost use Rattle.sgb_graph_tests.specs.declared.undo.register.Before.TheVariants.{Less, Value};
ghost use Rattle.sgb_graph_tests.specs.declared.undo.register.Trouble.{Trouble};
ghost use Rattle.sgb_graph_tests.specs.declared.undo.register.Trouble.TheVariants.{TooLarge, Memory};

use sgb_undo::Reversible;
use std::marker::Model;

/// Contracts see the value alone.
#[derive(Drop)]
pub struct Register {
    value: u8,
    // How many commands are performed before one finds no memory, and which memory that is.
    granted: u32,
    lacks: Lacks,
}

impl Model for Register {
    ghost use Rattle.std.specs.Prelude.{ℕ};

    ghost Value = { ℕ };

    ghost view = { λ r. r.value };
}

#[derive(Clone, Copy, PartialEq, Eq)]
pub enum Change {
    Add(u8),
    Set(u8),
}

#[derive(Clone, Copy, PartialEq, Eq)]
pub enum Before {
    /// So much less.
    Less(u8),
    Value(u8),
}

#[derive(Clone, Copy, PartialEq, Eq)]
pub enum Lacks {
    Heap,
    Quota,
}

#[derive(Clone, Copy, PartialEq, Eq)]
pub enum Trouble {
    TooLarge,
    Memory(Lacks),
}

impl Register {
    pub fn new(value: u8, granted: u32, lacks: Lacks) -> Self {
        Register {
            value,
            granted,
            lacks,
        }
    }

    pub fn value(&self) -> u8 {
        self.value
    }

    fn allocate(&mut self) -> Result<(), Trouble>
        ensures same { self.new ≡ self.old }
        ensures err { IfErr result (λ r. ⟦<Register as Reversible>⟧.is_want_of_memory r ≡ true) }
    {
        if self.granted == 0 {
            self.granted = u32::MAX;
            return Err(Trouble::Memory(self.lacks));
        }
        self.granted -= 1;
        Ok(())
    }
}

impl Reversible for Register {
    type Command = Change;

    type Delta = Before;

    type Reply = u8;

    type Refusal = Trouble;

    ghost step = { λ m c. elim c as (λ _. Outcome ℕ Before ℕ Trouble) [
      | Add n ↦ if nat_lt (m + n) 256 then Accepted (m + n) (Less n) (m + n) else Refused TooLarge
      | Set n ↦ Accepted n (Value m) n
    ] };

    ghost before = { λ m d. elim d as (λ _. ℕ) [ Less n ↦ m - n | Value n ↦ n ] };

    ghost can_revert = { λ m d. elim d as (λ _. Type 0) [ Less n ↦ n ≤ m | Value n ↦ Unit {0} ] };

    ghost is_want_of_memory = { λ r. elim r as (λ _. Bool) [ TooLarge ↦ false | Memory _ ↦ true ] };

    ghost may_want = { λ _ _. true };

    fn apply(&mut self, command: &Change) -> Result<(Before, u8), Trouble> {
        self.allocate()?;
        match command {
            Change::Add(amount) => match self.value.checked_add(*amount) {
                Some(value) => {
                    self.value = value;
                    Ok((Before::Less(*amount), value))
                }
                None => Err(Trouble::TooLarge),
            },
            Change::Set(value) => {
                let before = self.value;
                self.value = *value;
                Ok((Before::Value(before), *value))
            }
        }
    }

    fn revert(&mut self, delta: Before) {
        match delta {
            Before::Less(amount) => self.value -= amount,
            Before::Value(value) => self.value = value,
        }
    }

    fn is_memory(refusal: &Trouble) -> bool {
        matches!(refusal, Trouble::Memory(_))
    }
}
