//! Machines whose commands can be taken back.

ghost use Rattle.std.specs.Prelude.{◌≡◌, ◌⊎◌, Bool, true, IfOk, IfErr, OnErr};
ghost use Rattle.sgb_undo.specs.Outcome.{Outcome, Accepted, Refused};

/// A machine that answers each accepted command with a reply and with a delta, from which the
/// value before the command can be had back.
///
/// Want of memory aside, its answer is a function of its value and the command.
pub trait Reversible: Drop {
    type Command: Drop;

    type Delta: Drop;

    type Reply: Drop;

    type Refusal: Drop;

    // The answer to a command, where no memory is wanting.
    ghost step: { Self → Self.Command → Outcome Self Self.Delta Self.Reply Self.Refusal };

    // The value that a delta leads back to.
    ghost before: { Self → Self.Delta → Self };

    // Whether the value can be led back by the delta.
    ghost can_revert: { Self → Self.Delta → Type 0 };

    ghost is_want_of_memory: { Self.Refusal → Bool };

    // Whether the command may want for memory at this value.
    ghost may_want: { Self → Self.Command → Bool };

    /// Performs a command, or refuses it and stays as it was.
    fn apply(
        &mut self,
        command: &Self::Command,
    ) -> Result<(Self::Delta, Self::Reply), Self::Refusal>
        ensures accepted { IfOk result (λ a. step self.old command.now ≡ Accepted self.new a.0 a.1) }
        ensures can_revert { IfOk result (λ a. can_revert self.new a.0) }
        ensures before { IfOk result (λ a. before self.new a.0 ≡ self.old) }
        ensures refused { IfErr result (λ r.
            ((is_want_of_memory r ≡ true) × (may_want self.old command.now ≡ true)) ⊎ (step self.old command.now ≡ Refused r)) }
        ensures err { OnErr result (self.new ≡ self.old) };

    /// Takes back the command that gave the delta. It takes no memory and is never refused.
    fn revert(&mut self, delta: Self::Delta)
        requires { can_revert self.old delta }
        ensures { self.new ≡ before self.old delta };

    /// Whether a refusal is for want of memory.
    fn is_memory(refusal: &Self::Refusal) -> bool
        ensures { result ≡ is_want_of_memory refusal.now };
}
