//! What the definition of a transcript comes to.
ghost use Rattle.std.specs.Prelude.{ℕ, List, IsSome};
ghost use Rattle.sgb_undo.specs.Replay.{fold};
ghost use Rattle.sgb_session.specs.Command.{step};
ghost use Rattle.sgb_session.specs.State.{empty};
ghost use Rattle.sgb_shell.specs.Transcript.{report};
ghost use Rattle.sgb_shell.specs.Unit.{ScriptUnit};

/// After any units, whichever of them lack memory, the standing commands are accepted one after another from the
/// empty session. So `state_of`, by which the next unit is answered, is always the state that they give.
pub fn transcript_law()
    ensures accepted { (no_room : List ℕ) (us : List ScriptUnit) → IsSome (fold step empty (report no_room us).lists.standing) }
{}
