//! The status of a program.
ghost use Rattle.std.specs.Prelude.{◌≡◌};
ghost use Rattle.sgb_shell.specs.Status.{status_of};

use sgb_print::RunFault;

/// The status that a program ends with: 0 where all went well, 1 where something was refused, and
/// 2 after a fault.
pub fn exit_status(outcome: &Result<bool, RunFault>) -> u8
    ensures { result ≡ status_of outcome.now }
{
    match outcome {
        Ok(true) => 0,
        Ok(false) => 1,
        Err(_) => 2,
    }
}
