//! Why bytes cannot be read.
use std::alloc::{AllocError, AllocFailed};

/// Why bytes cannot be read.
#[derive(Clone, Copy, Debug, PartialEq, Eq)]
pub enum Fault {
    /// What they spell could not be allocated.
    NoRoom,
    /// They do not follow the grammar.
    Syntax,
}

impl From<AllocError> for Fault {
    ghost use Rattle.std.specs.Prelude.{◌≡◌};
    ghost use Rattle.sgb_grammar.specs.declared.fault.Fault.TheVariants.{NoRoom};

    ghost from_gives = { λ _ f. f ≡ NoRoom };

    fn from(_e: AllocError) -> Fault {
        Fault::NoRoom
    }
}

impl<T: Drop> From<AllocFailed<T>> for Fault {
    ghost use Rattle.std.specs.Prelude.{◌≡◌};
    ghost use Rattle.sgb_grammar.specs.declared.fault.Fault.TheVariants.{NoRoom};

    ghost from_gives = { λ _ f. f ≡ NoRoom };

    fn from(_e: AllocFailed<T>) -> Fault {
        Fault::NoRoom
    }
}
