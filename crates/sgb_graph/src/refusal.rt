//! What is refused, and how a refusal is told.
ghost use Rattle.std.specs.Prelude.{◌≡◌};
ghost use Rattle.sgb_graph.specs.Refusal.{number_of, text_of};

use std::alloc::{AllocError, AllocFailed};
use thiserror::Error;

/// A cause of refusal. Each has a number and a text.
#[derive(Clone, Copy, Debug, PartialEq, Eq, Error)]
pub enum Refusal {
    #[error("no room")]
    NoRoom,
    #[error("check number is wrong")]
    CheckWrong,
    #[error("bad saved graph")]
    Syntax,
    #[error("bad specification")]
    BadSpecs,
    #[error("length range too wide")]
    LengthRange,
    #[error("too large")]
    TooLarge,
    #[error("bad operand")]
    BadOperand,
    #[error("stuck")]
    Stuck,
}

impl Refusal {
    /// The number of the refusal.
    pub fn number(self) -> u8
        ensures { result ≡ number_of self }
    {
        match self {
            Refusal::NoRoom => 1,
            Refusal::CheckWrong => 11,
            Refusal::Syntax => 20,
            Refusal::BadSpecs => 30,
            Refusal::LengthRange => 31,
            Refusal::TooLarge => 40,
            Refusal::BadOperand => 60,
            Refusal::Stuck => 106,
        }
    }

    /// The text of the refusal, which `Display` prints too.
    pub fn text(self) -> &'static str
        ensures { result.now ≡ text_of self }
    {
        match self {
            Refusal::NoRoom => "no room",
            Refusal::CheckWrong => "check number is wrong",
            Refusal::Syntax => "bad saved graph",
            Refusal::BadSpecs => "bad specification",
            Refusal::LengthRange => "length range too wide",
            Refusal::TooLarge => "too large",
            Refusal::BadOperand => "bad operand",
            Refusal::Stuck => "stuck",
        }
    }
}

impl From<AllocError> for Refusal {
    ghost use Rattle.std.specs.Prelude.{◌≡◌};
    ghost use Rattle.sgb_graph.specs.declared.refusal.Refusal.TheVariants.{NoRoom};

    ghost from_gives = { λ _ r. r ≡ NoRoom };

    fn from(_e: AllocError) -> Refusal {
        Refusal::NoRoom
    }
}

impl<T: Drop> From<AllocFailed<T>> for Refusal {
    ghost use Rattle.std.specs.Prelude.{◌≡◌};
    ghost use Rattle.sgb_graph.specs.declared.refusal.Refusal.TheVariants.{NoRoom};

    ghost from_gives = { λ _ r. r ≡ NoRoom };

    fn from(_e: AllocFailed<T>) -> Refusal {
        Refusal::NoRoom
    }
}
