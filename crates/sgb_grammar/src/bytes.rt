//! The first byte or word of some bytes.
ghost use Rattle.std.specs.Prelude.{◌≡◌, ◌∷◌, [], MatchOption};
ghost use Rattle.sgb_grammar.specs.Reading.{after};
ghost use Rattle.sgb_grammar.specs.Private.Reading.{Passes};

use crate::Fault;

/// Returns the first byte and what follows it.
#[inline]
pub(crate) fn next(bytes: &[u8]) -> Option<(u8, &[u8])>
    ensures { MatchOption result (bytes.now ≡ []) (λ p. bytes.now ≡ p.0 ∷ p.1.now) }
{
    match bytes {
        [first, rest @ ..] => Some((*first, rest)),
        [] => None,
    }
}

/// Returns what follows the word, if the bytes begin with it.
#[inline]
pub(crate) fn after<'a>(word: &[u8], bytes: &'a [u8]) -> Result<&'a [u8], Fault>
    ensures { Passes result (after word.now bytes.now) }
{
    match bytes.strip_prefix(word) {
        Some(rest) => Ok(rest),
        None => Err(Fault::Syntax),
    }
}
