//! Numbers in a saved text.
ghost use Rattle.std.specs.Prelude.{◌≡◌, ◌<◌, ◌≤◌, ◌+◌, ◌-◌, ◌*◌, ◌^◌, min, take, length, IfOk, FitsSigned};
ghost use Rattle.std.specs.Int.{w64};
ghost use Rattle.std.specs.Option.{option_and_then};
ghost use Rattle.std.specs.Str.Parse.{digits_value};
ghost use Rattle.sgb_grammar.specs.Reading.{Spells};
ghost use Rattle.sgb_grammar.specs.Private.Reading.{Capped};
ghost use Rattle.sgb_grammar.specs.Number.{digits_in, digits_at, count_at, number_at, positive_of, negative_of};

use crate::Fault;
use crate::bytes::after;

/// The least number beyond `i64`.
const BOUND: u64 = 1 << 63;

/// A number of so many digits fits in a `u64`.
const FITTING: usize = 19;

/// Reads digits that spell a number below 2^63.
#[tactic(auto, unfolding(crate::specs::Number::count_at))]
pub(crate) fn count(bytes: &[u8]) -> Result<(u64, &[u8]), Fault>
    ensures read { Spells result (count_at bytes.now) }
    ensures small { IfOk result (λ p. p.0 < 2 ^ 63) }
{
    match magnitude(bytes) {
        Some((value, rest)) => {
            if value < BOUND {
                Ok((value, rest))
            } else {
                Err(Fault::Syntax)
            }
        }
        None => Err(Fault::Syntax),
    }
}

/// Reads digits, with a minus before them or none, that spell an `i64`.
#[tactic(auto, unfolding(crate::specs::Number::number_at))]
pub(crate) fn number(bytes: &[u8]) -> Result<(i64, &[u8]), Fault>
    ensures read { Spells result (number_at bytes.now) }
    ensures range { IfOk result (λ p. FitsSigned w64 p.0) }
{
    match after(b"-", bytes) {
        Ok(digits) => negative(digits),
        Err(_) => positive(bytes),
    }
}

fn positive(bytes: &[u8]) -> Result<(i64, &[u8]), Fault>
    ensures read { Spells result (option_and_then positive_of (digits_at bytes.now)) }
    ensures range { IfOk result (λ p. FitsSigned w64 p.0) }
{
    match magnitude(bytes) {
        Some((value, rest)) => {
            if value < BOUND {
                Ok((value as i64, rest))
            } else {
                Err(Fault::Syntax)
            }
        }
        None => Err(Fault::Syntax),
    }
}

// Reads digits that stand behind a minus.
fn negative(digits: &[u8]) -> Result<(i64, &[u8]), Fault>
    ensures read { Spells result (option_and_then negative_of (digits_at digits.now)) }
    ensures range { IfOk result (λ p. FitsSigned w64 p.0) }
{
    match magnitude(digits) {
        Some((value, rest)) => {
            if value < BOUND {
                Ok((-(value as i64), rest))
            } else if value == BOUND {
                Ok((i64::MIN, rest))
            } else {
                Err(Fault::Syntax)
            }
        }
        None => Err(Fault::Syntax),
    }
}

// Reads the digits at the front, if there are any. A number beyond `u64` saturates.
fn magnitude(bytes: &[u8]) -> Option<(u64, &[u8])>
    ensures { Capped result (digits_at bytes.now) }
{
    let (count, value) = digits_of(bytes);
    if count == 0 {
        return None;
    }
    let (_, rest) = bytes.split_at(count);
    Some((value, rest))
}

// Returns how many digits there are at the front, and the number that they spell, at most 2^64 - 1.
fn digits_of(bytes: &[u8]) -> (usize, u64)
    ensures count { result.0 ≡ digits_in bytes.now }
    ensures within { result.0 ≤ length bytes.now }
    ensures value { result.1 ≡ min (digits_value 10 (take result.0 bytes.now)) (2 ^ 64 - 1) }
{
    let mut value = 0u64;
    'digits: for (i, byte) in bytes.iter().enumerate() {
        if !byte.is_ascii_digit() {
            return (i, value);
        }
        value = with_digit(value, i, u64::from(*byte - b'0'));
    }
    (bytes.len(), value)
}

// Appends a digit to the number that `count` digits spell; at most 2^64 - 1. Few digits need no check of the size.
#[inline]
fn with_digit(value: u64, count: usize, digit: u64) -> u64
    requires value { value < 10 ^ count }
    requires digit { digit < 10 }
    ensures value { result ≡ min (value * 10 + digit) (2 ^ 64 - 1) }
    ensures small { result < 10 ^ (count + 1) }
{
    if count < FITTING {
        value * 10 + digit
    } else {
        value.saturating_mul(10).saturating_add(digit)
    }
}
