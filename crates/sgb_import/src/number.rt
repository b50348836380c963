//! Numbers as words spell them.
ghost use Rattle.std.specs.Prelude.{◌≡◌, ◌-◌, ◌^◌, min};
ghost use Rattle.std.specs.Option.{option_map};
ghost use Rattle.sgb_import.specs.Numbers.{natural_of, length_of};
ghost use Rattle.sgb_import.specs.Private.Signs.{positive_of, negative_of, negated_of};

use crate::lines::behind;

// What the least number of 64 bits is without its minus.
const LEAST: u64 = 1 << 63;

/// The number that a word spells by digits alone. One of more than 64 bits becomes the greatest of 64 bits.
pub(crate) fn natural(word: &[u8]) -> Option<u64>
    ensures { result ≡ option_map (λ n. min n (2 ^ 64 - 1)) (natural_of word.now) }
{
    if word.is_empty() {
        return None;
    }
    let mut value = 0u64;
    for digit in word {
        if !digit.is_ascii_digit() {
            return None;
        }
        value = value
            .saturating_mul(10)
            .saturating_add(u64::from(*digit - b'0'));
    }
    Some(value)
}

/// The number that a word spells by digits and a minus before them or none, if it fits in 64 bits.
pub(crate) fn length(word: &[u8]) -> Option<i64>
    ensures { result ≡ length_of word.now }
{
    match behind(b"-", word) {
        Some(digits) => negative(digits),
        None => positive(word),
    }
}

fn positive(digits: &[u8]) -> Option<i64>
    ensures { result ≡ positive_of digits.now }
{
    match natural(digits) {
        Some(number) => i64::try_from(number).ok(),
        None => None,
    }
}

fn negative(digits: &[u8]) -> Option<i64>
    ensures { result ≡ negative_of digits.now }
{
    match natural(digits) {
        Some(number) => negated(number),
        None => None,
    }
}

// The number with a minus, if it fits.
fn negated(number: u64) -> Option<i64>
    ensures { result ≡ negated_of number }
{
    if number == LEAST {
        return Some(i64::MIN);
    }
    match i64::try_from(number) {
        Ok(number) => Some(-number),
        Err(_) => None,
    }
}
