//! Numbers.
ghost use Rattle.std.specs.Prelude.{◌≡◌, ◌==◌, ◌<◌, ◌^◌, slice_index, IfSome, Some};
ghost use Rattle.sgb_script.specs.Numbers.{natural_of, number_of, index_of, bits_of, is_yes, in_32_bits};

use std::str::from_utf8;

/// Any number of at most this many digits fits in 64 bits.
const SHORT: usize = 17;

/// A whole number: digits, with an optional minus before them.
pub(crate) fn number(word: &[u8]) -> Option<i64>
    ensures { result ≡ number_of word.now }
{
    match short_natural(word) {
        Some(number) => Some(number as i64),
        None => long_number(word),
    }
}

// The number, if these are digits alone and few of them.
fn short_natural(digits: &[u8]) -> Option<u64>
    ensures value { IfSome result (λ n. natural_of digits.now ≡ Some n) }
    ensures small { IfSome result (λ n. n < 10 ^ 17) }
{
    if digits.is_empty() || digits.len() > SHORT {
        return None;
    }
    let mut value = 0u64;
    for digit in digits {
        if !digit.is_ascii_digit() {
            return None;
        }
        value = value * 10 + u64::from(*digit - b'0');
    }
    Some(value)
}

// A number of any length.
fn long_number(word: &[u8]) -> Option<i64>
    ensures { result ≡ number_of word.now }
{
    if has_plus(word) {
        return None;
    }
    match from_utf8(word) {
        Ok(text) => text.parse().ok(),
        Err(_) => None,
    }
}

/// The k of `Vk` or `Ak`: digits alone.
pub(crate) fn index(digits: &[u8]) -> Option<i64>
    ensures { result ≡ index_of digits.now }
{
    if has_minus(digits) {
        return None;
    }
    number(digits)
}

/// A number below 2^64: digits alone.
pub(crate) fn bits(digits: &[u8]) -> Option<u64>
    ensures { result ≡ bits_of digits.now }
{
    if has_plus(digits) {
        return None;
    }
    match from_utf8(digits) {
        Ok(text) => text.parse().ok(),
        Err(_) => None,
    }
}

/// Whether a flag is set: every number but 0 is.
pub(crate) fn is_yes(flag: i64) -> bool
    ensures { result ≡ is_yes flag }
{
    flag != 0
}

/// The number as a `u32`; numbers out of range give `u32::MAX`.
pub(crate) fn in_32_bits(number: i64) -> u32
    ensures { result ≡ in_32_bits number }
{
    match u32::try_from(number) {
        Ok(small) => small,
        Err(_) => u32::MAX,
    }
}

fn has_plus(word: &[u8]) -> bool
    ensures { result ≡ (slice_index word.now 0 == 43) }
{
    word.first() == Some(&b'+')
}

fn has_minus(word: &[u8]) -> bool
    ensures { result ≡ (slice_index word.now 0 == 45) }
{
    word.first() == Some(&b'-')
}
