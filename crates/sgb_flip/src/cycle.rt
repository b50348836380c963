ghost use Rattle.std.specs.Prelude.{◌≡◌, ◌+◌, ◌*◌, ◌≤◌, ◌⊎◌, length};
ghost use Rattle.sgb_flip.specs.Generator.{AreSmall};
ghost use Rattle.sgb_flip.specs.Private.Halves.{AreHalves, whole};
ghost use Rattle.sgb_flip.specs.Private.Run.{IsRun};
ghost use Rattle.sgb_flip.specs.Sequence.{difference, terms_after};

use std::simd::prelude::*;

/// Turns 55 words into the next 55 of their sequence (`gb_flip_cycle`). A new word is needed for the
/// one 24 places on, three vectors of eight words away: so 48 words go by vectors, and seven remain.
#[cold]
#[inline(never)]
pub(crate) fn cycle(words: &mut [u32])
    requires count { length words.old ≡ 55 }
    requires small { AreSmall words.old }
    ensures batch { words.new ≡ terms_after words.old 55 }
    ensures small { AreSmall words.new }
{
    renew_vectors(words, 0, 31);
    renew_vectors(words, 24, 0);
    renew(words, 48, 24, 7);
}

/// Turns 55 words into the 55 before them of their sequence.
#[cold]
#[inline(never)]
pub(crate) fn uncycle(words: &mut [u32])
    requires count { length words.old ≡ 55 }
    requires small { AreSmall words.old }
    ensures batch { terms_after words.new 55 ≡ words.old }
    ensures small { AreSmall words.new }
{
    uncycle_by(words, 1);
}

/// Turns 55 words on by whole batches.
pub(crate) fn cycle_by(words: &mut [u32], batches: u64)
    requires count { length words.old ≡ 55 }
    requires small { AreSmall words.old }
    ensures batch { words.new ≡ terms_after words.old (55 * batches) }
    ensures small { AreSmall words.new }
{
    for _turn in 0..batches {
        cycle(words);
    }
}

/// Turns 55 words back by whole batches. Meanwhile they stand in two vectors: in memory each batch would
/// have to wait until the last one was written. They are reduced modulo 2^31 at the end.
pub(crate) fn uncycle_by(words: &mut [u32], batches: u64)
    requires count { length words.old ≡ 55 }
    requires small { AreSmall words.old }
    ensures batch { terms_after words.new (55 * batches) ≡ words.old }
    ensures small { AreSmall words.new }
{
    let mut low = u32x32::from_slice(words);
    let mut high = u32x32::from_slice(&words[23..]);
    for _turn in 0..batches {
        (low, high) = restored(low, high);
    }
    let mask = u32x32::splat(0x7fff_ffff);
    (high & mask).copy_to_slice(&mut words[23..]);
    (low & mask).copy_to_slice(words);
}

// Goes one batch back. Each word from the 25th on is joined with the one 24 places before it, and then each
// of the first 24 with the new one 31 places after it.
#[inline(always)]
fn restored(low: u32x32, high: u32x32) -> (u32x32, u32x32)
    requires halves { AreHalves low high }
    ensures halves { AreHalves result.0 result.1 }
    ensures batch { terms_after (whole result.0 result.1) 55 ≡ whole low high }
{
    let earlier_high = high + low.rotate_elements_right::<1>();
    let added = earlier_high.shuffle(
        low,
        [
            8, 9, 10, 11, 12, 13, 14, 15, 16, 17, 18, 19, 20, 21, 22, 23, 24, 25, 26, 27, 28, 29,
            30, 31, 32, 33, 34, 35, 36, 37, 38, 39,
        ],
    );
    (low + added, earlier_high)
}

// Takes the 24 words from `from` on off those from `at` on, by three vectors.
fn renew_vectors(words: &mut [u32], at: usize, from: usize)
    requires small { AreSmall words.old }
    requires to_end { at + 24 ≤ length words.old }
    requires from_end { from + 24 ≤ length words.old }
    requires apart { (from + 24 ≤ at) ⊎ (at + 24 ≤ from) }
    ensures run { IsRun difference at from 24 words.old words.new }
    ensures small { AreSmall words.new }
{
    for k in 0..3usize {
        renew_eight(words, at + 8 * k, from + 8 * k);
    }
}

// Takes eight words off eight others, lane by lane.
fn renew_eight(words: &mut [u32], at: usize, from: usize)
    requires small { AreSmall words.old }
    requires to_end { at + 8 ≤ length words.old }
    requires from_end { from + 8 ≤ length words.old }
    ensures run { IsRun difference at from 8 words.old words.new }
    ensures small { AreSmall words.new }
{
    let reduced = u32x8::from_slice(&words[at..]);
    let taken = u32x8::from_slice(&words[from..]);
    let renewed = (reduced - taken) & u32x8::splat(0x7fff_ffff);
    renewed.copy_to_slice(&mut words[at..]);
}

// Takes the words from `from` on off those from `at` on.
fn renew(words: &mut [u32], at: usize, from: usize, count: usize)
    requires small { AreSmall words.old }
    requires to_end { at + count ≤ length words.old }
    requires from_end { from + count ≤ length words.old }
    requires apart { (from + count ≤ at) ⊎ (at + count ≤ from) }
    ensures run { IsRun difference at from count words.old words.new }
    ensures small { AreSmall words.new }
{
    for k in 0..count {
        words[at + k] = (words[at + k] + 0x8000_0000 - words[from + k]) % 0x8000_0000;
    }
}
