ghost use Rattle.std.specs.Prelude.{◌≡◌, ◌<◌, ◌≤◌, ◌^◌, ◌↔◌, IsSome, IfSome, IsTrue, length};
ghost use Rattle.sgb_flip.specs.Generator.{AreSmall, Generator, IsGenerator, IsUniform, after, drawn, seeded, uniform};

use crate::cycle::{cycle, cycle_by, uncycle, uncycle_by};
use crate::seeding::{fill, number_of};
use std::marker::Model;

/// A generator of numbers below 2^31: 55 words, of which at most 54 are unread.
///
/// Contracts see it as a `Generator` of `specs/Generator.antt`, the words and the count of unread
/// ones. It is copied like a number.
#[derive(Clone, Copy, Debug, PartialEq, Eq, Drop)]
pub struct Flip {
    words: [u32; 55],
    unread: u32,
}

/// A uniform number and how many numbers were drawn for it, at most 1,814.
#[derive(Clone, Copy, Debug, PartialEq, Eq, Drop)]
pub struct Drawn {
    /// The number, below the bound that was asked for.
    pub value: u32,
    /// How many draws it took, the last of them accepted.
    pub draws: u32,
}

impl Model for Flip {
    ghost use Rattle.sgb_flip.specs.Generator.{Generator, IsGenerator};

    ghost Value = { Generator };

    ghost view = { λ f. record { words = f.words; unread = f.unread } };

    ghost invariant = { λ f. IsGenerator (record { words = f.words; unread = f.unread }) };

    ghost inverse = { λ w. record { words = w.words; unread = w.unread } };
}

impl Flip {
    /// The generator of a seed, which counts modulo 2^31 (`gb_init_rand`).
    pub fn new(seed: i64) -> Flip
        ensures seeded { result ≡ seeded seed }
        ensures generator { IsGenerator result }
    {
        let mut words = [0u32; 55];
        fill(&mut words, number_of(seed));
        cycle_by(&mut words, 5);
        Flip { words, unread: 54 }
    }

    /// The generator with these very words, each below 2^31, of which `unread`, at most 54, are
    /// unread; `None` where a word or the count is larger.
    pub fn from_words(words: [u32; 55], unread: u32) -> Option<Flip>
        ensures some { IfSome result (λ flip. flip ≡ record { words = words; unread = unread }) }
        ensures when { IsSome result ↔ IsGenerator (record { words = words; unread = unread }) }
    {
        if unread < 55 && are_small(&words) {
            Some(Flip { words, unread })
        } else {
            None
        }
    }

    /// The 55 words, each below 2^31.
    pub fn words(&self) -> [u32; 55]
        ensures value { result ≡ self.now.words }
        ensures generator { IsGenerator self.now }
    {
        let Flip { words, .. } = self;
        *words
    }

    /// How many words are unread, at most 54. They are drawn from the last of them down to the first.
    pub fn unread(&self) -> u32
        ensures value { result ≡ self.now.unread }
        ensures generator { IsGenerator self.now }
    {
        let Flip { unread, .. } = self;
        *unread
    }

    /// Draws one number below 2^31 (`gb_next_rand`).
    #[inline]
    pub fn next(&mut self) -> u32
        ensures number { result ≡ drawn self.old 0 }
        ensures rest { self.new ≡ after self.old 1 }
        ensures generator { IsGenerator self.new }
        ensures small { result < 2 ^ 31 }
    {
        if self.unread == 0 {
            cycle(&mut self.words);
            self.unread = 55;
        }
        self.unread -= 1;
        self.words[self.unread as usize]
    }

    /// Takes one draw back: goes to the one state from which a draw leads here. It is there for every
    /// state, also before the seeding.
    #[inline]
    pub fn back(&mut self)
        ensures before { after self.new 1 ≡ self.old }
        ensures generator { IsGenerator self.new }
        ensures only { (v : Generator) → IsGenerator v → after v 1 ≡ self.old → v ≡ self.new }
    {
        if self.unread == 54 {
            uncycle(&mut self.words);
            self.unread = 0;
        } else {
            self.unread += 1;
        }
    }

    /// Takes `n` draws back: goes to the one state from which `n` draws lead here. Whole batches of 55
    /// draws are turned back at once.
    pub fn back_by(&mut self, n: u64)
        ensures before { after self.new n ≡ self.old }
        ensures generator { IsGenerator self.new }
        ensures only { (v : Generator) → IsGenerator v → after v n ≡ self.old → v ≡ self.new }
    {
        let part = self.unread + (n % 55) as u32;
        let batches = n / 55 + (part / 55) as u64;
        uncycle_by(&mut self.words, batches);
        self.unread = part % 55;
    }

    /// Draws a uniform number below `m`, from 1 to 2^31 (`gb_unif_rand`): the first number drawn that is
    /// below the greatest multiple of `m` up to 2^31, modulo `m`. That takes at most 1,814 draws from
    /// every state, and it never gives up.
    pub fn uniform(&mut self, m: u32) -> Drawn
        requires positive { 1 ≤ m }
        requires small { m ≤ 2 ^ 31 }
        ensures relation { IsUniform self.old m result.value result.draws self.new }
        ensures value { result.value ≡ (uniform self.old m).value }
        ensures draws { result.draws ≡ (uniform self.old m).draws }
        ensures rest { self.new ≡ (uniform self.old m).rest }
        ensures generator { IsGenerator self.new }
        ensures below { result.value < m }
    {
        // That opens the invariant to the proof, and does nothing.
        let _ = &self.words;
        let limit = 0x8000_0000 - 0x8000_0000 % m;
        for refused in 0..1814u32 {
            let number = self.next();
            if number < limit {
                return Drawn {
                    value: number % m,
                    draws: refused + 1,
                };
            }
        }
        unreachable!()
    }
}

// Each word is below 2^31.
fn are_small(words: &[u32]) -> bool
    ensures { IsTrue result ↔ AreSmall words.now }
{
    words.iter().all(|word| *word < 0x8000_0000)
}
