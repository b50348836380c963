//! The session's generator: a seed and how many numbers were drawn since.
ghost use Rattle.std.specs.Prelude.{◌≡◌, ◌<◌, ◌≤◌, ◌^◌};
ghost use Rattle.sgb_flip.specs.Generator.{drawn, seed_number, uniform};
ghost use Rattle.sgb_session.specs.Drawing.{
  seeded_by,
  drawn_on,
  drawn_back,
  generator_of,
  drawn_from,
};
ghost use Rattle.sgb_session.specs.Source.{turned_back, CanTurnBack};
ghost use Rattle.sgb_session.specs.Private.Working.{DrawsRandom, MakesRandom, DrawsLengths, Lengthens};

use crate::reply::Source;
use sgb_combine::{LengthsDelta, LengthsSpec, random_lengths};
use sgb_flip::{Drawn, Flip};
use sgb_graph::{Graph, Refusal};
use sgb_make::{RandomSpec, Seed, random};
use std::alloc::Global;
use std::marker::Model;

/// A generator that was seeded and from which some numbers were drawn. It is copied like a number.
///
/// Contracts see the seed modulo 2^31 and the count of draws, which determine the generator.
#[derive(Clone, Copy, Debug, PartialEq, Eq, Drop)]
pub struct Mark {
    flip: Flip,
    seed: u32,
    draws: u64,
}

impl Model for Mark {
    ghost use Rattle.sgb_session.specs.Drawing.{Drawing, IsMark, generator_of};

    ghost Value = { Drawing };

    ghost view = { λ m. record { seed = m.seed; draws = m.draws } };

    ghost invariant = { λ m. IsMark m.flip (record { seed = m.seed; draws = m.draws }) };

    ghost inverse = { λ d. record { flip = generator_of d; seed = d.seed; draws = d.draws } };
}

impl Mark {
    /// The generator of a seed, from which nothing was drawn.
    pub fn new(seed: i64) -> Mark
        ensures { result ≡ seeded_by seed }
    {
        Mark {
            flip: Flip::new(seed),
            seed: number_of(seed),
            draws: 0,
        }
    }

    /// Draws one number below 2^31.
    #[inline]
    pub fn next(&mut self) -> u32
        requires { self.old.draws < 2 ^ 62 }
        ensures number { result ≡ drawn (generator_of self.old) 0 }
        ensures small { result < 2 ^ 31 }
        ensures rest { self.new ≡ drawn_on self.old 1 }
    {
        self.draws += 1;
        self.flip.next()
    }

    /// Draws a uniform number below `m`.
    pub fn uniform(&mut self, m: u32) -> Drawn
        requires positive { 1 ≤ m }
        requires small { m ≤ 2 ^ 31 }
        requires few { self.old.draws < 2 ^ 62 }
        ensures value { result.value ≡ (uniform (generator_of self.old) m).value }
        ensures draws { result.draws ≡ (uniform (generator_of self.old) m).draws }
        ensures bound { result.draws ≤ 1814 }
        ensures below { result.value < m }
        ensures rest { self.new ≡ drawn_on self.old result.draws }
    {
        let drawn = self.flip.uniform(m);
        self.draws += u64::from(drawn.draws);
        drawn
    }

    /// Takes back the last draws.
    pub fn back_by(&mut self, draws: u64)
        requires { draws ≤ self.old.draws }
        ensures { self.new ≡ drawn_back self.old draws }
    {
        self.draws -= draws;
        self.flip.back_by(draws);
    }

    /// Makes a random graph, of the numbers that come next, or with a number as the seed of the generator of this seed,
    /// which then takes this one's place; and answers what turns it back. After a refusal it is as before.
    pub(crate) fn random(
        &mut self,
        alloc: Global,
        spec: &RandomSpec,
        seed: Seed,
    ) -> Result<(Graph, Source), Refusal>
        requires { (drawn_from seed self.old).draws < 2 ^ 62 }
        ensures { MakesRandom spec.now seed self.old self.new result }
    {
        match seed {
            Seed::Number(number) => {
                let mut fresh = Mark::new(number);
                let (graph, _) = fresh.draw_random(alloc, spec, seed)?;
                let before = *self;
                *self = fresh;
                Ok((graph, Source::Seeded(before)))
            }
            Seed::Current => {
                let (graph, draws) = self.draw_random(alloc, spec, seed)?;
                Ok((graph, Source::Draws(draws)))
            }
        }
    }

    // Makes a random graph of the numbers that come next, and counts them. The seed only stands in the id.
    fn draw_random(
        &mut self,
        alloc: Global,
        spec: &RandomSpec,
        seed: Seed,
    ) -> Result<(Graph, u64), Refusal>
        requires { self.old.draws < 2 ^ 62 }
        ensures { DrawsRandom spec.now seed self.old self.new result }
    {
        let (graph, draws) = random(alloc, &mut self.flip, spec, seed)?;
        self.draws += draws;
        Ok((graph, draws))
    }

    /// Gives a graph random lengths, of the numbers that come next, or with a number as the seed of the generator of this
    /// seed, which then takes this one's place; and answers what gives back the lengths, and what turns it back. After a
    /// refusal the graph and the generator are as before.
    pub(crate) fn lengths(
        &mut self,
        alloc: Global,
        graph: &mut Graph,
        spec: &LengthsSpec,
        seed: Seed,
    ) -> Result<(LengthsDelta, Source), Refusal>
        requires { (drawn_from seed self.old).draws < 2 ^ 62 }
        ensures { Lengthens spec.now seed self.old self.new graph.old graph.new result }
    {
        match seed {
            Seed::Number(number) => {
                let mut fresh = Mark::new(number);
                let (delta, _) = fresh.draw_lengths(alloc, graph, spec, seed)?;
                let before = *self;
                *self = fresh;
                Ok((delta, Source::Seeded(before)))
            }
            Seed::Current => {
                let (delta, draws) = self.draw_lengths(alloc, graph, spec, seed)?;
                Ok((delta, Source::Draws(draws)))
            }
        }
    }

    // Gives a graph random lengths of the numbers that come next, and counts them. The seed only stands in the id.
    fn draw_lengths(
        &mut self,
        alloc: Global,
        graph: &mut Graph,
        spec: &LengthsSpec,
        seed: Seed,
    ) -> Result<(LengthsDelta, u64), Refusal>
        requires { self.old.draws < 2 ^ 62 }
        ensures { DrawsLengths spec.now seed self.old self.new graph.old graph.new result }
    {
        let (delta, drawn) = random_lengths(alloc, graph, &mut self.flip, spec, seed)?;
        self.draws += drawn;
        Ok((delta, drawn))
    }

    /// Turns the generator back behind random work.
    pub(crate) fn turn_back(&mut self, source: Source)
        requires { CanTurnBack source self.old }
        ensures { self.new ≡ turned_back source self.old }
    {
        match source {
            Source::Draws(draws) => self.back_by(draws),
            Source::Seeded(before) => *self = before,
        }
    }

    /// The seed, modulo 2^31.
    #[inline]
    pub fn seed(&self) -> u32
        ensures value { result ≡ self.now.seed }
        ensures small { result < 2 ^ 31 }
    {
        self.seed
    }

    /// How many numbers were drawn since the seeding.
    #[inline]
    pub fn draws(&self) -> u64
        ensures value { result ≡ self.now.draws }
        ensures few { result < 2 ^ 63 }
    {
        self.draws
    }

    /// How many words are unread, at most 54.
    #[inline]
    pub fn unread(&self) -> u32
        ensures { result ≡ (generator_of self.now).unread }
    {
        self.flip.unread()
    }
}

fn number_of(seed: i64) -> u32
    ensures value { result ≡ seed_number seed }
    ensures small { result < 2 ^ 31 }
{
    seed.rem_euclid(0x8000_0000) as u32
}
