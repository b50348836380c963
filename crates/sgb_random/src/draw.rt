//! Random graphs from a generator, and from a seed.
ghost use Rattle.std.specs.Prelude.{◌≡◌, ◌≤◌, ◌<◌, ◌⊎◌, [], None, Ok, Err, IfOk, IfErr, OnOk, OnErr, int_le, int_lt, pos, true, length};
ghost use Rattle.std.specs.Result.{IsErrOf};
ghost use Rattle.sgb_flip.specs.Generator.{IsGenerator, after, seeded};
ghost use Rattle.sgb_graph.specs.Builder.{grown};
ghost use Rattle.sgb_plan.specs.Plan.{IsMade};
ghost use Rattle.sgb_random.specs.Random.{course, plan_of_random, refusal_of_random, wanted};
ghost use Rattle.sgb_random.specs.Private.Progress.{IsFresh, IsIndexed, IsLengths, bare_builder};
ghost use Rattle.sgb_random.specs.Private.Table.{IsFree};

use crate::RandomSpec;
use crate::attempt::attempt;
use crate::build::{begin, insert_edges};
use crate::pairs::Pairs;
use crate::progress::Progress;
use crate::spec::{judge, repeats, shortens, vertices, wanted};
use sgb_flip::Flip;
use sgb_graph::{Graph, Refusal};
use sgb_plan::{LengthRange, Seed};
use std::alloc::Global;

// After so many attempts a random graph is given up.
const MOST_ATTEMPTS: u32 = 10_000_000;

/// A random graph from the generator as it stands, and how many numbers were drawn for it. The seed only stands in the
/// id.
///
/// Refused `BadSpecs` where there is no vertex or `m` is below 0; then `TooLarge` where `min` is above `max`, and
/// `LengthRange` where they are 2^31 or more apart; then `TooLarge` where there are more than 65,535 vertices, or more
/// than 1,000,000 numbers for the arcs or edges; and `Stuck` where 10,000,000 attempts have not made them all. After a
/// refusal the generator is as before.
pub fn random(
    alloc: Global,
    flip: &mut Flip,
    spec: &RandomSpec,
    seed: Seed,
) -> Result<(Graph, u64), Refusal>
    ensures graph { IfOk result (λ made. IsMade (plan_of_random spec.now seed flip.old) (Ok made.0)) }
    ensures draws { IfOk result (λ made. made.1 ≡ (course spec.now flip.old).draws) }
    ensures few_draws { IfOk result (λ made. made.1 ≤ 54420000000) }
    ensures rest { IfOk result (λ made. flip.new ≡ after flip.old made.1) }
    ensures err { IfErr result (λ e. IsMade (plan_of_random spec.now seed flip.old) (Err e)) }
    ensures room { IsErrOf result Refusal.NoRoom → refusal_of_random spec.now ≡ None }
    ensures unchanged { OnErr result (flip.new ≡ flip.old) }
    ensures generator { IsGenerator flip.new }
{
    // It tells that the generator is one, also where nothing is drawn.
    let _ = flip.unread();
    let range = judge(*spec)?;
    let mut progress = start(alloc, spec, seed)?;
    match draw_graph(flip, spec, &range, &mut progress) {
        Ok(()) => Ok((progress.builder.finish(), progress.draws)),
        Err(refusal) => {
            flip.back_by(progress.draws);
            Err(refusal)
        }
    }
}

/// A random graph from the generator of the seed, that generator behind the draws, and how many these are
/// (`random_graph`). Refused as `random` is.
pub fn random_graph(
    alloc: Global,
    spec: &RandomSpec,
    seed: i64,
) -> Result<(Graph, Flip, u64), Refusal>
    ensures graph { IfOk result (λ made. IsMade (plan_of_random spec.now (Seed.Number seed) (seeded seed)) (Ok made.0)) }
    ensures rest { IfOk result (λ made. made.1 ≡ after (seeded seed) made.2) }
    ensures draws { IfOk result (λ made. made.2 ≡ (course spec.now (seeded seed)).draws) }
    ensures few_draws { IfOk result (λ made. made.2 ≤ 54420000000) }
    ensures err { IfErr result (λ e. IsMade (plan_of_random spec.now (Seed.Number seed) (seeded seed)) (Err e)) }
    ensures room { IsErrOf result Refusal.NoRoom → refusal_of_random spec.now ≡ None }
{
    let mut flip = Flip::new(seed);
    let (graph, draws) = random(alloc, &mut flip, spec, Seed::Number(seed))?;
    Ok((graph, flip, draws))
}

// Nothing is tried yet, and there is room for all that is wanted.
fn start(alloc: Global, spec: &RandomSpec, seed: Seed) -> Result<Progress, Refusal>
    requires judged { refusal_of_random spec.now ≡ None }
    ensures builder { IfOk result (λ p. p.builder ≡ bare_builder spec.now seed) }
    ensures edges { IfOk result (λ p. p.edges.items ≡ []) }
    ensures pairs { IfOk result (λ p. IsFree p.pairs) }
    ensures room { IfOk result (λ p. int_le spec.now.multi (pos 0) ≡ true → wanted spec.now < length p.pairs) }
    ensures numbers { IfOk result (λ p. int_lt spec.now.multi (pos 0) ≡ true →
        length p.numbers.items ≡ length p.pairs) }
    ensures made { IfOk result (λ p. p.made ≡ 0) }
    ensures draws { IfOk result (λ p. p.draws ≡ 0) }
    ensures err { IfErr result (λ e. e ≡ Refusal.NoRoom) }
{
    let builder = begin(alloc, spec, seed)?;
    let m = wanted(*spec);
    let listed = if shortens(*spec) { m } else { 0 };
    let places = places(spec, m);
    let numbers = numbers(spec, places);
    Ok(Progress {
        builder,
        edges: Vec::with_capacity(alloc, listed as usize)?,
        pairs: Pairs::new(alloc, places)?,
        numbers: vec![in alloc; 0u32; numbers as usize]?,
        made: 0,
        draws: 0,
    })
}

// How many places the table of the pairs has: a third of them stays free.
fn places(spec: &RandomSpec, m: u32) -> u32
    requires { m ≤ 1000000 }
    ensures { int_le spec.now.multi (pos 0) ≡ true → m < result }
{
    if repeats(*spec) { 0 } else { m + m / 2 + 1 }
}

// How many of them tell where an arc or edge is listed.
fn numbers(spec: &RandomSpec, places: u32) -> u32
    ensures { int_lt spec.now.multi (pos 0) ≡ true → result ≡ places }
{
    if shortens(*spec) { places } else { 0 }
}

// Draws the arcs or edges, until all are inserted. The draws are counted also where that is refused.
fn draw_graph(
    flip: &mut Flip,
    spec: &RandomSpec,
    range: &LengthRange,
    progress: &mut Progress,
) -> Result<(), Refusal>
    requires judged { refusal_of_random spec.now ≡ None }
    requires range { IsLengths spec.now range.now }
    requires fresh { IsFresh spec.now progress.old flip.old }
    ensures ok { OnOk result (progress.new.builder
        ≡ grown progress.old.builder (course spec.now flip.old).insertions) }
    ensures all { OnOk result (wanted spec.now ≤ (course spec.now flip.old).made) }
    ensures err { IfErr result (λ e. (e ≡ Refusal.NoRoom)
        ⊎ ((e ≡ Refusal.Stuck) × ((course spec.now flip.old).made < wanted spec.now))) }
    ensures draws { OnOk result (progress.new.draws ≡ (course spec.now flip.old).draws) }
    ensures rest { flip.new ≡ after flip.old progress.new.draws }
    ensures few_draws { progress.new.draws ≤ 54420000000 }
    ensures generator { IsGenerator flip.new }
{
    draw_all(flip, spec, range, progress)?;
    if shortens(*spec) {
        insert_edges(&mut progress.builder, &progress.edges)?;
    }
    Ok(())
}

// Attempts until all that is wanted is made.
fn draw_all(
    flip: &mut Flip,
    spec: &RandomSpec,
    range: &LengthRange,
    progress: &mut Progress,
) -> Result<(), Refusal>
    requires judged { refusal_of_random spec.now ≡ None }
    requires range { IsLengths spec.now range.now }
    requires fresh { IsFresh spec.now progress.old flip.old }
    ensures ok { OnOk result
        (IsIndexed spec.now progress.old.builder (course spec.now flip.old) progress.new flip.new) }
    ensures all { OnOk result (wanted spec.now ≤ (course spec.now flip.old).made) }
    ensures err { IfErr result (λ e. (e ≡ Refusal.NoRoom)
        ⊎ ((e ≡ Refusal.Stuck) × ((course spec.now flip.old).made < wanted spec.now))) }
    ensures rest { flip.new ≡ after flip.old progress.new.draws }
    ensures few_draws { progress.new.draws ≤ 54420000000 }
    ensures generator { IsGenerator flip.new }
{
    let m = wanted(*spec);
    let n = vertices(*spec);
    for _attempt in 0..MOST_ATTEMPTS {
        if progress.made >= m {
            return Ok(());
        }
        attempt(flip, spec, n, range, progress)?;
    }
    if progress.made < m {
        return Err(Refusal::Stuck);
    }
    Ok(())
}
