//! How each command makes a new graph.
ghost use Rattle.std.specs.Prelude.{◌≡◌, ◌<◌, ◌^◌, ◌&&◌, [], false, true, is_ok};
ghost use Rattle.sgb_script.specs.declared.command.Maker.TheVariants.{Random};
ghost use Rattle.sgb_session.specs.Drawing.{drawn_from};
ghost use Rattle.sgb_session.specs.Make.{empty_graph, goes_on, operands, recipe_of};
ghost use Rattle.sgb_session.specs.Private.Making.{AnswersGraph, CanUnmake, Follows, MakesGraph, is_random, unmade};
ghost use Rattle.sgb_session.specs.State.{is_spent};
ghost use Rattle.sgb_session.specs.Table.{has_all};
ghost use Rattle.sgb_text.specs.Read.{begins_well, read_as};

use crate::boxed::Boxed;
use crate::mark::Mark;
use crate::reply::SingleDelta;
use crate::table::Table;
use sgb_combine::{complement, gunion, induced, intersection, product};
use sgb_graph::{Graph, Items, MOST_VERTICES, Refusal};
use sgb_make::{RandomSpec, Seed, binary, board, perms, simplex, subsets};
use sgb_script::Maker;
use sgb_text::{CheckRule, restore};
use std::alloc::Global;

/// Whether the table has each graph that a maker names.
pub(crate) fn has_operands(table: &Table, maker: &Maker) -> bool
    ensures { result ≡ has_all table.now (operands maker.now) }
{
    match maker {
        Maker::Complement(graph, _) => table.has(graph),
        Maker::Gunion(first, second, _) => table.has(first) && table.has(second),
        Maker::Intersection(first, second, _) => table.has(first) && table.has(second),
        Maker::Product(first, second, _) => table.has(first) && table.has(second),
        Maker::Induced(graph, _, _) => table.has(graph),
        _ => true,
    }
}

/// Whether a maker draws from the generator of the session, which goes on.
pub(crate) fn goes_on(maker: &Maker) -> bool
    ensures { result ≡ goes_on maker.now }
{
    matches!(maker, Maker::Random(_, Seed::Current))
}

/// Makes a graph, in a box.
pub(crate) fn make_boxed(
    alloc: Global,
    generator: &mut Mark,
    table: &Table,
    maker: &Maker,
) -> Result<(Boxed<Graph>, SingleDelta), Refusal>
    requires operands { has_all table.now (operands maker.now) ≡ true }
    requires fresh { (goes_on maker.now && is_spent generator.old) ≡ false }
    ensures { MakesGraph generator.old generator.new table.now maker.now result }
{
    let (graph, delta) = make_graph(alloc, generator, table, maker)?;
    match Boxed::new(alloc, graph) {
        Ok(boxed) => Ok((boxed, delta)),
        Err(_) => {
            unmake(generator, delta);
            Err(Refusal::NoRoom)
        }
    }
}

// Turns the generator back behind a graph that is not kept.
fn unmake(generator: &mut Mark, delta: SingleDelta)
    requires { CanUnmake delta generator.old }
    ensures { generator.new ≡ unmade delta generator.old }
{
    match delta {
        SingleDelta::MadeBy(source) => generator.turn_back(source),
        _other => {}
    }
}

fn make_graph(
    alloc: Global,
    generator: &mut Mark,
    table: &Table,
    maker: &Maker,
) -> Result<(Graph, SingleDelta), Refusal>
    requires operands { has_all table.now (operands maker.now) ≡ true }
    requires fresh { (goes_on maker.now && is_spent generator.old) ≡ false }
    ensures { MakesGraph generator.old generator.new table.now maker.now result }
{
    match maker {
        Maker::Random(spec, seed) => make_random(alloc, generator, spec, *seed),
        _ => Ok((make_still(alloc, table, maker)?, SingleDelta::Made)),
    }
}

// Makes a graph without the generator.
fn make_still(alloc: Global, table: &Table, maker: &Maker) -> Result<Graph, Refusal>
    requires operands { has_all table.now (operands maker.now) ≡ true }
    requires still { is_random maker.now ≡ false }
    ensures { Follows table.now (recipe_of maker.now) result }
{
    match maker {
        Maker::Empty(n) => make_empty(alloc, *n),
        Maker::Board(spec) => board(alloc, spec),
        Maker::Simplex(spec) => simplex(alloc, spec),
        Maker::Subsets(spec) => subsets(alloc, spec),
        Maker::Perms(spec) => perms(alloc, spec),
        Maker::Binary(spec) => binary(alloc, spec),
        Maker::Random(_, _) => unreachable!(),
        Maker::Complement(graph, spec) => complement(alloc, table.named(graph), spec),
        Maker::Gunion(first, second, spec) => {
            gunion(alloc, table.named(first), table.named(second), spec)
        }
        Maker::Intersection(first, second, directed) => {
            intersection(alloc, table.named(first), table.named(second), *directed)
        }
        Maker::Product(first, second, spec) => {
            product(alloc, table.named(first), table.named(second), spec)
        }
        Maker::Induced(graph, description, spec) => {
            induced(alloc, table.named(graph), description, spec)
        }
        Maker::Load(text, rule) => load(alloc, text, *rule),
    }
}

// A graph without arcs.
fn make_empty(alloc: Global, vertices: i64) -> Result<Graph, Refusal>
    ensures { AnswersGraph (is_ok (empty_graph vertices)) (empty_graph vertices) result }
{
    if vertices < 0 {
        return Err(Refusal::BadSpecs);
    }
    if vertices > i64::from(MOST_VERTICES) {
        return Err(Refusal::TooLarge);
    }
    Graph::new(alloc, vertices as u32)
}

// The graph that a text is read as.
fn load(alloc: Global, text: &Items<u8>, rule: CheckRule) -> Result<Graph, Refusal>
    ensures { AnswersGraph (begins_well text.now) (read_as rule text.now) result }
{
    restore(alloc, text.as_slice(), rule)
}

// A random graph, with what turns the generator back.
fn make_random(
    alloc: Global,
    generator: &mut Mark,
    spec: &RandomSpec,
    seed: Seed,
) -> Result<(Graph, SingleDelta), Refusal>
    requires { (drawn_from seed generator.old).draws < 2 ^ 62 }
    ensures { MakesGraph generator.old generator.new [] (Random spec.now seed) result }
{
    let (graph, source) = generator.random(alloc, spec, seed)?;
    Ok((graph, SingleDelta::MadeBy(source)))
}
