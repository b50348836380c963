//! Induced graphs.
ghost use Rattle.std.specs.Prelude.{◌≡◌, ◌≤◌, Ok, IfErr, IfOk, IsErrOf, None, true, codes, length};
ghost use Rattle.sgb_plan.specs.Id.{id_of_one};
ghost use Rattle.sgb_plan.specs.Plan.{IsMade};
ghost use Rattle.sgb_induced.specs.Fate.{fates_of};
ghost use Rattle.sgb_induced.specs.Image.{have_names};
ghost use Rattle.sgb_induced.specs.Induced.{induced_plan, plan_of_induced, refusal_of_induced, words};

use crate::expand::insert_runs;
use crate::fate::{Fate, read_fates};
use crate::gather::gather_runs;
use crate::image::place_images;
use crate::name::{check_fates, name_vertices};
use sgb_graph::{Builder, Graph, Refusal, Text, Types, check_operand};
use sgb_plan::{Part, id_of_one};
use std::alloc::Global;

/// What an induced graph is asked for.
#[derive(Clone, Copy, Debug, PartialEq, Eq)]
pub struct InducedSpec {
    /// An arc may lead from a vertex to itself.
    pub loops: bool,
    /// All arcs between two vertices are kept, and not the first alone.
    pub multi: bool,
    /// The graph has arcs, and else edges.
    pub directed: bool,
}

/// The graph that the fields z of `graph` induce, `induced` of the Stanford GraphBase. The description, of at most 40
/// bytes, stands only in the id.
///
/// `Zero` drops a vertex, `Int(k)` makes k copies of it, and `Int(-k)` puts it in class k. The new vertices stand in
/// the order of `graph`: the copies of a vertex in its place, named as it is and from the second on `NAME:2`, `NAME:3`
/// and so on; a class as one vertex in the place and with the name of its first member. An arc from v to w makes one
/// from each image of v to each image of w, with its length; where `directed` is false, each edge of `graph` makes
/// such edges once. An arc from a vertex to itself is made with `loops` alone. Where `multi` is false, only the first
/// arc from one vertex to another is made, or the first edge between them, with the least length of those that it
/// stands for.
///
/// Refused `BadSpecs` where the description has more than 40 bytes; then `BadOperand` where an arc leads to no vertex,
/// where the field z of a vertex is a vertex, an arc or a text, or where the name of a copy would have more than 4,095
/// bytes; then `TooLarge` where there would be more than 65,535 vertices or 1,000,000 arcs.
pub fn induced(
    alloc: Global,
    graph: &Graph,
    description: &Text,
    spec: &InducedSpec,
) -> Result<Graph, Refusal>
    ensures made { IsMade (plan_of_induced graph.now description.now spec.now) result }
    ensures room { IsErrOf result Refusal.NoRoom → refusal_of_induced graph.now description.now ≡ None }
{
    if description.bytes().len() > 40 {
        return Err(Refusal::BadSpecs);
    }
    check_operand(graph)?;
    check_fates(graph)?;
    let fates = read_fates(alloc, graph)?;
    build_induced(alloc, graph, description, spec, &fates)
}

// The graph of the plan, whose names are none too long.
fn build_induced(
    alloc: Global,
    graph: &Graph,
    description: &Text,
    spec: &InducedSpec,
    fates: &[Fate],
) -> Result<Graph, Refusal>
    requires short { length description.now ≤ 40 }
    requires fates { fates.now ≡ fates_of graph.now }
    requires names { have_names graph.now fates.now ≡ true }
    ensures { IsMade (Ok (induced_plan graph.now description.now spec.now)) result }
{
    let _ = graph.n();
    let images = place_images(alloc, fates)?;
    let id = induced_id(alloc, graph, description, spec)?;
    let mut builder = Builder::new(alloc, id, Types::none(), spec.directed);
    name_vertices(&mut builder, alloc, graph, &images)?;
    let runs = gather_runs(alloc, graph, &images, spec.multi, spec.directed)?;
    builder.reserve(runs.len())?;
    insert_runs(&mut builder, &images, &runs, spec.loops, spec.directed)?;
    Ok(builder.finish())
}

// The id of the graph.
fn induced_id(
    alloc: Global,
    graph: &Graph,
    description: &Text,
    spec: &InducedSpec,
) -> Result<Text, Refusal>
    requires { length description.now ≤ 40 }
    ensures value { IfOk result (λ id. id ≡ id_of_one (codes "induced") graph.now.id (words description.now spec.now)) }
    ensures short { IfOk result (λ id. length id ≤ 160) }
    ensures err { IfErr result (λ e. e ≡ Refusal.NoRoom) }
{
    let parts = [
        Part::Word(description),
        Part::Flag(spec.loops),
        Part::Flag(spec.multi),
        Part::Flag(spec.directed),
    ];
    id_of_one(alloc, "induced", graph.id(), &parts)
}
