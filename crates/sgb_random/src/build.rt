//! The graph without its arcs or edges, and those that are inserted at the end.
ghost use Rattle.std.specs.Prelude.{◌≡◌, ◌≤◌, ◌<◌, ◌∷◌, [], All, map, None, IfOk, IfErr, length};
ghost use Rattle.std.specs.List.{range_with_len};
ghost use Rattle.sgb_graph.specs.Builder.{Inserts};
ghost use Rattle.sgb_graph.specs.Graph.{n_of};
ghost use Rattle.sgb_plan.specs.Plan.{Names};
ghost use Rattle.sgb_random.specs.Random.{random_id, refusal_of_random, numbered, size_of, wanted};
ghost use Rattle.sgb_random.specs.Private.Progress.{IsWithin, bare_builder, insertion_of};

use crate::RandomSpec;
use crate::progress::Edge;
use crate::spec::{vertices, wanted};
use sgb_graph::{Builder, Refusal, Text, Types, VertexNo};
use sgb_plan::{Part, Seed, append_dotted, id_of, label_of};
use std::alloc::Global;

// A graph with its vertices, and room for all that is to be inserted.
pub(crate) fn begin(alloc: Global, spec: &RandomSpec, seed: Seed) -> Result<Builder, Refusal>
    requires judged { refusal_of_random spec.now ≡ None }
    ensures ok { IfOk result (λ builder. builder ≡ bare_builder spec.now seed) }
    ensures err { IfErr result (λ e. e ≡ Refusal.NoRoom) }
{
    let (n, m) = (vertices(*spec), wanted(*spec));
    let id = random_id(alloc, spec, seed, n, m)?;
    let mut builder = Builder::new(alloc, id, Types::none(), spec.directed);
    builder.reserve_vertices(n as usize)?;
    name_vertices(&mut builder, alloc, n)?;
    builder.reserve(m as usize)?;
    Ok(builder)
}

fn random_id(alloc: Global, spec: &RandomSpec, seed: Seed, n: u32, m: u32) -> Result<Text, Refusal>
    requires size { n ≡ size_of spec.now }
    requires wanted { m ≡ wanted spec.now }
    ensures value { IfOk result (λ id. id ≡ random_id spec.now seed) }
    ensures short { IfOk result (λ id. length id ≤ 160) }
    ensures err { IfErr result (λ e. e ≡ Refusal.NoRoom) }
{
    let parts = [
        Part::Count(n),
        Part::Count(m),
        Part::Number(spec.multi.signum()),
        Part::Flag(spec.loops),
        Part::Flag(spec.directed),
        Part::Count(0),
        Part::Count(0),
        Part::Number(spec.min),
        Part::Number(spec.max),
        Part::Drawn(seed),
    ];
    id_of(alloc, "random_graph", &parts)
}

fn name_vertices(builder: &mut Builder, alloc: Global, n: u32) -> Result<(), Refusal>
    ensures { Names builder.old builder.new (map numbered (range_with_len 0 n)) result }
{
    let mut name = Vec::new(alloc);
    for v in 0..n {
        name.clear();
        append_dotted(&mut name, &[v])?;
        let label = label_of(alloc, &name)?;
        builder.push_named(label)?;
    }
    Ok(())
}

// Inserts what is listed.
pub(crate) fn insert_edges(builder: &mut Builder, edges: &[Edge]) -> Result<(), Refusal>
    requires { All (IsWithin (n_of builder.old.graph)) (map insertion_of edges.now) }
    ensures { Inserts builder.old builder.new (map insertion_of edges.now) result }
{
    for edge in edges {
        insert_edge(builder, *edge)?;
    }
    Ok(())
}

#[inline]
fn insert_edge(builder: &mut Builder, edge: Edge) -> Result<(), Refusal>
    requires from { edge.from < n_of builder.old.graph }
    requires to { edge.to < n_of builder.old.graph }
    ensures { Inserts builder.old builder.new (insertion_of edge ∷ []) result }
{
    builder.insert(VertexNo(edge.from), VertexNo(edge.to), edge.len)
}
