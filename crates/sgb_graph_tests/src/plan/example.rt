//! Paths: a small generator, as an example of how one is written and proved over plans.
ghost use Rattle.std.specs.Prelude.{◌≡◌, ◌-◌, map};
ghost use Rattle.std.specs.List.{range_with_len};
ghost use Rattle.sgb_graph.specs.Builder.{Inserts};
ghost use Rattle.sgb_graph.specs.Graph.{n_of};
ghost use Rattle.sgb_plan.specs.Plan.{IsMade, Names};
ghost use Rattle.sgb_graph_tests.specs.Path.{path_vertex, path_step, plan_of_path};

use sgb_graph::{Builder, Graph, Label, Refusal, Types, Util, VertexNo};
use sgb_plan::{Part, dotted, id_of};
use std::alloc::Global;

/// A path of `n` vertices, each joined to the next by an arc or an edge of length 1. Refused `BadSpecs` where `n` is 0.
pub fn path(alloc: Global, n: u32, directed: bool) -> Result<Graph, Refusal>
    ensures { IsMade (plan_of_path n directed) result }
{
    if n == 0 {
        return Err(Refusal::BadSpecs);
    }
    let id = id_of(alloc, "path", &[Part::Count(n)])?;
    let mut builder = Builder::new(alloc, id, Types::none(), directed);
    name_vertices(&mut builder, alloc, n)?;
    insert_steps(&mut builder, n)?;
    Ok(builder.finish())
}

fn name_vertices(builder: &mut Builder, alloc: Global, n: u32) -> Result<(), Refusal>
    ensures { Names builder.old builder.new (map path_vertex (range_with_len 0 n)) result }
{
    for v in 0..n {
        let label = dotted(alloc, &[v])?;
        let fields = [
            Util::Zero,
            Util::Zero,
            Util::Zero,
            Util::Zero,
            Util::Zero,
            Util::Zero,
        ];
        builder.push_vertex(Label::new(label), fields)?;
    }
    Ok(())
}

fn insert_steps(builder: &mut Builder, n: u32) -> Result<(), Refusal>
    requires { n_of builder.old.graph ≡ n }
    ensures { Inserts builder.old builder.new (map path_step (range_with_len 0 (n - 1))) result }
{
    for v in 0..n.saturating_sub(1) {
        builder.insert(VertexNo(v), VertexNo(v + 1), 1)?;
    }
    Ok(())
}
