//! Unions.
ghost use Rattle.std.specs.Prelude.{◌≡◌, length, Ok, IsErrOf};
ghost use Rattle.sgb_graph.specs.Graph.{n_of};
ghost use Rattle.sgb_plan.specs.Plan.{IsMade, MayAllocate};
ghost use Rattle.sgb_combine.specs.Gunion.{union_at, gunion_plan, plan_of_gunion};

use crate::GunionSpec;
use crate::begin::{check_operands, room_of};
use crate::both::Both;
use crate::combination::{Combination, combine};
use crate::lowest::Lowest;
use crate::run::insert_spokes;
use sgb_graph::{Builder, Graph, Refusal, VertexNo};
use sgb_plan::{Part, id_of_two};
use std::alloc::Global;

/// The union of two graphs: the vertices of the first, and from each what its list in the first graph and then that in
/// the second, where that has the vertex, lead to among them, with its lengths. Where edges are made, what leads to a
/// smaller vertex and the second halves of loops are passed over. Without `multi` only the first that joins a pair is
/// inserted, with the least of their lengths. This is `gunion` of the GraphBase.
///
/// Refused `BadOperand` where an arc of a graph leads to no vertex, and then `TooLarge` where the union would give out
/// more than 1,000,000 arc numbers.
#[tactic(auto, using(sgb_plan::proofs::PlanRefusals::refused, sgb_plan::proofs::PlanRefusals::planned, sgb_plan::proofs::PlanRefusals::never_answered, crate::proofs::Starts::no_room_of_operands, crate::proofs::Starts::may_allocate_as))]
pub fn gunion(
    alloc: Global,
    first: &Graph,
    second: &Graph,
    spec: &GunionSpec,
) -> Result<Graph, Refusal>
    ensures made { IsMade (plan_of_gunion first.now second.now spec.now) result }
    ensures room { IsErrOf result Refusal.NoRoom → MayAllocate (plan_of_gunion first.now second.now spec.now) }
{
    let _ = first.n();
    check_operands(first, second)?;
    build_union(alloc, first, second, *spec)
}

// The union of operands that are not refused.
fn build_union(
    alloc: Global,
    first: &Graph,
    second: &Graph,
    spec: GunionSpec,
) -> Result<Graph, Refusal>
    ensures { IsMade (Ok (gunion_plan first.now second.now spec)) result }
{
    let flags = [Part::Flag(spec.multi), Part::Flag(spec.directed)];
    let id = id_of_two(alloc, "gunion", first.id(), second.id(), &flags)?;
    let room = room_for(first, second, spec.directed);
    let union = UnionSource {
        first,
        second,
        spec,
        both: Both::new(alloc),
        lowest: Lowest::new(alloc, first.n())?,
    };
    combine(alloc, id, first, spec.directed, room, union)
}

// For how many insertions there is to be room. Where the second graph has further vertices, it is not known how many of
// its arcs count.
fn room_for(first: &Graph, second: &Graph, directed: bool) -> usize {
    let own = room_of(first, directed);
    if second.n() > first.n() {
        own
    } else {
        own.saturating_add(room_of(second, directed))
    }
}

// Two graphs, and buffers for the arcs of one vertex in both.
#[derive(Drop)]
struct UnionSource<'a> {
    first: &'a Graph,
    second: &'a Graph,
    spec: GunionSpec,
    both: Both,
    lowest: Lowest,
}

impl<'a> Combination for UnionSource<'a> {
    ghost insertions_at = { λ c. union_at c.spec c.first.now c.second.now };

    ghost fits = { λ c n. (n_of c.first.now ≡ n) × (length c.lowest.places.items ≡ n) };

    fn insert_from(&mut self, builder: &mut Builder, vertex: VertexNo) -> Result<(), Refusal> {
        let directed = self.spec.directed;
        self.both
            .read(self.first, self.second, vertex, directed, directed)?;
        self.both.mine.extend_from_slice(&self.both.theirs)?;
        if self.spec.multi {
            return insert_spokes(builder, vertex, &self.both.mine);
        }
        self.lowest.keep(&self.both.mine)?;
        insert_spokes(builder, vertex, self.lowest.spokes())
    }
}
