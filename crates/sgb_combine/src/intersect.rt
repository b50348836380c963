//! Intersections.
ghost use Rattle.std.specs.Prelude.{◌≡◌, ◌<◌, length, All, Ok, IsErrOf};
ghost use Rattle.std.specs.List.{flat_map};
ghost use Rattle.sgb_graph.specs.Graph.{IsGraph, n_of};
ghost use Rattle.sgb_graph.specs.Builder.{Inserts};
ghost use Rattle.sgb_graph.specs.Operand.{IsWithin};
ghost use Rattle.sgb_plan.specs.Plan.{IsMade, MayAllocate};
ghost use Rattle.sgb_combine.specs.Intersection.{longer, joints, intersection_at, intersection_plan, plan_of_intersection};

use crate::begin::{check_operands, room_of};
use crate::both::Both;
use crate::combination::{Combination, combine};
use crate::lowest::Lowest;
use crate::run::insert_spoke;
use sgb_graph::{Builder, Graph, Refusal, Spoke, VertexNo};
use sgb_plan::{Part, id_of_two};
use std::alloc::Global;

/// The intersection of two graphs: the vertices of the first, and from each one arc or edge to each that it is joined
/// to in both graphs, in the order of its list in the first. Its length is the larger of the least length in the first
/// graph and the least in the second. Edges are made from their smaller end on, whose lists alone are asked. This is
/// `intersection` of the GraphBase, with its `multi` always 0.
///
/// Refused `BadOperand` where an arc of a graph leads to no vertex, and then `TooLarge` where the intersection would
/// give out more than 1,000,000 arc numbers.
#[tactic(auto, using(sgb_plan::proofs::PlanRefusals::refused, sgb_plan::proofs::PlanRefusals::planned, sgb_plan::proofs::PlanRefusals::never_answered, crate::proofs::Starts::no_room_of_operands, crate::proofs::Starts::may_allocate_as))]
pub fn intersection(
    alloc: Global,
    first: &Graph,
    second: &Graph,
    directed: bool,
) -> Result<Graph, Refusal>
    ensures made { IsMade (plan_of_intersection first.now second.now directed) result }
    ensures room { IsErrOf result Refusal.NoRoom → MayAllocate (plan_of_intersection first.now second.now directed) }
{
    let _ = first.n();
    check_operands(first, second)?;
    build_intersection(alloc, first, second, directed)
}

// The intersection of operands that are not refused.
fn build_intersection(
    alloc: Global,
    first: &Graph,
    second: &Graph,
    directed: bool,
) -> Result<Graph, Refusal>
    ensures { IsMade (Ok (intersection_plan first.now second.now directed)) result }
{
    let flags = [Part::Flag(false), Part::Flag(directed)];
    let id = id_of_two(alloc, "intersection", first.id(), second.id(), &flags)?;
    let room = room_of(first, directed).min(room_of(second, directed));
    let intersection = IntersectionSource {
        first,
        second,
        directed,
        both: Both::new(alloc),
        mine: Lowest::new(alloc, first.n())?,
        theirs: Lowest::new(alloc, first.n())?,
    };
    combine(alloc, id, first, directed, room, intersection)
}

// Two graphs, and buffers for the arcs of one vertex in both.
#[derive(Drop)]
struct IntersectionSource<'a> {
    first: &'a Graph,
    second: &'a Graph,
    directed: bool,
    both: Both,
    mine: Lowest,
    theirs: Lowest,
}

impl<'a> Combination for IntersectionSource<'a> {
    ghost insertions_at = { λ c. intersection_at c.directed c.first.now c.second.now };

    ghost fits = { λ c n. IsGraph c.first.now × (n_of c.first.now ≡ n) × (length c.mine.places.items ≡ n) × (length c.theirs.places.items ≡ n) };

    fn insert_from(&mut self, builder: &mut Builder, vertex: VertexNo) -> Result<(), Refusal> {
        self.both
            .read(self.first, self.second, vertex, true, self.directed)?;
        self.mine.keep(&self.both.mine)?;
        self.theirs.keep(&self.both.theirs)?;
        insert_joints(builder, vertex, self.mine.spokes(), &self.theirs)
    }
}

fn insert_joints(
    builder: &mut Builder,
    vertex: VertexNo,
    firsts: &[Spoke],
    others: &Lowest,
) -> Result<(), Refusal>
    requires from { vertex.0 < n_of builder.old.graph }
    requires to { All (IsWithin (n_of builder.old.graph)) firsts.now }
    ensures { Inserts builder.old builder.new (flat_map (joints vertex.0 others.now.spokes.items) firsts.now) result }
{
    for spoke in firsts {
        insert_joint(builder, vertex, *spoke, others)?;
    }
    Ok(())
}

// Inserts along the spoke, where one of the others leads to the same vertex.
fn insert_joint(
    builder: &mut Builder,
    vertex: VertexNo,
    spoke: Spoke,
    others: &Lowest,
) -> Result<(), Refusal>
    requires from { vertex.0 < n_of builder.old.graph }
    requires to { spoke.to < n_of builder.old.graph }
    ensures { Inserts builder.old builder.new (joints vertex.0 others.now.spokes.items spoke) result }
{
    match others.find(spoke.to) {
        Some(other) => insert_spoke(builder, vertex, longer(spoke, other)),
        None => Ok(()),
    }
}

// The spoke, with the other's length where that is more.
#[inline]
fn longer(spoke: Spoke, other: Spoke) -> Spoke
    ensures { result ≡ longer spoke other }
{
    Spoke {
        to: spoke.to,
        len: spoke.len.max(other.len),
    }
}
