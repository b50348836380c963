//! Complements.
ghost use Rattle.std.specs.Prelude.{◌≡◌, ◌<◌, length, map, All, Ok, OnOk, IsErrOf, true};
ghost use Rattle.std.specs.List.{filter};
ghost use Rattle.sgb_graph.specs.Graph.{n_of};
ghost use Rattle.sgb_graph.specs.Builder.{Inserts};
ghost use Rattle.sgb_plan.specs.Plan.{IsMade, MayAllocate};
ghost use Rattle.sgb_combine.specs.Complement.{is_wanted, unit_step, wanted_steps, complement_at, complement_plan, plan_of_complement};
ghost use Rattle.sgb_combine.specs.Private.Targets.{IsInOrder};

use crate::ComplementSpec;
use crate::begin::room_of;
use crate::combination::{Combination, combine};
use crate::lowest::Lowest;
use sgb_graph::{Builder, Graph, Refusal, Spoke, VertexNo, check_operand, read_spokes};
use sgb_plan::{Part, id_of_one};
use std::alloc::{AllocError, Global};

/// The complement of a graph: its vertices, and an arc or an edge of length 1 for each pair of them that no arc joins,
/// or with `copy` for each pair that one joins; a vertex is joined to itself only with `loops`. Edges are made from
/// their smaller end on, whose arcs alone are asked. This is `complement` of the GraphBase.
///
/// Refused `BadOperand` where an arc of the graph leads to no vertex, and then `TooLarge` where the complement would
/// give out more than 1,000,000 arc numbers.
#[tactic(auto, using(sgb_plan::proofs::PlanRefusals::refused, sgb_plan::proofs::PlanRefusals::planned, sgb_plan::proofs::PlanRefusals::never_answered, crate::proofs::Starts::no_room_of_operand, crate::proofs::Starts::may_allocate_as))]
pub fn complement(alloc: Global, graph: &Graph, spec: &ComplementSpec) -> Result<Graph, Refusal>
    ensures made { IsMade (plan_of_complement graph.now spec.now) result }
    ensures room { IsErrOf result Refusal.NoRoom → MayAllocate (plan_of_complement graph.now spec.now) }
{
    let _ = graph.n();
    check_operand(graph)?;
    build_complement(alloc, graph, *spec)
}

// The complement of an operand that is not refused.
fn build_complement(alloc: Global, graph: &Graph, spec: ComplementSpec) -> Result<Graph, Refusal>
    ensures { IsMade (Ok (complement_plan graph.now spec)) result }
{
    let flags = [
        Part::Flag(spec.copy),
        Part::Flag(spec.loops),
        Part::Flag(spec.directed),
    ];
    let id = id_of_one(alloc, "complement", graph.id(), &flags)?;
    let room = room_for(graph, spec);
    let missing = ComplementSource {
        graph,
        spec,
        spokes: Vec::new(alloc),
        tips: Vec::new(alloc),
        lowest: Lowest::new(alloc, graph.n())?,
    };
    combine(alloc, id, graph, spec.directed, room, missing)
}

// For how many insertions there is to be room: no more than are made, but for loops, where no arcs are parallel.
fn room_for(graph: &Graph, spec: ComplementSpec) -> usize {
    let joined = room_of(graph, spec.directed);
    if spec.copy {
        return joined;
    }
    let n = graph.n() as usize;
    let pairs = n.saturating_mul(n);
    if spec.directed {
        pairs.saturating_sub(joined)
    } else {
        (pairs / 2).saturating_sub(joined)
    }
}

// A graph, and buffers for the arcs of one of its vertices.
#[derive(Drop)]
struct ComplementSource<'a> {
    graph: &'a Graph,
    spec: ComplementSpec,
    spokes: Vec<Spoke>,
    tips: Vec<u32>,
    lowest: Lowest,
}

impl<'a> Combination for ComplementSource<'a> {
    ghost insertions_at = { λ c. complement_at c.spec c.graph.now };

    ghost fits = { λ c n. (n_of c.graph.now ≡ n) × (length c.lowest.places.items ≡ n) };

    fn insert_from(&mut self, builder: &mut Builder, vertex: VertexNo) -> Result<(), Refusal> {
        self.spokes.clear();
        read_spokes(&mut self.spokes, self.graph, vertex, true)?;
        if self.spec.copy {
            // No other vertices are wanted than those to which this one is joined.
            read_tips(&mut self.tips, vertex, &self.spokes, self.spec)?;
            put_in_order(&mut self.tips);
            return insert_steps(builder, vertex, &self.tips);
        }
        self.lowest.keep(&self.spokes)?;
        insert_missing(builder, &self.lowest, vertex, self.spec)
    }
}

// Asks of every vertex if it is wanted, but where edges are made of none below.
fn insert_missing(
    builder: &mut Builder,
    lowest: &Lowest,
    vertex: VertexNo,
    spec: ComplementSpec,
) -> Result<(), Refusal>
    requires { vertex.0 < n_of builder.old.graph }
    ensures { Inserts builder.old builder.new
        (wanted_steps spec (n_of builder.old.graph) vertex.0 lowest.now.spokes.items) result }
{
    let low = if spec.directed { 0 } else { vertex.0 };
    for w in low..builder.graph().n() {
        if !is_wanted(spec, vertex.0, lowest.leads_to(w), w) {
            continue;
        }
        builder.insert(vertex, VertexNo(w), 1)?;
    }
    Ok(())
}

// The vertices to which the spokes lead and that are wanted, in place of what the buffer holds.
fn read_tips(
    tips: &mut Vec<u32>,
    vertex: VertexNo,
    spokes: &[Spoke],
    spec: ComplementSpec,
) -> Result<(), AllocError>
    ensures { OnOk result
        (tips.new.items ≡ filter (is_wanted spec vertex.0 true) (map (λ s. s.to) spokes.now)) }
{
    tips.clear();
    for spoke in spokes {
        if !is_wanted(spec, vertex.0, true, spoke.to) {
            continue;
        }
        tips.push(spoke.to)?;
    }
    Ok(())
}

// Each number once, and in order.
fn put_in_order(numbers: &mut Vec<u32>)
    ensures { IsInOrder numbers.old.items numbers.new.items }
{
    numbers.sort_unstable();
    numbers.dedup();
}

fn insert_steps(builder: &mut Builder, vertex: VertexNo, tips: &[u32]) -> Result<(), Refusal>
    requires from { vertex.0 < n_of builder.old.graph }
    requires to { All (λ w. w < n_of builder.old.graph) tips.now }
    ensures { Inserts builder.old builder.new (map (unit_step vertex.0) tips.now) result }
{
    for tip in tips {
        builder.insert(vertex, VertexNo(*tip), 1)?;
    }
    Ok(())
}

// The two vertices are to be joined, if the graph joins them or not.
#[inline]
fn is_wanted(spec: ComplementSpec, from: u32, joined: bool, to: u32) -> bool
    ensures { result ≡ is_wanted spec from joined to }
{
    joined == spec.copy && (spec.loops || from != to) && (spec.directed || from <= to)
}
