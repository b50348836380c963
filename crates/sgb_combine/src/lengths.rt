//! Random lengths, and their undoing.
ghost use Rattle.std.specs.Prelude.{◌≡◌, ◌⊎◌, ◌≤◌, None, Some, IfOk, IfErr, OnOk, OnErr};
ghost use Rattle.std.specs.Result.{IsErrOf};
ghost use Rattle.sgb_flip.specs.Generator.{IsGenerator, after};
ghost use Rattle.sgb_graph.specs.Graph.{IsGraph};
ghost use Rattle.sgb_combine.specs.Lengths.{
  refusal_of_lengths,
  refusal_of_arcs,
  lengthened,
  lengths_id,
  draws_for,
  new_lengths,
  with_lengths,
  lengths_of,
  before_lengths,
  CanRevertLengths,
};
ghost use Rattle.sgb_combine.specs.Private.Prepared.{IsPrepared};

use crate::draw::draw_lengths;
use crate::exchange::{exchange_lengths, give_lengths};
use crate::id::lengths_id;
use crate::prepared::Prepared;
use crate::{LengthsDelta, LengthsSpec};
use sgb_flip::Flip;
use sgb_graph::{Graph, Items, Refusal, check_operand};
use sgb_plan::{LengthRange, Seed};
use std::alloc::Global;

/// Gives the arcs of a graph random lengths (`random_lengths`), and the graph the id that says so; answers what
/// `revert_lengths` needs, and how many numbers were drawn. The seed only stands in the id.
///
/// The vertices go in their order, and the arcs of each as in its list. Where `directed` is false an arc to an earlier
/// vertex and the second half of a loop draw no length, but take that of the other half of their edge.
///
/// Refused `TooLarge` where `min` is above `max`; then `LengthRange` where they are 2^31 or more apart; then
/// `BadOperand` where an arc leads to no vertex, or where `directed` is false and the graph is not paired; memory is taken
/// behind these. After a refusal the graph and the generator are as before.
pub fn random_lengths(
    alloc: Global,
    graph: &mut Graph,
    flip: &mut Flip,
    spec: &LengthsSpec,
    seed: Seed,
) -> Result<(LengthsDelta, u64), Refusal>
    ensures accepted { OnOk result (refusal_of_lengths spec.now graph.old ≡ None) }
    ensures graph { OnOk result (graph.new ≡ lengthened spec.now seed graph.old flip.old) }
    ensures draws { IfOk result (λ made. made.1 ≡ (draws_for spec.now graph.old flip.old).draws) }
    ensures few { IfOk result (λ made. made.1 ≤ 1814000000) }
    ensures rest { IfOk result (λ made. flip.new ≡ after flip.old made.1) }
    ensures lengths { IfOk result (λ made. made.0.lengths ≡ lengths_of graph.old) }
    ensures id { IfOk result (λ made. made.0.id ≡ graph.old.id) }
    ensures can_revert { IfOk result (λ made. CanRevertLengths made.0 graph.new) }
    ensures back { IfOk result (λ made. before_lengths made.0 graph.new ≡ graph.old) }
    ensures err { IfErr result (λ e. (e ≡ Refusal.NoRoom) ⊎ (refusal_of_lengths spec.now graph.old ≡ Some e)) }
    ensures room { IsErrOf result Refusal.NoRoom → refusal_of_lengths spec.now graph.old ≡ None }
    ensures unchanged { OnErr result (graph.new ≡ graph.old) }
    ensures unmoved { OnErr result (flip.new ≡ flip.old) }
    ensures sound { IsGraph graph.new }
    ensures generator { IsGenerator flip.new }
{
    // They tell that the graph and the generator are sound, also where all is refused.
    let _ = (graph.n(), flip.unread());
    let prepared = prepare(alloc, graph, spec, seed)?;
    Ok(draw_prepared(graph, flip, spec, prepared))
}

/// Gives a graph back the lengths and the id that it had before `random_lengths`. Takes no memory.
pub fn revert_lengths(graph: &mut Graph, delta: LengthsDelta)
    requires { CanRevertLengths delta graph.old }
    ensures graph { graph.new ≡ before_lengths delta graph.old }
    ensures sound { IsGraph graph.new }
{
    let LengthsDelta { lengths, id } = delta;
    let lengths = lengths.into_vec();
    give_lengths(graph, &lengths);
    graph.swap_id(id);
}

// Judges what is asked for, and takes all memory.
fn prepare(
    alloc: Global,
    graph: &Graph,
    spec: &LengthsSpec,
    seed: Seed,
) -> Result<Prepared, Refusal>
    ensures accepted { OnOk result (refusal_of_lengths spec.now graph.now ≡ None) }
    ensures prepared { IfOk result (λ p. IsPrepared spec.now graph.now p) }
    ensures id { IfOk result (λ p. p.id ≡ lengths_id spec.now seed graph.now.id) }
    ensures err { IfErr result (λ e. (e ≡ Refusal.NoRoom) ⊎ (refusal_of_lengths spec.now graph.now ≡ Some e)) }
    ensures room { IsErrOf result Refusal.NoRoom → refusal_of_lengths spec.now graph.now ≡ None }
{
    let range = judge(graph, spec)?;
    let id = lengths_id(alloc, graph.id(), spec, seed)?;
    let lengths = vec![in alloc; 0i64; graph.made() as usize]?;
    Ok(Prepared { range, id, lengths })
}

// Draws the lengths, and exchanges them and the id for those of the graph.
fn draw_prepared(
    graph: &mut Graph,
    flip: &mut Flip,
    spec: &LengthsSpec,
    prepared: Prepared,
) -> (LengthsDelta, u64)
    requires { IsPrepared spec.now graph.old prepared }
    ensures graph { graph.new ≡ record (with_lengths graph.old (new_lengths spec.now graph.old flip.old)) { id = prepared.id } }
    ensures lengths { result.0.lengths ≡ lengths_of graph.old }
    ensures id { result.0.id ≡ graph.old.id }
    ensures draws { result.1 ≡ (draws_for spec.now graph.old flip.old).draws }
    ensures few { result.1 ≤ 1814000000 }
    ensures rest { flip.new ≡ after flip.old result.1 }
    ensures sound { IsGraph graph.new }
    ensures generator { IsGenerator flip.new }
{
    let Prepared {
        range,
        id,
        mut lengths,
    } = prepared;
    let draws = draw_lengths(flip, &range, graph, spec.directed, &mut lengths);
    exchange_lengths(graph, &mut lengths);
    let id = graph.swap_id(id);
    let lengths = Items::from_vec(lengths);
    (LengthsDelta { lengths, id }, draws)
}

// Answers the lengths that are asked for, or the first refusal.
fn judge(graph: &Graph, spec: &LengthsSpec) -> Result<LengthRange, Refusal>
    ensures ok { OnOk result (refusal_of_lengths spec.now graph.now ≡ None) }
    ensures whole { OnOk result (refusal_of_arcs spec.now.directed graph.now ≡ None) }
    ensures min { IfOk result (λ range. range.min ≡ spec.now.min) }
    ensures max { IfOk result (λ range. range.max ≡ spec.now.max) }
    ensures err { IfErr result (λ e. refusal_of_lengths spec.now graph.now ≡ Some e) }
{
    let range = LengthRange::new(spec.min, spec.max)?;
    check_arcs(graph, spec.directed)?;
    Ok(range)
}

// Refuses a graph of which an arc leads to no vertex, or whose arcs are to be edges and are not in pairs.
fn check_arcs(graph: &Graph, directed: bool) -> Result<(), Refusal>
    ensures ok { OnOk result (refusal_of_arcs directed graph.now ≡ None) }
    ensures err { IfErr result (λ e. refusal_of_arcs directed graph.now ≡ Some e) }
{
    if directed {
        return check_operand(graph);
    }
    if graph.is_paired() {
        Ok(())
    } else {
        Err(Refusal::BadOperand)
    }
}
