//! Products: their refusals, and their vertices.
ghost use Rattle.std.specs.Prelude.{◌≡◌, ◌≤◌, ◌<◌, Ok, IfOk, IfErr, IsErrOf, OnOk, Some, None, length, map, IsTrue};
ghost use Rattle.std.specs.List.{flat_map, list_all, range_with_len};
ghost use Rattle.sgb_graph.specs.Graph.{n_of};
ghost use Rattle.sgb_plan.specs.Plan.{IsMade, MayAllocate, Names};
ghost use Rattle.sgb_combine.specs.Product.{is_kind, pair_name, pair_names, is_short_name, refusal_of_product, product_plan, plan_of_product};
ghost use Rattle.sgb_combine.specs.Private.Begin.{Begins};
ghost use Rattle.sgb_combine.specs.Private.Pairs.{IsLongest};

use crate::ProductSpec;
use crate::begin::{check_operands, room_of};
use crate::multiply::insert_product;
use sgb_graph::{Builder, Graph, Label, Refusal, Text, Types, VertexNo};
use sgb_plan::{Part, id_of_two, label_of};
use std::alloc::Global;

/// The product of two graphs: a vertex for each pair of theirs, named by both names with a comma between. The
/// cartesian product (kind 0) leads from a pair along an arc of its first vertex, or along one of its second; the direct
/// one (kind 1) along an arc of each at once, as long as the shorter; and the strong one (kind 2) in all these ways, in
/// this order. Where edges are made, what leads to a pair with a smaller number and the second halves of loops are
/// passed over. This is `product` of the GraphBase.
///
/// Refused `BadSpecs` for another kind; then `BadOperand` where an arc of a graph leads to no vertex, or where a pair's
/// name would have more than 4,095 bytes; then `TooLarge` where there would be more than 65,535 vertices, which takes no
/// memory to tell, or 1,000,000 arc numbers.
#[tactic(auto, using(sgb_plan::proofs::PlanRefusals::planned, sgb_plan::proofs::PlanRefusals::never_answered, crate::proofs::Starts::no_room_of_product))]
pub fn product(
    alloc: Global,
    first: &Graph,
    second: &Graph,
    spec: &ProductSpec,
) -> Result<Graph, Refusal>
    ensures made { IsMade (plan_of_product first.now second.now spec.now) result }
    ensures room { IsErrOf result Refusal.NoRoom → MayAllocate (plan_of_product first.now second.now spec.now) }
{
    check_product(first, second, *spec)?;
    if u64::from(first.n()) * u64::from(second.n()) > 65_535 {
        return Err(Refusal::TooLarge);
    }
    build_product(alloc, first, second, *spec)
}

// The product of operands that are not refused, where the names of the pairs are short.
fn build_product(
    alloc: Global,
    first: &Graph,
    second: &Graph,
    spec: ProductSpec,
) -> Result<Graph, Refusal>
    requires { IsTrue (list_all is_short_name (pair_names first.now second.now)) }
    ensures { IsMade (Ok (product_plan first.now second.now spec)) result }
{
    let id = id_of_product(alloc, first, second, spec)?;
    let mut builder = begin_pairs(alloc, id, first, second, spec)?;
    insert_product(&mut builder, alloc, first, second, spec)?;
    Ok(builder.finish())
}

fn id_of_product(
    alloc: Global,
    first: &Graph,
    second: &Graph,
    spec: ProductSpec,
) -> Result<Text, Refusal>
    ensures value { IfOk result (λ id. id ≡ (product_plan first.now second.now spec).id) }
    ensures short { IfOk result (λ id. length id ≤ 160) }
    ensures err { IfErr result (λ e. e ≡ Refusal.NoRoom) }
{
    let parts = [Part::Number(spec.kind), Part::Flag(spec.directed)];
    id_of_two(alloc, "product", first.id(), second.id(), &parts)
}

// The refusals that come before the product's size is known.
fn check_product(first: &Graph, second: &Graph, spec: ProductSpec) -> Result<(), Refusal>
    ensures ok { OnOk result (refusal_of_product first.now second.now spec ≡ None) }
    ensures err { IfErr result (λ e. refusal_of_product first.now second.now spec ≡ Some e) }
{
    if !is_kind(spec) {
        return Err(Refusal::BadSpecs);
    }
    check_operands(first, second)?;
    if !are_names_short(first, second) {
        return Err(Refusal::BadOperand);
    }
    Ok(())
}

fn is_kind(spec: ProductSpec) -> bool
    ensures { result ≡ is_kind spec.kind }
{
    spec.kind == 0 || spec.kind == 1 || spec.kind == 2
}

// The longest names of both, with a comma between, are no longer than a name may be.
fn are_names_short(first: &Graph, second: &Graph) -> bool
    ensures { result ≡ list_all is_short_name (pair_names first.now second.now) }
{
    if first.n() == 0 {
        return true;
    }
    if second.n() == 0 {
        return true;
    }
    longest(first) + 1 + longest(second) <= 4095
}

// How many bytes the longest name has.
fn longest(graph: &Graph) -> usize
    ensures limit { result ≤ 4095 }
    ensures value { IsLongest graph.now result }
{
    let mut most = 0usize;
    for v in 0..graph.n() {
        most = most.max(graph.label(VertexNo(v)).len());
    }
    most
}

// For how many insertions there is to be room.
fn room_for(first: &Graph, second: &Graph, spec: ProductSpec) -> usize {
    let own = room_of(first, spec.directed);
    let along_first = own.saturating_mul(second.n() as usize);
    let other = room_of(second, spec.directed);
    let along_second = other.saturating_mul(first.n() as usize);
    let single = along_first.saturating_add(along_second);
    let double = own.saturating_mul(second.m() as usize);
    match spec.kind {
        0 => single,
        1 => double,
        _ => single.saturating_add(double),
    }
}

// A builder with this id and a vertex for each pair, and with room for the insertions.
fn begin_pairs(
    alloc: Global,
    id: Text,
    first: &Graph,
    second: &Graph,
    spec: ProductSpec,
) -> Result<Builder, Refusal>
    requires id { length id ≤ 160 }
    requires short { IsTrue (list_all is_short_name (pair_names first.now second.now)) }
    ensures { Begins id spec.directed (pair_names first.now second.now) result }
{
    let mut builder = Builder::new(alloc, id, Types::none(), spec.directed);
    builder.reserve_vertices((first.n() as usize).saturating_mul(second.n() as usize))?;
    let mut bytes = Vec::new(alloc);
    for a in 0..first.n() {
        name_row(&mut builder, &mut bytes, alloc, first, second, VertexNo(a))?;
    }
    builder.reserve(room_for(first, second, spec))?;
    Ok(builder)
}

// The pairs of one vertex with all of the second graph.
fn name_row(
    builder: &mut Builder,
    bytes: &mut Vec<u8>,
    alloc: Global,
    first: &Graph,
    second: &Graph,
    a: VertexNo,
) -> Result<(), Refusal>
    requires a { a.0 < n_of first.now }
    requires short { IsTrue (list_all is_short_name (pair_names first.now second.now)) }
    ensures { Names builder.old builder.new (map (pair_name first.now second.now a.0) (range_with_len 0 (n_of second.now))) result }
{
    for b in 0..second.n() {
        let label = name_of(bytes, alloc, first, second, a, VertexNo(b))?;
        builder.push_named(label)?;
    }
    Ok(())
}

// The name of a pair.
fn name_of(
    bytes: &mut Vec<u8>,
    alloc: Global,
    first: &Graph,
    second: &Graph,
    a: VertexNo,
    b: VertexNo,
) -> Result<Label, Refusal>
    requires a { a.0 < n_of first.now }
    requires b { b.0 < n_of second.now }
    requires short { length (pair_name first.now second.now a.0 b.0).label ≤ 4095 }
    ensures value { IfOk result (λ name. name ≡ (pair_name first.now second.now a.0 b.0).label) }
    ensures err { IfErr result (λ e. e ≡ Refusal.NoRoom) }
{
    bytes.clear();
    bytes.extend_from_slice(first.label(a))?;
    bytes.push(b',')?;
    bytes.extend_from_slice(second.label(b))?;
    label_of(alloc, bytes)
}
