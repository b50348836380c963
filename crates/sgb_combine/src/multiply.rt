//! Products: what is inserted from each pair of vertices.
ghost use Rattle.std.specs.Prelude.{◌≡◌, ◌≤◌, ◌<◌, ◌+◌, ◌*◌, ◌^◌, length, map, All, OnOk, true};
ghost use Rattle.std.specs.List.{flat_map, filter, range_with_len};
ghost use Rattle.sgb_graph.specs.Graph.{n_of};
ghost use Rattle.sgb_graph.specs.Builder.{along, Inserts};
ghost use Rattle.sgb_graph.specs.Operand.{IsWithin};
ghost use Rattle.sgb_combine.specs.Product.{has_single, has_double, pair_number, product_at};
ghost use Rattle.sgb_combine.specs.Private.Rows.{AreRows, row_of};
ghost use Rattle.sgb_combine.specs.Private.Pruned.{IsRowWithin, is_above, scaled, double, double_steps, inner, outer, singles, doubles, doubles_over, pruned, pruned_at};

use crate::ProductSpec;
use crate::rows::Rows;
use crate::run::{insert_spoke, keep_upward};
use sgb_graph::{Builder, Graph, Refusal, Spoke, VertexNo, read_spokes};
use std::alloc::{AllocError, Global};

pub(crate) fn insert_product(
    builder: &mut Builder,
    alloc: Global,
    first: &Graph,
    second: &Graph,
    spec: ProductSpec,
) -> Result<(), Refusal>
    requires { n_of builder.old.graph ≡ n_of first.now * n_of second.now }
    ensures { Inserts builder.old builder.new
        (flat_map (λ a. flat_map (product_at spec first.now second.now a) (range_with_len 0 (n_of second.now)))
        (range_with_len 0 (n_of first.now))) result }
{
    // They tell that the graphs are sound, and that their numbers are small.
    let _ = builder.graph().n();
    let _ = second.n();
    let all = Rows::read(alloc, second, spec.directed, true)?;
    let upward = Rows::read(alloc, second, spec.directed, spec.directed)?;
    let mut from = Vec::new(alloc);
    let mut above = Vec::new(alloc);
    for a in 0..first.n() {
        read_across(&mut from, &mut above, first, VertexNo(a), spec.directed)?;
        insert_row(builder, a, &from, &above, second, &all, &upward, spec)?;
    }
    Ok(())
}

// The spokes of a vertex, without those that lead below it where edges are made; and those that lead above it.
fn read_across(
    from: &mut Vec<Spoke>,
    above: &mut Vec<Spoke>,
    graph: &Graph,
    vertex: VertexNo,
    directed: bool,
) -> Result<(), AllocError>
    requires { vertex.0 < n_of graph.now }
    ensures from { OnOk result (from.new.items ≡ row_of directed directed graph.now vertex.0) }
    ensures above { OnOk result (above.new.items ≡ filter (is_above vertex.0) from.new.items) }
{
    from.clear();
    read_spokes(from, graph, vertex, directed)?;
    keep_upward(from, directed, vertex);
    above.clear();
    above.extend_from_slice(from)?;
    keep_above(above, vertex);
    Ok(())
}

fn keep_above(spokes: &mut Vec<Spoke>, vertex: VertexNo)
    ensures { spokes.new.items ≡ filter (is_above vertex.0) spokes.old.items }
{
    spokes.retain(|spoke| vertex.0 < spoke.to);
}

// Inserts from the pairs of one vertex with all of the second graph.
fn insert_row(
    builder: &mut Builder,
    a: u32,
    from: &[Spoke],
    above: &[Spoke],
    second: &Graph,
    all: &Rows,
    upward: &Rows,
    spec: ProductSpec,
) -> Result<(), Refusal>
    requires few { n_of builder.old.graph ≤ 65535 }
    requires row { a * n_of second.now + n_of second.now ≤ n_of builder.old.graph }
    requires from { All (IsRowWithin (n_of second.now) (n_of builder.old.graph)) from.now }
    requires above { All (IsRowWithin (n_of second.now) (n_of builder.old.graph)) above.now }
    requires all { AreRows (row_of true spec.directed second.now) (n_of second.now) all.now.spokes.items all.now.starts.items }
    requires upward { AreRows (row_of spec.directed spec.directed second.now) (n_of second.now) upward.now.spokes.items upward.now.starts.items }
    ensures { Inserts builder.old builder.new
        (flat_map (pruned_at spec second.now a from.now above.now) (range_with_len 0 (n_of second.now))) result }
{
    let k = second.n();
    for b in 0..k {
        insert_pair(
            builder,
            k,
            a,
            b,
            from,
            above,
            all.row(b),
            upward.row(b),
            spec,
        )?;
    }
    Ok(())
}

// Inserts from one pair.
fn insert_pair(
    builder: &mut Builder,
    k: u32,
    a: u32,
    b: u32,
    from: &[Spoke],
    above: &[Spoke],
    all: &[Spoke],
    upward: &[Spoke],
    spec: ProductSpec,
) -> Result<(), Refusal>
    requires few { n_of builder.old.graph ≤ 65535 }
    requires row { a * k + k ≤ n_of builder.old.graph }
    requires b { b < k }
    requires from { All (IsRowWithin k (n_of builder.old.graph)) from.now }
    requires above { All (IsRowWithin k (n_of builder.old.graph)) above.now }
    requires all { All (IsWithin k) all.now }
    requires upward { All (IsWithin k) upward.now }
    ensures { Inserts builder.old builder.new (pruned spec k a b from.now above.now all.now upward.now) result }
{
    let number = VertexNo(a * k + b);
    insert_singles(builder, number, has_single(spec), k, a, b, from, upward)?;
    let pairs = has_double(spec);
    insert_doubles(
        builder,
        number,
        pairs,
        k,
        a,
        spec.directed,
        from,
        above,
        all,
        upward,
    )
}

// Steps along one arc: along those of a, and then along those of b.
fn insert_singles(
    builder: &mut Builder,
    number: VertexNo,
    single: bool,
    k: u32,
    a: u32,
    b: u32,
    from: &[Spoke],
    upward: &[Spoke],
) -> Result<(), Refusal>
    requires few { n_of builder.old.graph ≤ 65535 }
    requires number { number.0 < n_of builder.old.graph }
    requires row { a * k + k ≤ n_of builder.old.graph }
    requires b { b < k }
    requires from { All (IsRowWithin k (n_of builder.old.graph)) from.now }
    requires upward { All (IsWithin k) upward.now }
    ensures { Inserts builder.old builder.new (map (along number.0) (singles single k a b from.now upward.now)) result }
{
    if !single {
        return Ok(());
    }
    insert_scaled(builder, number, from, k, b)?;
    insert_scaled(builder, number, upward, 1, a * k)
}

fn insert_scaled(
    builder: &mut Builder,
    number: VertexNo,
    spokes: &[Spoke],
    scale: u32,
    offset: u32,
) -> Result<(), Refusal>
    requires few { n_of builder.old.graph ≤ 65535 }
    requires number { number.0 < n_of builder.old.graph }
    requires to { All (λ s. s.to * scale + offset < n_of builder.old.graph) spokes.now }
    ensures { Inserts builder.old builder.new (map (along number.0) (map (scaled scale offset) spokes.now)) result }
{
    for spoke in spokes {
        insert_spoke(builder, number, scaled(*spoke, scale, offset))?;
    }
    Ok(())
}

#[inline]
fn scaled(spoke: Spoke, scale: u32, offset: u32) -> Spoke
    requires { spoke.to * scale + offset < 2 ^ 32 }
    ensures { result ≡ scaled scale offset spoke }
{
    Spoke {
        to: spoke.to * scale + offset,
        len: spoke.len,
    }
}

// Steps along an arc of a and one of b. Where no arc of b leads upward, none of a need be asked that lead to a itself.
fn insert_doubles(
    builder: &mut Builder,
    number: VertexNo,
    pairs: bool,
    k: u32,
    a: u32,
    directed: bool,
    from: &[Spoke],
    above: &[Spoke],
    all: &[Spoke],
    upward: &[Spoke],
) -> Result<(), Refusal>
    requires few { n_of builder.old.graph ≤ 65535 }
    requires number { number.0 < n_of builder.old.graph }
    requires from { All (IsRowWithin k (n_of builder.old.graph)) from.now }
    requires above { All (IsRowWithin k (n_of builder.old.graph)) above.now }
    requires all { All (IsWithin k) all.now }
    requires upward { All (IsWithin k) upward.now }
    ensures { Inserts builder.old builder.new
        (map (along number.0) (doubles pairs directed k a from.now above.now all.now upward.now)) result }
{
    if !pairs {
        return Ok(());
    }
    if all.is_empty() {
        return Ok(());
    }
    if upward.is_empty() {
        return insert_over(builder, number, k, a, directed, above, all, upward);
    }
    insert_over(builder, number, k, a, directed, from, all, upward)
}

fn insert_over(
    builder: &mut Builder,
    number: VertexNo,
    k: u32,
    a: u32,
    directed: bool,
    outer: &[Spoke],
    all: &[Spoke],
    upward: &[Spoke],
) -> Result<(), Refusal>
    requires few { n_of builder.old.graph ≤ 65535 }
    requires number { number.0 < n_of builder.old.graph }
    requires outer { All (IsRowWithin k (n_of builder.old.graph)) outer.now }
    requires all { All (IsWithin k) all.now }
    requires upward { All (IsWithin k) upward.now }
    ensures { Inserts builder.old builder.new
        (flat_map (λ s. map (along number.0) (double_steps k s (inner directed a all.now upward.now s))) outer.now) result }
{
    for spoke in outer {
        insert_inner(builder, number, k, a, directed, *spoke, all, upward)?;
    }
    Ok(())
}

// Among the arcs of b only upward ones, where that of a leads to a itself and edges are made.
fn insert_inner(
    builder: &mut Builder,
    number: VertexNo,
    k: u32,
    a: u32,
    directed: bool,
    spoke: Spoke,
    all: &[Spoke],
    upward: &[Spoke],
) -> Result<(), Refusal>
    requires few { n_of builder.old.graph ≤ 65535 }
    requires number { number.0 < n_of builder.old.graph }
    requires row { spoke.to * k + k ≤ n_of builder.old.graph }
    requires all { All (IsWithin k) all.now }
    requires upward { All (IsWithin k) upward.now }
    ensures { Inserts builder.old builder.new
        (map (along number.0) (double_steps k spoke (inner directed a all.now upward.now spoke))) result }
{
    if directed || a < spoke.to {
        insert_double(builder, number, k, spoke, all)
    } else {
        insert_double(builder, number, k, spoke, upward)
    }
}

fn insert_double(
    builder: &mut Builder,
    number: VertexNo,
    k: u32,
    first: Spoke,
    seconds: &[Spoke],
) -> Result<(), Refusal>
    requires few { n_of builder.old.graph ≤ 65535 }
    requires number { number.0 < n_of builder.old.graph }
    requires row { first.to * k + k ≤ n_of builder.old.graph }
    requires to { All (IsWithin k) seconds.now }
    ensures { Inserts builder.old builder.new (map (along number.0) (double_steps k first seconds.now)) result }
{
    for second in seconds {
        insert_spoke(builder, number, double(first, *second, k))?;
    }
    Ok(())
}

#[inline]
fn double(first: Spoke, second: Spoke, k: u32) -> Spoke
    requires { first.to * k + second.to < 2 ^ 32 }
    ensures { result ≡ double k first second }
{
    Spoke {
        to: first.to * k + second.to,
        len: first.len.min(second.len),
    }
}

#[inline]
fn has_single(spec: ProductSpec) -> bool
    ensures { result ≡ has_single spec.kind }
{
    spec.kind != 1
}

#[inline]
fn has_double(spec: ProductSpec) -> bool
    ensures { result ≡ has_double spec.kind }
{
    spec.kind != 0
}
