//! Pairs of points by how much they have in common.
ghost use Rattle.std.specs.Prelude.{◌≡◌, ◌≤◌, ◌<◌, ◌∷◌, [], pos, length, if◌then◌else◌};
ghost use Rattle.sgb_graph.specs.Builder.{Inserts, insertion};
ghost use Rattle.sgb_graph.specs.Graph.{n_of};
ghost use Rattle.sgb_simplex.specs.Points.{points};
ghost use Rattle.sgb_simplex.specs.Overlap.{overlap, has_size, is_partner, pairs, pairs_to};

use crate::coded::{insert_coded_pairs, list_codes};
use crate::list::PointList;
use sgb_graph::{Builder, Refusal, VertexNo};
use std::alloc::Global;

/// Inserts the pairs of points whose overlap is one of these sizes: by their codes, where one word has room for them.
pub(crate) fn insert_pairs(
    builder: &mut Builder,
    alloc: Global,
    list: &PointList,
    size_bits: u64,
) -> Result<(), Refusal>
    requires { n_of builder.old.graph ≡ list.now.count }
    ensures { Inserts builder.old builder.new (pairs (points list.now.total list.now.bounds.items) size_bits) result }
{
    if list.room() < 64 {
        let codes = list_codes(alloc, list)?;
        insert_coded_pairs(builder, list, &codes, size_bits)
    } else {
        insert_plain_pairs(builder, list, size_bits)
    }
}

// Inserts the pairs by their coordinates.
fn insert_plain_pairs(
    builder: &mut Builder,
    list: &PointList,
    size_bits: u64,
) -> Result<(), Refusal>
    requires { n_of builder.old.graph ≡ list.now.count }
    ensures { Inserts builder.old builder.new (pairs (points list.now.total list.now.bounds.items) size_bits) result }
{
    for v in 0..list.count {
        insert_pairs_to(builder, list, v, size_bits)?;
    }
    Ok(())
}

// Inserts those of the point with the number `v`.
fn insert_pairs_to(
    builder: &mut Builder,
    list: &PointList,
    v: u32,
    size_bits: u64,
) -> Result<(), Refusal>
    requires all { n_of builder.old.graph ≡ list.now.count }
    requires v { v < list.now.count }
    ensures { Inserts builder.old builder.new
        (pairs_to (points list.now.total list.now.bounds.items) size_bits v) result }
{
    for u in 0..v + 1 {
        insert_pair(builder, list, u, v, size_bits)?;
    }
    Ok(())
}

// Inserts the pair of these points, if their overlap has such a size.
fn insert_pair(
    builder: &mut Builder,
    list: &PointList,
    u: u32,
    v: u32,
    size_bits: u64,
) -> Result<(), Refusal>
    requires all { n_of builder.old.graph ≡ list.now.count }
    requires u { u < list.now.count }
    requires v { v < list.now.count }
    ensures { Inserts builder.old builder.new (if is_partner (points list.now.total list.now.bounds.items) size_bits v u
        then insertion u v (pos 1) ∷ [] else []) result }
{
    if !has_size(size_bits, overlap(list.point(u), list.point(v))) {
        return Ok(());
    }
    builder.insert(VertexNo(u), VertexNo(v), 1)
}

// The sum of the smaller coordinates.
fn overlap(first: &[u32], second: &[u32]) -> u64
    requires { length first.now ≤ 16 }
    ensures { result ≡ overlap first.now second.now }
{
    first
        .iter()
        .zip(second)
        .map(|(x, y)| u64::from(*x.min(y)))
        .sum()
}

// The size is below 64, and its bit is set.
fn has_size(size_bits: u64, size: u64) -> bool
    ensures { result ≡ has_size size_bits size }
{
    size < 64 && (size_bits >> size) % 2 == 1
}
