//! Pairs of points by codes: the overlap of two points is the count of ones that their codes share.
ghost use Rattle.std.specs.Prelude.{◌≡◌, ◌<◌, ◌+◌, ◌-◌, ◌∷◌, [], pos, length, get_or, IfOk, if◌then◌else◌};
ghost use Rattle.std.specs.List.{sum, slice_index};
ghost use Rattle.sgb_graph.specs.Builder.{Inserts, insertion};
ghost use Rattle.sgb_graph.specs.Graph.{n_of};
ghost use Rattle.sgb_simplex.specs.Points.{points};
ghost use Rattle.sgb_simplex.specs.Overlap.{has_size, is_partner, pairs, pairs_to};
ghost use Rattle.sgb_simplex.specs.Private.Codes.{code_from, AreCodes};
ghost use Rattle.sgb_simplex.specs.Private.Counts.{IsPoint};

use crate::list::PointList;
use sgb_graph::{Builder, Refusal, VertexNo};
use std::alloc::{AllocError, Global};

/// The codes of the points.
pub(crate) fn list_codes(alloc: Global, list: &PointList) -> Result<Vec<u64>, AllocError>
    requires { sum list.now.bounds.items < 64 }
    ensures { IfOk result (λ codes. AreCodes list.now.bounds.items (points list.now.total list.now.bounds.items) codes.items) }
{
    let mut codes = Vec::with_capacity(alloc, list.count as usize)?;
    for v in 0..list.count {
        codes.push(code_of(list, list.point(v)))?;
    }
    Ok(codes)
}

// The code of a point.
fn code_of(list: &PointList, point: &[u32]) -> u64
    requires room { sum list.now.bounds.items < 64 }
    requires point { IsPoint list.now.total list.now.bounds.items point.now }
    ensures { result ≡ code_from 0 list.now.bounds.items point.now }
{
    let mut code = 0u64;
    for i in 0..point.len() {
        code = (code << list.bounds[i]) + ((1u64 << point[i]) - 1);
    }
    code
}

/// Inserts the pairs of points whose overlap is one of these sizes. It is not inlined, so that its loops
/// stay short.
#[inline(never)]
pub(crate) fn insert_coded_pairs(
    builder: &mut Builder,
    list: &PointList,
    codes: &[u64],
    size_bits: u64,
) -> Result<(), Refusal>
    requires all { n_of builder.old.graph ≡ list.now.count }
    requires room { sum list.now.bounds.items < 64 }
    requires codes { AreCodes list.now.bounds.items (points list.now.total list.now.bounds.items) codes.now }
    ensures { Inserts builder.old builder.new (pairs (points list.now.total list.now.bounds.items) size_bits) result }
{
    for v in 0..list.count {
        insert_coded_pairs_to(builder, list, codes, v, size_bits)?;
    }
    Ok(())
}

// Inserts those of the point with the number `v`.
fn insert_coded_pairs_to(
    builder: &mut Builder,
    list: &PointList,
    codes: &[u64],
    v: u32,
    size_bits: u64,
) -> Result<(), Refusal>
    requires all { n_of builder.old.graph ≡ list.now.count }
    requires room { sum list.now.bounds.items < 64 }
    requires codes { AreCodes list.now.bounds.items (points list.now.total list.now.bounds.items) codes.now }
    requires v { v < list.now.count }
    ensures { Inserts builder.old builder.new
        (pairs_to (points list.now.total list.now.bounds.items) size_bits v) result }
{
    let code = codes[v as usize];
    for u in 0..v + 1 {
        insert_coded_pair(builder, list, codes, u, v, code, size_bits)?;
    }
    Ok(())
}

// Inserts the pair of these points, of which the second has this code, if their overlap has such a size.
#[inline]
fn insert_coded_pair(
    builder: &mut Builder,
    list: &PointList,
    codes: &[u64],
    u: u32,
    v: u32,
    code: u64,
    size_bits: u64,
) -> Result<(), Refusal>
    requires all { n_of builder.old.graph ≡ list.now.count }
    requires room { sum list.now.bounds.items < 64 }
    requires codes { AreCodes list.now.bounds.items (points list.now.total list.now.bounds.items) codes.now }
    requires u { u < list.now.count }
    requires v { v < list.now.count }
    requires code { code ≡ slice_index codes.now v }
    ensures { Inserts builder.old builder.new (if is_partner (points list.now.total list.now.bounds.items) size_bits v u
        then insertion u v (pos 1) ∷ [] else []) result }
{
    let size = (codes[u as usize] & code).count_ones();
    if !has_low_size(size_bits, size) {
        return Ok(());
    }
    insert_found(builder, u, v)
}

// Inserts a pair. It is not inlined, so that the loop over all pairs stays short.
#[inline(never)]
fn insert_found(builder: &mut Builder, u: u32, v: u32) -> Result<(), Refusal>
    requires u { u < n_of builder.old.graph }
    requires v { v < n_of builder.old.graph }
    ensures { Inserts builder.old builder.new (insertion u v (pos 1) ∷ []) result }
{
    builder.insert(VertexNo(u), VertexNo(v), 1)
}

// The bit of a size that is known to be below 64 is set.
#[inline]
fn has_low_size(size_bits: u64, size: u32) -> bool
    requires { size < 64 }
    ensures { result ≡ has_size size_bits size }
{
    (size_bits >> size) % 2 == 1
}
