//! Moves among the points of a simplex.
ghost use Rattle.std.specs.Prelude.{◌≡◌, ◌<◌, ◌∷◌, [], length, slice_index, nat_lt, if◌then◌else◌};
ghost use Rattle.sgb_graph.specs.Builder.{Inserts};
ghost use Rattle.sgb_graph.specs.Graph.{n_of};
ghost use Rattle.sgb_simplex.specs.Points.{points};
ghost use Rattle.sgb_simplex.specs.Moves.{moves, moves_to, moves_from, move_from};
ghost use Rattle.sgb_simplex.specs.Private.Counts.{IsPoint};

use crate::list::PointList;
use sgb_graph::{Builder, Refusal, VertexNo};

/// Inserts the moves to each point.
pub(crate) fn insert_moves(builder: &mut Builder, list: &PointList) -> Result<(), Refusal>
    requires { n_of builder.old.graph ≡ list.now.count }
    ensures { Inserts builder.old builder.new (moves (points list.now.total list.now.bounds.items) list.now.bounds.items) result }
{
    builder.reserve(count_moves(list))?;
    for v in 0..list.count {
        insert_moves_to(builder, list, v, list.point(v))?;
    }
    Ok(())
}

// How many moves there are, so that room for all is taken at once.
fn count_moves(list: &PointList) -> usize {
    let mut count = 0usize;
    for v in 0..list.count {
        count = count.saturating_add(count_moves_to(list.point(v), &list.bounds));
    }
    count
}

// How many moves lead to this point: for each coordinate that is not 0, the later ones below their bounds.
fn count_moves_to(point: &[u32], bounds: &[u32]) -> usize
    requires { length point.now ≡ length bounds.now }
{
    let mut count = 0usize;
    let mut rising = 0usize;
    for done in 0..point.len() {
        let j = point.len() - 1 - done;
        if point[j] > 0 {
            count = count.saturating_add(rising);
        }
        if point[j] < bounds[j] {
            rising = rising.saturating_add(1);
        }
    }
    count
}

// Inserts the moves to this point, which has the number `v`.
fn insert_moves_to(
    builder: &mut Builder,
    list: &PointList,
    v: u32,
    point: &[u32],
) -> Result<(), Refusal>
    requires all { n_of builder.old.graph ≡ list.now.count }
    requires v { v < list.now.count }
    requires point { IsPoint list.now.total list.now.bounds.items point.now }
    ensures { Inserts builder.old builder.new
        (moves_to (points list.now.total list.now.bounds.items) list.now.bounds.items v point.now) result }
{
    for j in 0..list.bounds.len().saturating_sub(1) {
        insert_moves_from(builder, list, v, point, j)?;
    }
    Ok(())
}

// Inserts the moves from the points with one less at `j`, where there is something to take away.
fn insert_moves_from(
    builder: &mut Builder,
    list: &PointList,
    v: u32,
    point: &[u32],
    j: usize,
) -> Result<(), Refusal>
    requires all { n_of builder.old.graph ≡ list.now.count }
    requires v { v < list.now.count }
    requires point { IsPoint list.now.total list.now.bounds.items point.now }
    requires j { j < length list.now.bounds.items }
    ensures { Inserts builder.old builder.new (if nat_lt 0 (slice_index point.now j)
        then moves_from (points list.now.total list.now.bounds.items) list.now.bounds.items v point.now j else []) result }
{
    if point[j] == 0 {
        return Ok(());
    }
    for k in j + 1..list.bounds.len() {
        insert_move(builder, list, v, point, j, k)?;
    }
    Ok(())
}

// Inserts the move from the point with one less at `j` and one more at `k`, where there is room for it.
fn insert_move(
    builder: &mut Builder,
    list: &PointList,
    v: u32,
    point: &[u32],
    j: usize,
    k: usize,
) -> Result<(), Refusal>
    requires all { n_of builder.old.graph ≡ list.now.count }
    requires v { v < list.now.count }
    requires point { IsPoint list.now.total list.now.bounds.items point.now }
    requires order { j < k }
    requires inside { k < length list.now.bounds.items }
    requires low { 0 < slice_index point.now j }
    ensures { Inserts builder.old builder.new (if nat_lt (slice_index point.now k) (slice_index list.now.bounds.items k)
        then move_from (points list.now.total list.now.bounds.items) v point.now j k ∷ [] else []) result }
{
    if point[k] >= list.bounds[k] {
        return Ok(());
    }
    let from = list.number_of_moved(point, j, k);
    builder.insert(VertexNo(from), VertexNo(v), 1)
}
