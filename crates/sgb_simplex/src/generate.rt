//! The two generators.
ghost use Rattle.std.specs.Prelude.{◌≡◌, ◌≤◌, ◌++◌, ◌∷◌, [], true, length, map, codes, get_or, pos, unsigned_abs, IfOk, IfErr, IsErrOf};
ghost use Rattle.sgb_graph.specs.Graph.{n_of};
ghost use Rattle.sgb_plan.specs.Id.{id_of, hexadecimal, flag_text};
ghost use Rattle.sgb_plan.specs.Plan.{IsMade, MayAllocate};
ghost use Rattle.sgb_simplex.specs.Bounds.{bounds_of, are_in_range, points_within, shown_parts};
ghost use Rattle.sgb_simplex.specs.Points.{points};
ghost use Rattle.sgb_simplex.specs.Private.Started.{RefusesPoints, started};
ghost use Rattle.sgb_simplex.specs.Simplex.{plan_of_simplex};
ghost use Rattle.sgb_simplex.specs.Subsets.{plan_of_subsets};

use crate::bounds::{bounds_of, first_of, shown_bound, total_of};
use crate::judge::count_of;
use crate::list::PointList;
use crate::moves::insert_moves;
use crate::naming::{name_vertices, point_types};
use crate::overlap::insert_pairs;
use crate::{SimplexSpec, SubsetsSpec};
use sgb_graph::{Builder, Graph, Refusal, Text};
use sgb_plan::{Part, id_of};
use std::alloc::Global;

/// The graph of the points whose coordinates have the sum `n` within their bounds, where each point is reached from those
/// that have one less at a coordinate and one more at a later one. The book's `simplex`.
///
/// Refused `BadSpecs` where `n` is not from 0 to 65,535 or there are more than 16 coordinates, and `TooLarge` where
/// there are more than 65,535 points or 1,000,000 numbers of arcs.
pub fn simplex(alloc: Global, spec: &SimplexSpec) -> Result<Graph, Refusal>
    ensures made { IsMade (plan_of_simplex spec.now) result }
    ensures room { IsErrOf result Refusal.NoRoom → MayAllocate (plan_of_simplex spec.now) }
{
    let numbers = [first_of(spec.n0), spec.n1, spec.n2, spec.n3, spec.n4];
    let list = list_points(alloc, spec.n, numbers[0], &numbers)?;
    let id = simplex_id(alloc, spec.n, &numbers, spec.directed)?;
    let mut builder = start(alloc, id, spec.directed, &list)?;
    insert_moves(&mut builder, &list)?;
    Ok(builder.finish())
}

/// The graph of the same points, where two are joined, and a point with itself, if the sum of their smaller
/// coordinates is a size whose bit is set in `size_bits`. The book's `subsets`.
///
/// Refused `BadSpecs` where `n` is not from 0 to 65,535 or there are more than 16 coordinates, and `TooLarge` where
/// there are more than 65,535 points or 1,000,000 numbers of arcs.
pub fn subsets(alloc: Global, spec: &SubsetsSpec) -> Result<Graph, Refusal>
    ensures made { IsMade (plan_of_subsets spec.now) result }
    ensures room { IsErrOf result Refusal.NoRoom → MayAllocate (plan_of_subsets spec.now) }
{
    let numbers = [first_of(spec.n0), spec.n1, spec.n2, spec.n3, spec.n4];
    let list = list_points(alloc, spec.n, numbers[0], &numbers)?;
    let id = subsets_id(alloc, spec.n, &numbers, spec.size_bits, spec.directed)?;
    let mut builder = start(alloc, id, spec.directed, &list)?;
    insert_pairs(&mut builder, alloc, &list, spec.size_bits)?;
    Ok(builder.finish())
}

// Lists the points that these numbers ask for.
fn list_points(alloc: Global, n: i64, first: i64, numbers: &[i64]) -> Result<PointList, Refusal>
    requires { first ≡ get_or numbers.now 0 (pos 0) }
    ensures total { IfOk result (λ list. list.total ≡ unsigned_abs n) }
    ensures bounds { IfOk result (λ list. list.bounds.items ≡ bounds_of (unsigned_abs n) numbers.now) }
    ensures range { IfOk result (λ list. are_in_range n numbers.now ≡ true) }
    ensures few { IfOk result (λ list. length (points_within n numbers.now) ≤ 65535) }
    ensures err { IfErr result (λ e. RefusesPoints n numbers.now e) }
    ensures room { IsErrOf result Refusal.NoRoom →
        (are_in_range n numbers.now ≡ true) × (length (points_within n numbers.now) ≤ 65535) }
{
    let total = total_of(n)?;
    let mut places = [0u32; 16];
    let width = bounds_of(total, first, numbers, &mut places)?;
    let bounds = &places[..width];
    let count = count_of(total, bounds)?;
    let list = PointList::new(alloc, total, bounds, count)?;
    Ok(list)
}

// A graph of the points, without arcs.
fn start(alloc: Global, id: Text, directed: bool, list: &PointList) -> Result<Builder, Refusal>
    requires { length id ≤ 160 }
    ensures value { IfOk result (λ builder. builder ≡ started id directed (points list.now.total list.now.bounds.items)) }
    ensures count { IfOk result (λ builder. n_of builder.graph ≡ list.now.count) }
    ensures err { IfErr result (λ e. e ≡ Refusal.NoRoom) }
{
    let mut builder = Builder::new(alloc, id, point_types(), directed);
    name_vertices(&mut builder, alloc, list)?;
    Ok(builder)
}

fn simplex_id(alloc: Global, n: i64, numbers: &[i64], directed: bool) -> Result<Text, Refusal>
    ensures value { IfOk result (λ id. id ≡ id_of (codes "simplex") (shown_parts n numbers.now ++ flag_text directed ∷ [])) }
    ensures short { IfOk result (λ id. length id ≤ 160) }
    ensures err { IfErr result (λ e. e ≡ Refusal.NoRoom) }
{
    let parts = [
        Part::Number(n),
        Part::Number(shown_bound(n, numbers, 0)),
        Part::Number(shown_bound(n, numbers, 1)),
        Part::Number(shown_bound(n, numbers, 2)),
        Part::Number(shown_bound(n, numbers, 3)),
        Part::Number(shown_bound(n, numbers, 4)),
        Part::Flag(directed),
    ];
    let id = id_of(alloc, "simplex", &parts)?;
    Ok(id)
}

fn subsets_id(
    alloc: Global,
    n: i64,
    numbers: &[i64],
    size_bits: u64,
    directed: bool,
) -> Result<Text, Refusal>
    ensures value { IfOk result (λ id. id ≡ id_of (codes "subsets") (shown_parts n numbers.now ++ hexadecimal size_bits ∷ flag_text directed ∷ [])) }
    ensures short { IfOk result (λ id. length id ≤ 160) }
    ensures err { IfErr result (λ e. e ≡ Refusal.NoRoom) }
{
    let parts = [
        Part::Number(n),
        Part::Number(shown_bound(n, numbers, 0)),
        Part::Number(shown_bound(n, numbers, 1)),
        Part::Number(shown_bound(n, numbers, 2)),
        Part::Number(shown_bound(n, numbers, 3)),
        Part::Number(shown_bound(n, numbers, 4)),
        Part::Bits(size_bits),
        Part::Flag(directed),
    ];
    let id = id_of(alloc, "subsets", &parts)?;
    Ok(id)
}
