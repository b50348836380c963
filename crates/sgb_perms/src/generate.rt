//! Makes the graph.
ghost use Rattle.std.specs.Prelude.{IsErrOf};
ghost use Rattle.sgb_plan.specs.Plan.{IsMade, MayAllocate};
ghost use Rattle.sgb_perms.specs.Perms.{plan_of_perms};

use crate::PermsSpec;
use crate::counts::{counts_of, limit_of, most_of};
use crate::exchanges::insert_exchanges;
use crate::judge::count_arrangements;
use crate::listing::list_arrangements;
use crate::names::{id_of_perms, name_vertices};
use crate::places::index_places;
use sgb_graph::{Builder, Graph, Refusal, Types};
use std::alloc::Global;

/// The graph of the arrangements of a multiset (`perms` of the Stanford GraphBase). There are n0 elements of kind 0, n1
/// of kind 1, and so on: the first of n1 to n4 that is not above 0 ends the list of kinds; 0 leaves those before it, and
/// -d repeats them, or cuts them, to d + 1 kinds. A vertex is an arrangement with at most `max_inv` inversions, which are
/// pairs with the greater element in front; 0 sets no limit. It is named by a character of `0123456789ABCDEF` for each
/// element. The vertices stand in the lexicographic order of their vectors: how many smaller elements each has behind
/// it, kind after kind, from the left. To each vertex an arc, or an edge, of length 1 leads from each arrangement that
/// comes of it by the exchange of two neighbours of which the first is greater.
///
/// Refused `BadSpecs` where `n0` is below 1 or `max_inv` below 0, and where there are more than 16 kinds or 255
/// elements; then `TooLarge` where there are more than 65,535 vertices, which takes no memory to tell, or 1,000,000 arc
/// numbers.
pub fn perms(alloc: Global, spec: &PermsSpec) -> Result<Graph, Refusal>
    ensures made { IsMade (plan_of_perms spec.now) result }
    ensures room { IsErrOf result Refusal.NoRoom → MayAllocate (plan_of_perms spec.now) }
{
    let mut counts = [0u64; 16];
    let kinds = counts_of(spec, &mut counts)?;
    let counts = &counts[..kinds];
    let most = most_of(counts, limit_of(spec));
    let count = count_arrangements(counts, most)?;
    let rows = list_arrangements(alloc, counts, most, count as usize)?;
    let id = id_of_perms(alloc, spec, most as u32)?;
    let mut builder = Builder::new(alloc, id, Types::none(), spec.directed);
    name_vertices(&mut builder, alloc, &rows)?;
    let places = index_places(alloc, &rows)?;
    insert_exchanges(&mut builder, alloc, &rows, &places)?;
    Ok(builder.finish())
}
