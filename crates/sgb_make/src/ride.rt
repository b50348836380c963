//! The insertions of the rides along one vector.
ghost use Rattle.std.specs.Prelude.{◌≡◌, ◌<◌, ◌≤◌, ◌==◌, ◌&&◌, if◌then◌else◌, length, map, All};
ghost use Rattle.sgb_graph.specs.Builder.{Inserts};
ghost use Rattle.sgb_graph.specs.Graph.{n_of};
ghost use Rattle.sgb_make.specs.Ride.{rides_along};
ghost use Rattle.sgb_make.specs.Private.Link.{part_of, trip_from, trips};
ghost use Rattle.sgb_make.specs.Private.Rank.{IsSmall, cells};

use crate::link::{Links, link};
use crate::side::{Side, Step};
use sgb_graph::{Builder, Refusal, VertexNo};

// How many steps a ride has at most.
pub(crate) fn most_steps(rides: bool, count: usize) -> usize
    ensures most { result ≡ (if rides then count else 1) }
    ensures few { 0 < count → result ≤ count }
{
    if rides { count } else { 1 }
}

// A rider is back where it began.
fn is_back(rides: bool, from: u32, to: u32) -> bool
    ensures { result ≡ (rides && (to == from)) }
{
    rides && to == from
}

// Inserts a ride by the links, from one position until it ends.
fn insert_trip(builder: &mut Builder, table: &[u32], rides: bool, from: u32) -> Result<(), Refusal>
    requires from { from < length table.now }
    requires low { All (λ t. t ≤ length table.now) table.now }
    requires few { length table.now ≤ 65535 }
    requires count { n_of builder.old.graph ≡ length table.now }
    ensures { Inserts builder.old builder.new (trip_from table.now rides from) result }
{
    let end = most_steps(rides, table.len()) + 1;
    let mut at = from;
    for len in 1..end {
        let link = table[at as usize];
        if link == 0 {
            return Ok(());
        }
        at = link - 1;
        if is_back(rides, from, at) {
            return Ok(());
        }
        builder.insert(VertexNo(from), VertexNo(at), len as i64)?;
    }
    Ok(())
}

// Inserts the rides by the links, from each position.
fn insert_trips(builder: &mut Builder, table: &[u32], rides: bool) -> Result<(), Refusal>
    requires low { All (λ t. t ≤ length table.now) table.now }
    requires few { length table.now ≤ 65535 }
    requires count { n_of builder.old.graph ≡ length table.now }
    ensures { Inserts builder.old builder.new (trips table.now rides) result }
{
    for from in 0..table.len() {
        insert_trip(builder, table, rides, from as u32)?;
    }
    Ok(())
}

// Inserts the rides along the vector of these steps.
pub(crate) fn insert_rides(
    builder: &mut Builder,
    tables: &mut Links,
    sides: &[Side],
    rides: bool,
    steps: &[Step],
) -> Result<(), Refusal>
    requires parts { length steps.now ≡ length sides.now }
    requires small { IsSmall sides.now }
    requires count { n_of builder.old.graph ≡ cells sides.now }
    ensures { Inserts builder.old builder.new (rides_along sides.now rides (map part_of steps.now)) result }
{
    link(tables, sides, steps)?;
    insert_trips(builder, &tables.table, rides)
}
