//! Inserts the exchanges.
ghost use Rattle.std.specs.Prelude.{◌≡◌, ◌≤◌, ◌<◌, length};
ghost use Rattle.sgb_graph.specs.Builder.{Inserts};
ghost use Rattle.sgb_graph.specs.Graph.{n_of};
ghost use Rattle.sgb_perms.specs.Perms.{exchanges, exchanges_of, row_at};
ghost use Rattle.sgb_perms.specs.Private.Places.{IsIndexOf, IsClosed};

use crate::places::{Places, find_place};
use crate::rows::Rows;
use sgb_graph::{Builder, Refusal, VertexNo};
use std::alloc::Global;

// Inserts the exchanges that lead to each row.
pub(crate) fn insert_exchanges(
    builder: &mut Builder,
    alloc: Global,
    rows: &Rows,
    places: &Places<'_>,
) -> Result<(), Refusal>
    requires vertices { n_of builder.old.graph ≡ length rows.now.rows }
    requires places { IsIndexOf rows.now.rows places.now }
    requires closed { IsClosed rows.now.rows }
    ensures { Inserts builder.old builder.new (exchanges rows.now.rows) result }
{
    builder.reserve(count_exchanges(rows))?;
    let mut moved = Vec::with_capacity(alloc, rows.width())?;
    let mut distances = [usize::MAX; 16];
    for v in 0..rows.len() {
        moved.clear();
        moved.extend_from_slice(rows.row(v))?;
        insert_to(
            builder,
            rows,
            VertexNo(v as u32),
            places,
            &mut moved,
            &mut distances,
        )?;
    }
    Ok(())
}

// Inserts the exchanges that lead to the vertex. `moved` is a copy of its row, in which each exchange is made and undone.
// The arrangement that an exchange comes from mostly stands as far before its vertex as it last did for an element of
// this kind: always so where each kind has one element and there is no limit.
fn insert_to(
    builder: &mut Builder,
    rows: &Rows,
    to: VertexNo,
    places: &Places<'_>,
    moved: &mut [u8],
    distances: &mut [usize],
) -> Result<(), Refusal>
    requires vertex { to.0 < length rows.now.rows }
    requires vertices { n_of builder.old.graph ≡ length rows.now.rows }
    requires few { length rows.now.rows ≤ 65535 }
    requires places { IsIndexOf rows.now.rows places.now }
    requires closed { IsClosed rows.now.rows }
    requires moved { moved.old ≡ row_at rows.now.rows to.0 }
    ensures { Inserts builder.old builder.new (exchanges_of rows.now.rows to.0 (row_at rows.now.rows to.0)) result }
{
    let row = rows.row(to.0 as usize);
    for place in 0..row.len().saturating_sub(1) {
        let (left, right) = (row[place], row[place + 1]);
        if right < left {
            let guess = source_near(distances, left, to);
            moved.swap(place, place + 1);
            let from = find_place(places, moved, guess);
            moved.swap(place, place + 1);
            keep_distance(distances, left, to, from);
            builder.insert(VertexNo(from as u32), to, 1)?;
        }
    }
    Ok(())
}

// A guess of the place from which an element of this kind was exchanged: the first one where none was yet.
fn source_near(distances: &[usize], kind: u8, to: VertexNo) -> usize {
    let distance = distances.get(kind as usize).copied().unwrap_or(0);
    (to.0 as usize).saturating_sub(distance)
}

// Keeps how far before the vertex that place was.
fn keep_distance(distances: &mut [usize], kind: u8, to: VertexNo, from: usize) {
    if let Some(distance) = distances.get_mut(kind as usize) {
        *distance = (to.0 as usize).wrapping_sub(from);
    }
}

// How many exchanges there are, so that room for them is taken once.
fn count_exchanges(rows: &Rows) -> usize {
    let mut count: usize = 0;
    for v in 0..rows.len() {
        count = count.saturating_add(count_descents(rows.row(v)));
    }
    count
}

fn count_descents(row: &[u8]) -> usize {
    row.windows(2).filter(|pair| pair[1] < pair[0]).count()
}
