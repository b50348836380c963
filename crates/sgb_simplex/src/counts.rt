//! How many points there are with each sum, so that a point's number is a sum of differences.
ghost use Rattle.std.specs.Prelude.{◌≡◌, ◌≤◌, ◌<◌, ◌+◌, ◌-◌, [], length, drop, IfOk};
ghost use Rattle.sgb_simplex.specs.Private.Counts.{IsRow, IsTable};

use std::alloc::{AllocError, Global};

/// A count of this many stands for this or more.
const MANY: u64 = 65_536;

// The row of no coordinates: the one point without any has the sum 0.
fn row_of_none(alloc: Global, total: u32) -> Result<Vec<u64>, AllocError>
    requires { total ≤ 65535 }
    ensures { IfOk result (λ row. IsRow [] total row.items) }
{
    let mut row = vec![in alloc; 1u64; total as usize + 2]?;
    row[0] = 0;
    Ok(row)
}

// The row of the coordinates from `place` on, from the row of those behind it.
fn next_row(
    alloc: Global,
    row: &[u64],
    bounds: &[u32],
    place: usize,
    total: u32,
) -> Result<Vec<u64>, AllocError>
    requires place { place < length bounds.now }
    requires total { total ≤ 65535 }
    requires row { IsRow (drop (place + 1) bounds.now) total row.now }
    ensures { IfOk result (λ next. IsRow (drop place bounds.now) total next.items) }
{
    let bound = bounds[place] as usize;
    let mut next = Vec::with_capacity(alloc, total as usize + 2)?;
    let mut sum = 0u64;
    next.push(0)?;
    for s in 0..total as usize + 1 {
        let ways = row[s + 1] - row[s - s.min(bound)];
        sum += ways.min(MANY);
        next.push(sum)?;
    }
    Ok(next)
}

/// The rows of no coordinates, of the last one, of the last two, and so on.
pub(crate) fn count_rows(
    alloc: Global,
    bounds: &[u32],
    total: u32,
) -> Result<Vec<Vec<u64>>, AllocError>
    requires { total ≤ 65535 }
    ensures { IfOk result (λ rows. IsTable bounds.now total rows.items) }
{
    let mut rows = Vec::with_capacity(alloc, bounds.len() + 1)?;
    rows.push(row_of_none(alloc, total)?)?;
    for behind in 0..bounds.len() {
        let row = next_row(
            alloc,
            &rows[behind],
            bounds,
            bounds.len() - 1 - behind,
            total,
        )?;
        rows.push(row)?;
    }
    Ok(rows)
}
