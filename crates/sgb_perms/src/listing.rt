//! Lists arrangements in the order of their vectors.
ghost use Rattle.std.specs.Prelude.{◌≡◌, ◌⊎◌, ◌≤◌, ◌<◌, ◌+◌, length, sum, IfOk, IfErr, OnOk};
ghost use Rattle.sgb_perms.specs.Arrangement.{arrangements};
ghost use Rattle.sgb_perms.specs.Private.Listed.{copies_from, rows_from};
ghost use Rattle.sgb_perms.specs.Private.Rows.{Lists};

use crate::rows::Rows;
use sgb_graph::Refusal;
use std::alloc::Global;

// The arrangements with at most so many inversions, with room for so many taken at once.
pub(crate) fn list_arrangements(
    alloc: Global,
    counts: &[u64],
    most: usize,
    count: usize,
) -> Result<Rows, Refusal>
    requires few { count ≤ 65535 }
    requires some { 0 < length counts.now }
    requires kinds { length counts.now ≤ 16 }
    requires elements { sum counts.now ≤ 255 }
    ensures ok { IfOk result (λ rows. rows ≡ record { width = sum counts.now; rows = arrangements counts.now most }) }
    ensures err { IfErr result (λ e. (e ≡ Refusal.NoRoom) ⊎
        ((e ≡ Refusal.TooLarge) × (65535 < length (arrangements counts.now most)))) }
{
    let zeros = counts[0];
    let others = &counts[1..];
    let width = width_of(counts);
    let mut row = Vec::with_capacity(alloc, width)?;
    row.resize(zeros as usize, 0)?;
    let mut rows = Rows::with_capacity(alloc, width, count)?;
    list_rows(&mut rows, &mut row, 0, 0, others, 0, most)?;
    Ok(rows)
}

// How many elements there are together.
fn width_of(counts: &[u64]) -> usize
    requires { sum counts.now ≤ 255 }
    ensures { result ≡ sum counts.now }
{
    let width: u64 = counts.iter().sum();
    width as usize
}

// Lists what comes of the row where so many copies of the kind go in, and then those of the others, which have these
// counts: no copy with more elements behind it than `right`, which is how many the one before has, and all together
// with at most `left`. The row is as before then.
fn list_rows(
    rows: &mut Rows,
    row: &mut Vec<u8>,
    kind: u8,
    copies: u64,
    others: &[u64],
    right: usize,
    left: usize,
) -> Result<(), Refusal>
    requires kinds { kind + length others.now < 256 }
    requires right { right ≤ length row.old.items }
    requires width { length row.old.items + copies + sum others.now ≡ rows.old.width }
    requires narrow { rows.old.width ≤ 255 }
    ensures rows { Lists rows.old rows.new
        (copies_from copies kind (rows_from (kind + 1) others.now) right left row.old.items) result }
    ensures row { OnOk result (row.new.items ≡ row.old.items) }
{
    if copies == 0 {
        return match others.split_first() {
            Some((next, others)) => list_rows(rows, row, kind + 1, *next, others, row.len(), left),
            None => rows.push(row),
        };
    }
    for x in 0..right.min(left) + 1 {
        let place = row.len() - x;
        row.insert(place, kind)?;
        list_rows(rows, row, kind, copies - 1, others, x, left - x)?;
        row.remove(place);
    }
    Ok(())
}
