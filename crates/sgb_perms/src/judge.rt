//! How many arrangements there are, told before any of them is listed.
ghost use Rattle.std.specs.Prelude.{◌≡◌, ◌≤◌, ◌<◌, ◌+◌, length, min, sum, IfOk, IfErr};
ghost use Rattle.sgb_perms.specs.Arrangement.{arrangements};
ghost use Rattle.sgb_perms.specs.Private.Counted.{copies_counted, rows_counted};

use sgb_graph::{MOST_VERTICES, Refusal};

// How many arrangements with at most so many inversions there are. Refused `TooLarge` where they are more than 65,535.
// It takes no memory.
pub(crate) fn count_arrangements(counts: &[u64], most: usize) -> Result<u32, Refusal>
    requires some { 0 < length counts.now }
    requires elements { sum counts.now ≤ 255 }
    ensures ok { IfOk result (λ count. (count ≡ length (arrangements counts.now most)) × (count ≤ 65535)) }
    ensures err { IfErr result (λ e. (e ≡ Refusal.TooLarge) × (65535 < length (arrangements counts.now most))) }
{
    let zeros = counts[0] as usize;
    let count = count_rows(zeros, 0, &counts[1..], 0, most, 0);
    if count > MOST_VERTICES {
        return Err(Refusal::TooLarge);
    }
    Ok(count)
}

// Counts on from `found` what comes of a row where so many copies of a kind go in, up to `long` elements, and then those
// of the other kinds, which have these counts: no copy with more elements behind it than `right`, which is how many the
// one before has, and all together with at most `left`. A count of 65,536 stands for more.
fn count_rows(
    long: usize,
    copies: u64,
    others: &[u64],
    right: usize,
    left: usize,
    found: u32,
) -> u32
    requires width { long + sum others.now ≤ 255 }
    requires right { right ≤ long }
    requires few { found ≤ 65535 }
    ensures { result ≡ min 65536 (found + copies_counted copies (rows_counted others.now long) right left) }
{
    if copies == 0 {
        return match others.split_first() {
            Some((next, others)) => {
                count_rows(long + *next as usize, *next, others, long, left, found)
            }
            None => found + 1,
        };
    }
    let mut count = found;
    for x in 0..right.min(left) + 1 {
        count = count_rows(long, copies - 1, others, x, left - x, count);
        if count > MOST_VERTICES {
            return count;
        }
    }
    count
}
