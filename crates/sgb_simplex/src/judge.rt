//! How many points there are, told before any of them is listed.
ghost use Rattle.std.specs.Prelude.{◌≡◌, ◌≤◌, ◌<◌, ◌+◌, ◌-◌, ◌^◌, length, drop, min, All, IfOk, IfErr};
ghost use Rattle.std.specs.List.{sum};
ghost use Rattle.sgb_simplex.specs.Points.{points};

use sgb_graph::Refusal;

/// How many points there are. Refused `TooLarge` where they are more than 65,535. It takes no memory.
pub(crate) fn count_of(total: u32, bounds: &[u32]) -> Result<u32, Refusal>
    requires total { total ≤ 65535 }
    requires narrow { length bounds.now ≤ 16 }
    requires bounded { All (λ b. b ≤ 65535) bounds.now }
    ensures ok { IfOk result (λ count. (count ≡ length (points total bounds.now)) × (count ≤ 65535)) }
    ensures err { IfErr result (λ e. (e ≡ Refusal.TooLarge) × (65535 < length (points total bounds.now))) }
{
    let room = sum_of(bounds);
    if total > room {
        return Ok(0);
    }
    let count = count_from(bounds, 0, total, room, 0);
    if count > 65_535 {
        return Err(Refusal::TooLarge);
    }
    Ok(count)
}

/// The sum of the bounds.
pub(crate) fn sum_of(bounds: &[u32]) -> u32
    requires { sum bounds.now < 2 ^ 32 }
    ensures { result ≡ sum bounds.now }
{
    bounds.iter().sum()
}

// Counts on from `found` those whose coordinates from `place` on have the sum `left`, where 65,536 stands for more; the
// bounds of these coordinates have the sum `room`.
fn count_from(bounds: &[u32], place: usize, left: u32, room: u32, found: u32) -> u32
    requires place { place ≤ length bounds.now }
    requires room { room ≡ sum (drop place bounds.now) }
    requires left { left ≤ room }
    requires small { left ≤ 65535 }
    requires few { found ≤ 65535 }
    ensures { result ≡ min 65536 (found + length (points left (drop place bounds.now))) }
{
    if bounds.len() - place <= 1 {
        return found + 1;
    }
    let bound = bounds[place];
    let behind = room - bound;
    let mut count = found;
    for x in left.saturating_sub(behind)..bound.min(left) + 1 {
        count = count_from(bounds, place + 1, left - x, behind, count);
        if count > 65_535 {
            return count;
        }
    }
    count
}
