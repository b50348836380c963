//! The bounds of coordinates, by the numbers that are given.
ghost use Rattle.std.specs.Prelude.{◌≡◌, ◌≤◌, ◌<◌, pos, false, get_or, length, take, replicate, IfOk, IfErr, map, min};
ghost use Rattle.sgb_simplex.specs.Bounds.{first_of, bounds_of, is_total, shown_bound};

use crate::listing::list_within;
use sgb_graph::Refusal;
use sgb_plan::shown_at;

/// The first number, where 0 stands for -2.
pub(crate) fn first_of(n0: i64) -> i64
    ensures { result ≡ first_of n0 }
{
    if n0 == 0 { -2 } else { n0 }
}

/// The number at this place, as ids show it.
pub(crate) fn shown_bound(n: i64, numbers: &[i64], place: usize) -> i64
    ensures { result ≡ shown_bound n numbers.now place }
{
    shown_at(numbers, place).min(n)
}

/// The sum of the coordinates. Refused `BadSpecs` where it is not from 0 to 65,535.
pub(crate) fn total_of(n: i64) -> Result<u32, Refusal>
    ensures value { IfOk result (λ total. pos total ≡ n) }
    ensures small { IfOk result (λ total. total ≤ 65535) }
    ensures err { IfErr result (λ e. (e ≡ Refusal.BadSpecs) × (is_total n ≡ false)) }
{
    if n < 0 || n > 65_535 {
        return Err(Refusal::BadSpecs);
    }
    Ok(n as u32)
}

/// Writes the bounds of the coordinates to the first of 16 places, and tells how many they are. Refused `BadSpecs` where
/// they are more than 16.
pub(crate) fn bounds_of(
    total: u32,
    first: i64,
    numbers: &[i64],
    places: &mut [u32],
) -> Result<usize, Refusal>
    requires first { first ≡ get_or numbers.now 0 (pos 0) }
    requires places { length places.old ≡ 16 }
    ensures list { IfOk result (λ width. take width places.new ≡ bounds_of total numbers.now) }
    ensures narrow { IfOk result (λ width. width ≤ 16) }
    ensures err { IfErr result (λ e. (e ≡ Refusal.BadSpecs) × (16 < length (bounds_of total numbers.now))) }
{
    if first < -15 {
        return Err(Refusal::BadSpecs);
    }
    if first < 0 {
        let width = first.unsigned_abs() as usize + 1;
        repeat_to(total, width, places);
        return Ok(width);
    }
    let mut list = [0u64; 16];
    let width = list_within(numbers, 1, &mut list)?;
    cut_to(total, &list[..width], places);
    Ok(width)
}

// Writes n to the first places.
fn repeat_to(n: u32, count: usize, places: &mut [u32])
    requires { count ≤ length places.old }
    ensures { take count places.new ≡ replicate count n }
{
    for i in 0..count {
        places[i] = n;
    }
}

// Writes the numbers to the first places, where none is above n.
fn cut_to(n: u32, list: &[u64], places: &mut [u32])
    requires { length list.now ≤ length places.old }
    ensures { take (length list.now) places.new ≡ map (λ b. min b n) list.now }
{
    for i in 0..list.len() {
        places[i] = list[i].min(u64::from(n)) as u32;
    }
}
