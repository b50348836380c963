//! Lists that stand for longer ones, as the sizes of a board.
ghost use Rattle.std.specs.Prelude.{◌≡◌, ◌⊎◌, ◌<◌, ◌≤◌, length, IfOk, IfErr};
ghost use Rattle.sgb_plan.specs.Listing.{leading, count_of, listed, shown_at};

use sgb_graph::Refusal;
use std::alloc::Global;

/// The numbers that a list stands for. The first that is not above 0 ends it: 0 leaves the numbers before it, and -d
/// repeats them, or cuts them, to d numbers and `more`; where there are none before it, none are listed. Refused `BadSpecs` where these are more than `most`.
#[tactic(auto, unfolding(crate::specs::Listing::listed))]
pub fn list_of(alloc: Global, numbers: &[i64], more: u32, most: u32) -> Result<Vec<u64>, Refusal>
    ensures list { IfOk result (λ list. list.items ≡ listed more numbers.now) }
    ensures few { IfOk result (λ list. length list.items ≤ most) }
    ensures err { IfErr result (λ e. (e ≡ Refusal.NoRoom) ⊎ ((e ≡ Refusal.BadSpecs) × (most < count_of more numbers.now))) }
{
    let period = leading(numbers);
    let count = count_of(numbers, period, more);
    if count > most as u64 {
        return Err(Refusal::BadSpecs);
    }
    let mut list = Vec::new(alloc);
    for i in 0..count as usize {
        list.push(numbers[i % period].unsigned_abs())?;
    }
    Ok(list)
}

/// The number at this place of a list, as ids show it: 0 behind the end.
pub fn shown_at(numbers: &[i64], place: usize) -> i64
    ensures { result ≡ shown_at numbers.now place }
{
    if place <= leading(numbers) {
        numbers.get(place).copied().unwrap_or(0)
    } else {
        0
    }
}

// How many numbers stand before the end.
fn leading(numbers: &[i64]) -> usize
    ensures { result ≡ leading numbers.now }
{
    numbers.iter().take_while(|number| **number > 0).count()
}

// How many numbers are listed, where so many stand before the end.
fn count_of(numbers: &[i64], period: usize, more: u32) -> u64
    requires { period ≡ leading numbers.now }
    ensures { result ≡ count_of more numbers.now }
{
    if period == 0 {
        return 0;
    }
    match numbers.get(period) {
        Some(end) if *end < 0 => end.unsigned_abs() + more as u64,
        _ => period as u64,
    }
}
