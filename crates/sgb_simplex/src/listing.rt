//! Lists that stand for longer ones, where there is a place for each of their numbers.
ghost use Rattle.std.specs.Prelude.{◌≡◌, ◌<◌, ◌≤◌, length, take, IfOk, IfErr};
ghost use Rattle.sgb_plan.specs.Listing.{leading, count_of, listed};

use sgb_graph::Refusal;

/// Writes the numbers that a list stands for to the first of these places, and tells how many they are. The first that
/// is not above 0 ends the list: 0 leaves the numbers before it, and -d repeats them, or cuts them, to d numbers and
/// `more`. Refused `BadSpecs` where there are more numbers than places. It takes no memory.
pub fn list_within(numbers: &[i64], more: u32, places: &mut [u64]) -> Result<usize, Refusal>
    ensures list { IfOk result (λ count. take count places.new ≡ listed more numbers.now) }
    ensures few { IfOk result (λ count. count ≤ length places.old) }
    ensures err { IfErr result (λ e. (e ≡ Refusal.BadSpecs) × (length places.old < count_of more numbers.now)) }
{
    let period = leading(numbers);
    let count = count_of(numbers, period, more);
    if count > places.len() as u64 {
        return Err(Refusal::BadSpecs);
    }
    for i in 0..count as usize {
        places[i] = numbers[i % period].unsigned_abs();
    }
    Ok(count as usize)
}

// How many numbers stand before the end.
fn leading(numbers: &[i64]) -> usize
    ensures { result ≡ leading numbers.now }
{
    numbers.iter().take_while(|number| **number > 0).count()
}

// How many numbers are listed, where so many stand before the end.
fn count_of(numbers: &[i64], period: usize, more: u32) -> u64
    requires { period ≡ leading numbers.now }
    ensures { result ≡ count_of more numbers.now }
{
    if period == 0 {
        return 0;
    }
    match numbers.get(period) {
        Some(end) if *end < 0 => end.unsigned_abs() + more as u64,
        _ => period as u64,
    }
}
