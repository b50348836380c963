//! How many elements of each kind there are, and how many inversions.
ghost use Rattle.std.specs.Prelude.{◌≡◌, ◌≤◌, ◌<◌, ◌&&◌, false, true, pos, int_le, nat_le, length, take, sum, unsigned_abs, IfOk, IfErr};
ghost use Rattle.sgb_perms.specs.Arrangement.{greatest_from};
ghost use Rattle.sgb_perms.specs.Perms.{numbers_of, counts_of, are_allowed, most_of};

use crate::PermsSpec;
use sgb_graph::Refusal;
use sgb_simplex::list_within;

// The most elements.
const MOST_ELEMENTS: u64 = 255;

// Writes how many elements there are of each kind to the first of 16 places, and tells how many kinds there are. There
// is at least one element. It takes no memory.
pub(crate) fn counts_of(spec: &PermsSpec, places: &mut [u64]) -> Result<usize, Refusal>
    requires places { length places.old ≡ 16 }
    ensures counts { IfOk result (λ kinds. take kinds places.new ≡ counts_of spec.now) }
    ensures allowed { IfOk result (λ kinds. are_allowed spec.now.n0 spec.now.max_inv (counts_of spec.now) ≡ true) }
    ensures some { IfOk result (λ kinds. 0 < length (counts_of spec.now)) }
    ensures kinds { IfOk result (λ kinds. length (counts_of spec.now) ≤ 16) }
    ensures elements { IfOk result (λ kinds. sum (counts_of spec.now) ≤ 255) }
    ensures few { IfOk result (λ kinds. kinds ≤ 16) }
    ensures err { IfErr result (λ e. (e ≡ Refusal.BadSpecs)
        × (are_allowed spec.now.n0 spec.now.max_inv (counts_of spec.now) ≡ false)) }
{
    if !is_in_range(spec) {
        return Err(Refusal::BadSpecs);
    }
    let kinds = list_within(&numbers_of(spec), 1, places)?;
    if !are_few(&places[..kinds]) {
        return Err(Refusal::BadSpecs);
    }
    Ok(kinds)
}

// There is an element of kind 0, and the limit is not below 0.
fn is_in_range(spec: &PermsSpec) -> bool
    ensures { result ≡ (int_le (pos 1) spec.now.n0 && int_le (pos 0) spec.now.max_inv) }
{
    spec.n0 >= 1 && spec.max_inv >= 0
}

// The numbers of the kinds as they were given.
pub(crate) fn numbers_of(spec: &PermsSpec) -> [i64; 5]
    ensures { result ≡ numbers_of spec.now }
{
    [spec.n0, spec.n1, spec.n2, spec.n3, spec.n4]
}

// The limit of the inversions as it was given, which is not below 0 where a graph is made.
pub(crate) fn limit_of(spec: &PermsSpec) -> u64
    ensures { result ≡ unsigned_abs spec.now.max_inv }
{
    spec.max_inv.unsigned_abs()
}

// There are at most 255 elements together.
fn are_few(counts: &[u64]) -> bool
    ensures { result ≡ nat_le (sum counts.now) 255 }
{
    let mut elements = 0;
    for count in counts {
        if *count > MOST_ELEMENTS - elements {
            return false;
        }
        elements += *count;
    }
    true
}

// The greatest number of inversions: each two elements of different kinds are one.
fn greatest(counts: &[u64]) -> u64
    requires { sum counts.now ≤ 255 }
    ensures value { result ≡ greatest_from 0 counts.now }
    ensures small { result ≤ 65025 }
{
    let mut smaller = 0;
    let mut inversions = 0;
    for count in counts {
        inversions += smaller * *count;
        smaller += *count;
    }
    inversions
}

// The most inversions of a vertex, where no limit and one that is too large are the greatest number of them.
pub(crate) fn most_of(counts: &[u64], limit: u64) -> usize
    requires { sum counts.now ≤ 255 }
    ensures value { result ≡ most_of counts.now limit }
    ensures small { result ≤ 65025 }
{
    let greatest = greatest(counts);
    if limit == 0 || limit > greatest {
        greatest as usize
    } else {
        limit as usize
    }
}
