//! The sizes of a board, and its sides.
ghost use Rattle.std.specs.Prelude.{◌≡◌, ◌<◌, ◌≤◌, ◌*◌, length, All, IfOk, IfErr, IfSome, IfNone};
ghost use Rattle.sgb_make.specs.Board.{sides_of, has_bit};
ghost use Rattle.sgb_make.specs.Private.Rank.{volume};

use crate::side::Side;
use sgb_graph::Refusal;
use std::alloc::{AllocError, Global};

// The product, unless it is above the greatest number of vertices.
fn times(count: u32, size: u64) -> Option<u32>
    ensures some { IfSome result (λ n. (n ≡ count * size) × (n ≤ 65535)) }
    ensures none { IfNone result (65535 < count * size) }
{
    let product = (count as u64).checked_mul(size)?;
    if product > 65535 {
        None
    } else {
        Some(product as u32)
    }
}

/// How many positions there are. Refused `TooLarge` where these are more than 65,535.
pub(crate) fn count_of(sizes: &[u64]) -> Result<u32, Refusal>
    requires { All (λ size. 0 < size) sizes.now }
    ensures ok { IfOk result (λ n. (n ≡ volume sizes.now) × (n ≤ 65535)) }
    ensures err { IfErr result (λ e. (e ≡ Refusal.TooLarge) × (65535 < volume sizes.now)) }
{
    let mut count = 1;
    for size in sizes {
        let Some(more) = times(count, *size) else {
            return Err(Refusal::TooLarge);
        };
        count = more;
    }
    Ok(count)
}

// Bit k of a number in two's complement.
fn has_bit(number: i64, k: usize) -> bool
    requires { k < 64 }
    ensures { result ≡ has_bit number k }
{
    (number >> k).rem_euclid(2) == 1
}

/// The sides of these sizes, and of these bits.
pub(crate) fn sides_of(alloc: Global, sizes: &[u64], wrap: i64) -> Result<Vec<Side>, AllocError>
    requires small { All (λ size. size ≤ 65535) sizes.now }
    requires few { length sizes.now ≤ 20 }
    ensures { IfOk result (λ sides. sides.items ≡ sides_of wrap sizes.now) }
{
    let mut sides = Vec::with_capacity(alloc, sizes.len())?;
    for k in 0..sizes.len() {
        sides.push(Side {
            size: sizes[k] as u32,
            wraps: has_bit(wrap, k),
        })?;
    }
    Ok(sides)
}
