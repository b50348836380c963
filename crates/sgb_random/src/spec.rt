//! What a random graph is to be like, and whether there can be one.
ghost use Rattle.std.specs.Prelude.{◌≡◌, ◌≤◌, ◌<◌, None, Some, pos, not, ◌&&◌, int_le, int_lt, IfErr, OnOk, IfOk};
ghost use Rattle.sgb_random.specs.Random.{is_small, refusal_of_random, size_of, wanted};

use sgb_graph::Refusal;
use sgb_plan::LengthRange;

/// What a random graph is to be like (the arguments of `random_graph` in the book's `gb_rand`, without distributions).
#[derive(Clone, Copy, Debug, PartialEq, Eq)]
pub struct RandomSpec {
    /// How many vertices there are, from 1 to 65,535.
    pub n: i64,
    /// How many arcs or edges are made, from 0 on; the graph gives out at most 1,000,000 numbers for them.
    pub m: i64,
    /// Above 0 a pair may be joined again. With 0 it is not, and the attempt goes for nothing. Below 0 it is not, but
    /// the attempt counts, and may shorten what joins the pair.
    pub multi: i64,
    /// Whether a vertex may be joined to itself.
    pub loops: bool,
    /// Whether arcs are made, or edges.
    pub directed: bool,
    /// The least length.
    pub min: i64,
    /// The greatest length, less than 2^31 above the least.
    pub max: i64,
}

// Judges what can be judged before any draw, and answers the lengths.
pub(crate) fn judge(spec: RandomSpec) -> Result<LengthRange, Refusal>
    ensures ok { OnOk result (refusal_of_random spec ≡ None) }
    ensures min { IfOk result (λ range. range.min ≡ spec.min) }
    ensures max { IfOk result (λ range. range.max ≡ spec.max) }
    ensures err { IfErr result (λ e. refusal_of_random spec ≡ Some e) }
{
    if !is_sound(spec) {
        return Err(Refusal::BadSpecs);
    }
    let range = LengthRange::new(spec.min, spec.max)?;
    if !is_small(spec) {
        return Err(Refusal::TooLarge);
    }
    Ok(range)
}

// There is a vertex, and the number of arcs or edges that are wanted is not below 0.
fn is_sound(spec: RandomSpec) -> bool
    ensures { result ≡ (int_lt (pos 0) spec.n && int_le (pos 0) spec.m) }
{
    spec.n > 0 && spec.m >= 0
}

// There are neither too many vertices nor too many numbers.
fn is_small(spec: RandomSpec) -> bool
    ensures { result ≡ is_small spec }
{
    let most = if spec.directed { 1_000_000 } else { 500_000 };
    spec.n.unsigned_abs() <= 65_535 && spec.m.unsigned_abs() <= most
}

// How many vertices there are.
pub(crate) fn vertices(spec: RandomSpec) -> u32
    requires { refusal_of_random spec ≡ None }
    ensures value { result ≡ size_of spec }
    ensures some { 0 < result }
    ensures few { result ≤ 65535 }
{
    spec.n.unsigned_abs() as u32
}

// How many arcs or edges are to be made.
pub(crate) fn wanted(spec: RandomSpec) -> u32
    requires { refusal_of_random spec ≡ None }
    ensures value { result ≡ wanted spec }
    ensures few { result ≤ 1000000 }
{
    spec.m.unsigned_abs() as u32
}

// Whether a pair may be joined again.
#[inline]
pub(crate) fn repeats(spec: RandomSpec) -> bool
    ensures { result ≡ not (int_le spec.multi (pos 0)) }
{
    spec.multi > 0
}

// Whether a pair that is joined takes a smaller length instead.
#[inline]
pub(crate) fn shortens(spec: RandomSpec) -> bool
    ensures { result ≡ int_lt spec.multi (pos 0) }
{
    spec.multi < 0
}
