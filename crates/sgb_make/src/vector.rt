//! The vectors of a piece, one after the other, and the insertions along each.
ghost use Rattle.std.specs.Prelude.{◌≡◌, ◌<◌, ◌≤◌, ◌-◌, ◌*◌, ◌⊎◌, ℕ, true, false, length, map, take, drop};
ghost use Rattle.sgb_graph.specs.Builder.{Inserts};
ghost use Rattle.sgb_graph.specs.Graph.{n_of};
ghost use Rattle.sgb_make.specs.Private.Link.{part_of};
ghost use Rattle.sgb_make.specs.Private.Rank.{IsSmall, cells};
ghost use Rattle.sgb_make.specs.Private.Signs.{along_signings, along_parts};
ghost use Rattle.sgb_make.specs.Private.Still.{IsStillAt};

use crate::link::Links;
use crate::ride::{insert_rides, most_steps};
use crate::side::{Course, Side, Step};
use sgb_graph::{Builder, MOST_ARCS, Refusal};

// Twice what a graph takes.
const TOO_MANY: usize = 2 * MOST_ARCS as usize;

// Inserts along the vectors that begin with the steps before `at` and go on with these absolute values, with both
// signs for each once a part other than 0 was seen.
fn insert_signed(
    builder: &mut Builder,
    tables: &mut Links,
    course: &Course,
    parts: &[u32],
    steps: &mut [Step],
    at: usize,
    seen: bool,
) -> Result<(), Refusal>
    requires parts { length parts.now ≡ length course.now.sides.items }
    requires steps { length steps.old ≡ length course.now.sides.items }
    requires at { at ≤ length course.now.sides.items }
    requires small { IsSmall course.now.sides.items }
    requires count { n_of builder.old.graph ≡ cells course.now.sides.items }
    ensures value { Inserts builder.old builder.new
        (along_signings course.now.sides.items course.now.rides (map part_of (take at steps.old)) (drop at parts.now) seen) result }
    ensures kept { take at steps.new ≡ take at steps.old }
{
    if at == parts.len() {
        return insert_rides(builder, tables, &course.sides, course.rides, steps);
    }
    let by = parts[at];
    steps[at] = Step { by, back: false };
    if by == 0 {
        return insert_signed(builder, tables, course, parts, steps, at + 1, seen);
    }
    insert_signed(builder, tables, course, parts, steps, at + 1, true)?;
    if !seen {
        return Ok(());
    }
    steps[at] = Step { by, back: true };
    insert_signed(builder, tables, course, parts, steps, at + 1, true)
}

// The first number whose square is above this.
fn root_end(left: u32) -> u32
    requires { left ≤ 128 }
    ensures few { (a : ℕ) → a < result → a * a ≤ left }
    ensures all { (a : ℕ) → result ≤ a → left < a * a }
{
    for a in 0..left + 1 {
        if a * a > left {
            return a;
        }
    }
    left + 1
}

// The parts of a vector along this side are below this number: squares of others are too large, or they lead off the
// side from each coordinate.
pub(crate) fn parts_end(side: Side, left: u32) -> u32
    requires { left ≤ 128 }
    ensures few { (a : ℕ) → a < result → a * a ≤ left }
    ensures all { (a : ℕ) → result ≤ a → (left < a * a) ⊎ ((side.wraps ≡ false) × (side.size ≤ a)) }
{
    let end = root_end(left);
    if side.wraps { end } else { end.min(side.size) }
}

// The part is a multiple of the size, so that a step along this side leads off it or nowhere else. A part that is not
// known yet is one only of 1.
fn is_still(side: Side, part: u32, known: bool) -> bool
    requires { 0 < side.size }
    ensures { result ≡ true → (side.size ≡ 1) ⊎ ((known ≡ true) × ((q : ℕ) × (part ≡ q * side.size))) }
{
    if side.size == 1 {
        return true;
    }
    known && part % side.size == 0
}

// A vector whose absolute values begin with the parts before `at` leads off the board or nowhere else.
pub(crate) fn are_still(sides: &[Side], parts: &[u32], at: usize) -> bool
    requires long { length parts.now ≡ length sides.now }
    requires small { IsSmall sides.now }
    ensures { result ≡ true → (k : ℕ) → k < length sides.now → IsStillAt sides.now parts.now at k }
{
    for k in 0..sides.len() {
        if !is_still(sides[k], parts[k], k < at) {
            return false;
        }
    }
    true
}

// Inserts along the vectors whose absolute values begin with the parts before `at`, and whose other squares sum to
// `left`.
pub(crate) fn insert_parts(
    builder: &mut Builder,
    tables: &mut Links,
    course: &Course,
    parts: &mut [u32],
    steps: &mut [Step],
    at: usize,
    left: u32,
) -> Result<(), Refusal>
    requires parts { length parts.old ≡ length course.now.sides.items }
    requires steps { length steps.old ≡ length course.now.sides.items }
    requires at { at ≤ length course.now.sides.items }
    requires left { left ≤ course.now.most }
    requires most { course.now.most ≤ 128 }
    requires small { IsSmall course.now.sides.items }
    requires count { n_of builder.old.graph ≡ cells course.now.sides.items }
    ensures value { Inserts builder.old builder.new
        (along_parts course.now.sides.items course.now.rides course.now.most (take at parts.old) (length course.now.sides.items - at) left) result }
    ensures kept { take at parts.new ≡ take at parts.old }
{
    if course.rides && are_still(&course.sides, parts, at) {
        return Ok(());
    }
    if at == parts.len() {
        return insert_whole(builder, tables, course, parts, steps, left);
    }
    for part in 0..parts_end(course.sides[at], left) {
        parts[at] = part;
        insert_parts(
            builder,
            tables,
            course,
            parts,
            steps,
            at + 1,
            left - part * part,
        )?;
    }
    Ok(())
}

// Inserts along the vectors of these absolute values, where their squares leave nothing of the sum.
fn insert_whole(
    builder: &mut Builder,
    tables: &mut Links,
    course: &Course,
    parts: &[u32],
    steps: &mut [Step],
    left: u32,
) -> Result<(), Refusal>
    requires parts { length parts.now ≡ length course.now.sides.items }
    requires steps { length steps.old ≡ length course.now.sides.items }
    requires small { IsSmall course.now.sides.items }
    requires count { n_of builder.old.graph ≡ cells course.now.sides.items }
    ensures { Inserts builder.old builder.new
        (along_parts course.now.sides.items course.now.rides course.now.most parts.now 0 left) result }
{
    if left > 0 {
        return Ok(());
    }
    insert_signed(builder, tables, course, parts, steps, 0, false)
}

// From how many positions step `len` stays on the board, summed over the vectors whose squares sum to `left`: a lower bound
// where ends are joined. The count stops early once a graph has no room for so many.
fn count_steps(sides: &[Side], left: u32, len: usize) -> usize
    requires { left ≤ 128 }
{
    let Some((side, others)) = sides.split_first() else {
        return if left == 0 { 1 } else { 0 };
    };
    let size = side.size as usize;
    let mut count: usize = 0;
    for part in 0..parts_end(*side, left) {
        let by = len.saturating_mul(part as usize);
        let here = if side.wraps && by < size {
            size
        } else {
            size.saturating_sub(by)
        };
        let signs = if part == 0 { 1 } else { 2 };
        let behind = count_steps(others, left - part * part, len);
        count = count.saturating_add(behind.saturating_mul(here).saturating_mul(signs));
        if count > TOO_MANY {
            break;
        }
    }
    count
}

// A lower bound of the number of insertions, exact without joined ends. A piece has one vector of each opposite pair.
pub(crate) fn count_insertions(course: &Course) -> usize
    requires { course.now.most ≤ 128 }
{
    let mut count: usize = 0;
    for len in 1..most_steps(course.rides, 65535) + 1 {
        let steps = count_steps(&course.sides, course.most, len);
        count = count.saturating_add(steps);
        if steps == 0 || count > TOO_MANY {
            break;
        }
    }
    count / 2
}
