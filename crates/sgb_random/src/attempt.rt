//! One attempt: two vertices are drawn, and what comes of them.
ghost use Rattle.std.specs.Prelude.{◌≡◌, ◌≤◌, ◌<◌, ◌+◌, ◌^◌, ◌∷◌, [], ◌++◌, ◌==◌, ◌&&◌, not, length, set, int_le, int_lt, pos, true, IfErr, OnOk};
ghost use Rattle.std.specs.Int.{int_min};
ghost use Rattle.sgb_flip.specs.Generator.{IsGenerator};
ghost use Rattle.sgb_graph.specs.declared.builder.Builder.{Builder as Base};
ghost use Rattle.sgb_graph.specs.Builder.{insertion};
ghost use Rattle.sgb_plan.specs.Length.{drawn_length};
ghost use Rattle.sgb_random.specs.declared.spec.RandomSpec.{RandomSpec as Spec};
ghost use Rattle.sgb_random.specs.Random.{Course, attempted, tried, with_length, size_of};
ghost use Rattle.sgb_random.specs.Private.Progress.{
  Follows,
  IsIndexed,
  IsKept,
  IsLengths,
  IsReady,
  insertion_of,
  key_of,
  with_len_at,
};
ghost use Rattle.sgb_random.specs.Private.Table.{HasRoom, IsListed};

use crate::RandomSpec;
use crate::progress::{Edge, Progress};
use crate::spec::{repeats, shortens};
use sgb_flip::Flip;
use sgb_graph::{Refusal, VertexNo};
use sgb_plan::LengthRange;

// Draws two of the `n` vertices and tries to join them. Where memory is wanting, the draws are counted all the same.
pub(crate) fn attempt(
    flip: &mut Flip,
    spec: &RandomSpec,
    n: u32,
    range: &LengthRange,
    progress: &mut Progress,
) -> Result<(), Refusal>
    requires size { n ≡ size_of spec.now }
    requires some { 0 < n }
    requires few { n ≤ 65535 }
    requires range { IsLengths spec.now range.now }
    requires ready { IsReady spec.now progress.old.builder progress.old.made }
    requires places { int_lt spec.now.multi (pos 0) ≡ true →
        IsListed progress.old.pairs progress.old.numbers.items (length progress.old.edges.items) }
    requires room { int_le spec.now.multi (pos 0) ≡ true → HasRoom progress.old.pairs }
    requires draws { progress.old.draws < 2 ^ 40 }
    ensures ok { (a : Base) (c : Course) → IsIndexed spec.now a c progress.old flip.old →
        OnOk result (IsIndexed spec.now a (attempted spec.now c) progress.new flip.new) }
    ensures err { IfErr result (λ e. e ≡ Refusal.NoRoom) }
    ensures follows { Follows flip.old progress.old.draws flip.new progress.new.draws }
    ensures few_draws { progress.new.draws ≤ progress.old.draws + 5442 }
    ensures generator { IsGenerator flip.new }
{
    let from = flip.uniform(n);
    let to = flip.uniform(n);
    progress.draws += from.draws as u64 + to.draws as u64;
    try_pair(flip, spec, range, progress, from.value, to.value)
}

// Tries to join two vertices.
fn try_pair(
    flip: &mut Flip,
    spec: &RandomSpec,
    range: &LengthRange,
    progress: &mut Progress,
    from: u32,
    to: u32,
) -> Result<(), Refusal>
    requires few { size_of spec.now ≤ 65535 }
    requires from { from < size_of spec.now }
    requires to { to < size_of spec.now }
    requires range { IsLengths spec.now range.now }
    requires ready { IsReady spec.now progress.old.builder progress.old.made }
    requires places { int_lt spec.now.multi (pos 0) ≡ true →
        IsListed progress.old.pairs progress.old.numbers.items (length progress.old.edges.items) }
    requires room { int_le spec.now.multi (pos 0) ≡ true → HasRoom progress.old.pairs }
    requires draws { progress.old.draws < 2 ^ 41 }
    ensures ok { (a : Base) (c : Course) → IsIndexed spec.now a c progress.old flip.old →
        OnOk result (IsIndexed spec.now a (tried spec.now from to c) progress.new flip.new) }
    ensures err { IfErr result (λ e. e ≡ Refusal.NoRoom) }
    ensures follows { Follows flip.old progress.old.draws flip.new progress.new.draws }
    ensures few_draws { progress.new.draws ≤ progress.old.draws + 1814 }
    ensures generator { IsGenerator flip.new }
{
    // It tells that the generator is one, also where nothing is drawn.
    let _ = flip.unread();
    if is_barred(spec.loops, from, to) {
        return Ok(());
    }
    if repeats(*spec) {
        return insert(flip, spec, range, progress, from, to);
    }
    let key = key_of(spec.directed, from, to);
    let (place, is_new) = progress.pairs.insert(key);
    if is_new {
        number(spec, progress, place);
        return insert(flip, spec, range, progress, from, to);
    }
    if shortens(*spec) {
        let listed = progress.numbers[place] as usize;
        lower(flip, range, progress, listed);
    }
    Ok(())
}

// Where lengths may be shortened, tells beside the place of a pair where its arc or edge is to be listed.
fn number(spec: &RandomSpec, progress: &mut Progress, place: usize)
    requires place { int_lt spec.now.multi (pos 0) ≡ true → place < length progress.old.numbers.items }
    requires few { int_lt spec.now.multi (pos 0) ≡ true → length progress.old.edges.items ≤ 1000000 }
    ensures numbers { int_lt spec.now.multi (pos 0) ≡ true →
        progress.new.numbers.items ≡ set progress.old.numbers.items place (length progress.old.edges.items) }
    ensures builder { progress.new.builder ≡ progress.old.builder }
    ensures edges { progress.new.edges ≡ progress.old.edges }
    ensures pairs { progress.new.pairs ≡ progress.old.pairs }
    ensures made { progress.new.made ≡ progress.old.made }
    ensures draws { progress.new.draws ≡ progress.old.draws }
{
    if shortens(*spec) {
        progress.numbers[place] = progress.edges.len() as u32;
    }
}

// A vertex would be joined to itself and may not be.
fn is_barred(loops: bool, from: u32, to: u32) -> bool
    ensures { result ≡ ((from == to) && not loops) }
{
    from == to && !loops
}

// The number of a pair, which is the same either way round where edges are inserted.
fn key_of(directed: bool, from: u32, to: u32) -> u32
    requires from { from < 65536 }
    requires to { to < 65536 }
    ensures { result ≡ key_of directed from to }
{
    if directed {
        from * 65536 + to
    } else {
        from.min(to) * 65536 + from.max(to)
    }
}

// Draws a length and inserts an arc or an edge of this length, or lists it where it may yet be shortened.
#[inline(always)]
fn insert(
    flip: &mut Flip,
    spec: &RandomSpec,
    range: &LengthRange,
    progress: &mut Progress,
    from: u32,
    to: u32,
) -> Result<(), Refusal>
    requires from { from < size_of spec.now }
    requires to { to < size_of spec.now }
    requires ready { IsReady spec.now progress.old.builder progress.old.made }
    requires draws { progress.old.draws < 2 ^ 42 }
    ensures ok { (a : Base) (c : Course) → IsKept spec.now a c progress.old flip.old →
        OnOk result (IsKept spec.now a
        (with_length range.now.min range.now.max c (λ len. c.insertions ++ insertion from to len ∷ []))
        progress.new flip.new) }
    ensures pairs { OnOk result (progress.new.pairs ≡ progress.old.pairs) }
    ensures numbers { OnOk result (progress.new.numbers ≡ progress.old.numbers) }
    ensures err { IfErr result (λ e. e ≡ Refusal.NoRoom) }
    ensures follows { Follows flip.old progress.old.draws flip.new progress.new.draws }
    ensures few_draws { progress.new.draws ≤ progress.old.draws + 1814 }
    ensures generator { IsGenerator flip.new }
{
    let len = draw_length(flip, range, progress);
    if shortens(*spec) {
        progress.edges.push(Edge { from, to, len })?;
        return Ok(());
    }
    progress.builder.insert(VertexNo(from), VertexNo(to), len)
}

// Draws a length, which what is listed at this place takes if it is smaller.
fn lower(flip: &mut Flip, range: &LengthRange, progress: &mut Progress, place: usize)
    requires place { place < length progress.old.edges.items }
    requires made { progress.old.made < 1000000 }
    requires draws { progress.old.draws < 2 ^ 42 }
    ensures ok { (s : Spec) (a : Base) (c : Course) → int_lt s.multi (pos 0) ≡ true →
        IsKept s a c progress.old flip.old →
        IsKept s a
        (with_length range.now.min range.now.max c (λ len. with_len_at c.insertions place len))
        progress.new flip.new }
    ensures pairs { progress.new.pairs ≡ progress.old.pairs }
    ensures numbers { progress.new.numbers ≡ progress.old.numbers }
    ensures follows { Follows flip.old progress.old.draws flip.new progress.new.draws }
    ensures few_draws { progress.new.draws ≤ progress.old.draws + 1814 }
    ensures generator { IsGenerator flip.new }
{
    let len = draw_length(flip, range, progress);
    progress.edges[place] = shortened(progress.edges[place], len);
}

// The arc or edge with the length, if that is smaller than its own.
fn shortened(edge: Edge, len: i64) -> Edge
    ensures { insertion_of result ≡ insertion edge.from edge.to (int_min edge.len len) }
{
    Edge {
        len: edge.len.min(len),
        ..edge
    }
}

// Draws a length, and counts one more as made.
#[inline]
fn draw_length(flip: &mut Flip, range: &LengthRange, progress: &mut Progress) -> i64
    requires made { progress.old.made < 1000000 }
    requires draws { progress.old.draws < 2 ^ 42 }
    ensures len { result ≡ (drawn_length range.now.min range.now.max flip.old).len }
    ensures draws { progress.new.draws
        ≡ progress.old.draws + (drawn_length range.now.min range.now.max flip.old).draws }
    ensures rest { flip.new ≡ (drawn_length range.now.min range.now.max flip.old).rest }
    ensures made { progress.new.made ≡ progress.old.made + 1 }
    ensures builder { progress.new.builder ≡ progress.old.builder }
    ensures edges { progress.new.edges ≡ progress.old.edges }
    ensures pairs { progress.new.pairs ≡ progress.old.pairs }
    ensures numbers { progress.new.numbers ≡ progress.old.numbers }
    ensures follows { Follows flip.old progress.old.draws flip.new progress.new.draws }
    ensures few_draws { progress.new.draws ≤ progress.old.draws + 1814 }
    ensures generator { IsGenerator flip.new }
{
    let drawn = range.draw(flip);
    progress.draws += drawn.draws;
    progress.made += 1;
    drawn.len
}
