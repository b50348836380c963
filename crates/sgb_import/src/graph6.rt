//! Graphs in graph6.
ghost use Rattle.std.specs.Prelude.{◌≡◌, ◌⊎◌, ◌<◌, ◌≤◌, ◌+◌, ◌-◌, ◌*◌, ◌^◌, ℕ, length, map, true, false, not, [], unwrap_or, option_map, Some, None, IfOk, IfErr, IfSome, OnOk, MatchOption, MatchResult};
ghost use Rattle.std.specs.List.{filter, list_all, range_with_len};
ghost use Rattle.sgb_import.specs.Graph6.{
  body_in,
  edges_in,
  fault_in,
  fits,
  graph_bytes,
  has_size,
  is_set,
  is_six_bits,
  number_in,
  outline_of_graph6,
  pair_count,
  refusal_of_graph6,
  second_graph,
  size_end,
  size_in,
  tildes,
  without_header,
};
ghost use Rattle.sgb_import.specs.Outline.{IsOutline};
ghost use Rattle.sgb_import.specs.Private.Outlined.{insertion_of, outline_of};
ghost use Rattle.sgb_import.specs.Private.Pairs.{edge_of, AreSixBits, IsPair, IsTriangle};

use crate::lines::{Line, Lines, behind};
use crate::outline::{Link, Names, Outline};
use crate::refusal::{ImportRefusal, TextFault};
use std::alloc::{AllocError, Global};

const HEADER: &[u8] = b">>graph6<<";

const ID: &[u8] = b"import(graph6)";

const MOST_VERTICES: usize = 65_535;

const MOST_EDGES: usize = 500_000;

// The size of a graph, and the bytes with a bit for each pair of vertices.
#[derive(Clone, Copy)]
struct Triangle<'a> {
    size: usize,
    body: &'a [u8],
}

// Two vertices, the lower first.
#[derive(Clone, Copy)]
struct Pair {
    low: u32,
    high: u32,
}

impl Pair {
    fn edge(self) -> Link
        ensures { insertion_of result ≡ edge_of self }
    {
        Link {
            from: self.low,
            to: self.high,
            len: 1,
        }
    }

    // The pair behind it, by columns.
    fn next(self) -> Pair
        requires order { self.low < self.high }
        requires room { self.high + 1 < 2 ^ 32 }
        ensures { (k : ℕ) → IsPair k self → IsPair (k + 1) result }
    {
        if self.low + 1 < self.high {
            Pair {
                low: self.low + 1,
                high: self.high,
            }
        } else {
            Pair {
                low: 0,
                high: self.high + 1,
            }
        }
    }
}

// What a text in graph6 says.
pub(crate) fn read_graph6(alloc: Global, text: &[u8]) -> Result<Outline<'static>, ImportRefusal>
    ensures outline { IfOk result (λ o. outline_of o ≡ outline_of_graph6 text.now) }
    ensures sound { OnOk result (IsOutline (outline_of_graph6 text.now)) }
    ensures ok { OnOk result (refusal_of_graph6 text.now ≡ None) }
    ensures err { IfErr result (λ e. ((e ≡ ImportRefusal.NoRoom) × (refusal_of_graph6 text.now ≡ None)) ⊎ (refusal_of_graph6 text.now ≡ Some e)) }
{
    let triangle = find_graph(text)?;
    let links = read_edges(alloc, triangle.size, triangle.body).map_err(|_| ImportRefusal::NoRoom)?;
    Ok(Outline {
        id: ID,
        names: Names::Numbers(0, triangle.size as u32),
        directed: false,
        links,
    })
}

// The graph in the first line, where the text has no other.
fn find_graph(text: &[u8]) -> Result<Triangle<'_>, ImportRefusal>
    ensures refusal { MatchResult result (λ t. refusal_of_graph6 text.now ≡ None) (λ e. refusal_of_graph6 text.now ≡ Some e) }
    ensures triangle { IfOk result (λ t. IsTriangle (graph_bytes text.now) t.size t.body.now) }
{
    let mut lines = Lines::new(text);
    let bytes = without_header(first_bytes(lines.next()));
    match read_triangle(bytes) {
        Ok(triangle) => match second_graph(lines) {
            Some(refusal) => Err(refusal),
            None => Ok(triangle),
        },
        Err(fault) => Err(ImportRefusal::At { line: 1, fault }),
    }
}

// The bytes of a line, or none.
fn first_bytes(line: Option<Line<'_>>) -> &[u8]
    ensures { result.now ≡ unwrap_or (option_map (λ l. l.bytes.now) line.entry) [] }
{
    match line {
        Some(line) => line.bytes,
        None => &[],
    }
}

// What is behind the header, if there is one.
fn without_header(line: &[u8]) -> &[u8]
    ensures { result.now ≡ without_header line.now }
{
    behind(HEADER, line).unwrap_or(line)
}

// A second graph in one of these lines.
fn second_graph(mut lines: Lines<'_>) -> Option<ImportRefusal>
    ensures { result ≡ second_graph lines.entry }
{
    let line = lines.find(|line| !line.bytes.is_empty())?;
    Some(ImportRefusal::At {
        line: line.number,
        fault: TextFault::SecondGraph,
    })
}

// The size and the bits, or why there is no graph.
fn read_triangle(bytes: &[u8]) -> Result<Triangle<'_>, TextFault>
    ensures fault { MatchResult result (λ t. fault_in bytes.now ≡ None) (λ e. fault_in bytes.now ≡ Some e) }
    ensures triangle { IfOk result (λ t. IsTriangle bytes.now t.size t.body.now) }
{
    let Some(triangle) = split_size(bytes) else {
        return Err(TextFault::NotAGraph);
    };
    if triangle.size > MOST_VERTICES {
        return Err(TextFault::TooManyVertices);
    }
    if !fits(triangle.size, triangle.body) {
        return Err(TextFault::NotAGraph);
    }
    if count_set(pair_count(triangle.size), triangle.body) > MOST_EDGES {
        return Err(TextFault::TooManyArcs);
    }
    Ok(triangle)
}

// The size in front, and what is behind it.
fn split_size(bytes: &[u8]) -> Option<Triangle<'_>>
    ensures none { MatchOption result (has_size bytes.now ≡ false) (λ t. has_size bytes.now ≡ true) }
    ensures size { IfSome result (λ t. t.size ≡ size_in bytes.now) }
    ensures body { IfSome result (λ t. t.body.now ≡ body_in bytes.now) }
{
    let tildes = count_tildes(bytes);
    let end = size_end(bytes);
    if !are_six_bits(bytes) || bytes.len() < end {
        return None;
    }
    let (front, body) = bytes.split_at(end);
    Some(Triangle {
        size: number_in(&front[tildes..]),
        body,
    })
}

fn are_six_bits(bytes: &[u8]) -> bool
    ensures { result ≡ list_all is_six_bits bytes.now }
{
    bytes.iter().all(|b| 63 <= *b && *b <= 126)
}

// How many ~ stand in front.
#[tactic(auto, unfolding(crate::specs::Graph6::tildes))]
fn count_tildes(bytes: &[u8]) -> usize
    ensures { result ≡ tildes bytes.now }
{
    match bytes {
        [126, 126, ..] => 2,
        [126, ..] => 1,
        _ => 0,
    }
}

// Where the size ends.
#[tactic(auto, unfolding(crate::specs::Graph6::size_end))]
fn size_end(bytes: &[u8]) -> usize
    ensures { result ≡ size_end bytes.now }
{
    match count_tildes(bytes) {
        0 => 1,
        1 => 4,
        _ => 8,
    }
}

// The number that bytes of six bits write.
fn number_in(digits: &[u8]) -> usize
    requires digits { AreSixBits digits.now }
    requires few { length digits.now ≤ 6 }
    ensures { result ≡ number_in digits.now }
{
    let mut number = 0;
    for digit in digits {
        number = 64 * number + (*digit - 63) as usize;
    }
    number
}

// How many pairs there are.
#[tactic(auto, unfolding(crate::specs::Graph6::pair_count))]
fn pair_count(size: usize) -> usize
    requires { size ≤ 65535 }
    ensures count { result ≡ pair_count size }
    ensures bound { result < 2 ^ 31 }
{
    match size {
        0 => 0,
        _ => size * (size - 1) / 2,
    }
}

// There are as many bytes as the pairs ask for, and zeros behind the last pair.
#[tactic(auto, unfolding(crate::specs::Graph6::fits))]
fn fits(size: usize, body: &[u8]) -> bool
    requires size { size ≤ 65535 }
    requires bytes { AreSixBits body.now }
    ensures { result ≡ fits size body.now }
{
    let count = pair_count(size);
    body.len() == (count + 5) / 6 && ends_in_zeros(count, body)
}

// No bit is set from this one on.
fn ends_in_zeros(count: usize, body: &[u8]) -> bool
    requires few { length body.now < 2 ^ 32 }
    requires bytes { AreSixBits body.now }
    ensures { result ≡ list_all (λ k. not (is_set body.now k)) (range_with_len count (6 * length body.now - count)) }
{
    (count..6 * body.len()).all(|k| !is_set(body, k))
}

// How many of the first bits are set.
fn count_set(count: usize, body: &[u8]) -> usize
    requires within { count ≤ 6 * length body.now }
    requires bytes { AreSixBits body.now }
    ensures { result ≡ length (filter (is_set body.now) (range_with_len 0 count)) }
{
    (0..count).filter(|k| is_set(body, *k)).count()
}

// Bit k is set.
#[tactic(auto, using(std::proofs::lemmas::Nat::Bits::shr_and_one), unfolding(crate::specs::Graph6::is_set))]
fn is_set(body: &[u8], k: usize) -> bool
    requires within { k < 6 * length body.now }
    requires bytes { AreSixBits body.now }
    ensures { result ≡ is_set body.now k }
{
    (body[k / 6] - 63) >> (5 - k % 6) & 1 == 1
}

// The edges of the pairs whose bits are set.
fn read_edges(alloc: Global, size: usize, body: &[u8]) -> Result<Vec<Link>, AllocError>
    requires size { size ≤ 65535 }
    requires bytes { AreSixBits body.now }
    requires fits { fits size body.now ≡ true }
    ensures { IfOk result (λ v. map insertion_of v.items ≡ edges_in size body.now) }
{
    let mut links = Vec::new(alloc);
    let mut pair = Pair { low: 0, high: 1 };
    for k in 0..pair_count(size) {
        if is_set(body, k) {
            links.push(pair.edge())?;
        }
        pair = pair.next();
    }
    Ok(links)
}
