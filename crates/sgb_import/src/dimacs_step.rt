//! What a line of the formats of DIMACS adds to those before it.
ghost use Rattle.std.specs.Prelude.{◌≡◌, ◌≤◌, ◌+◌, nat_le, None, Some};
ghost use Rattle.std.specs.Option.{option_map};
ghost use Rattle.sgb_import.specs.Dimacs.{problem_fault, link_fault, ends_fault, fault_of_kind, fault_said, problem_of_kind, problem_said, link_of_kind, link_said, is_vertex};
ghost use Rattle.sgb_import.specs.Lines.{words};
ghost use Rattle.sgb_import.specs.Outline.{arcs_of_links};
ghost use Rattle.sgb_import.specs.Private.Dimacs.{capped, ends_in, IsFew, MakesLink, Steps};

use crate::dimacs_line::{Ends, Kind, Problem, kind_of, read_arc, read_edge, read_problem};
use crate::lines::{Line, Words};
use crate::outline::Link;
use crate::refusal::TextFault;

/// The most vertices of a graph.
const MOST_VERTICES: u64 = 65_535;

/// The most arcs of a graph.
const MOST_ARCS: usize = 1_000_000;

/// What a line adds.
#[derive(Clone, Copy)]
pub(crate) enum Step {
    /// Nothing.
    Nothing,
    /// The problem.
    Begin(Problem),
    /// An arc or an edge.
    Add(Link),
}

/// What a line adds, behind this problem or none and so many arcs or edges.
pub(crate) fn next_step(
    before: Option<Problem>,
    count: usize,
    line: Line<'_>,
) -> Result<Step, TextFault>
    requires { IsFew before }
    ensures { Steps
        (fault_said before count line.entry.number (words line.entry.bytes.now))
        (option_map capped (problem_said line.entry.number (words line.entry.bytes.now)))
        (link_said (words line.entry.bytes.now))
        result }
{
    let mut words = Words::new(line.bytes);
    match words.next() {
        Some(first) => step_of_kind(before, count, line.number, kind_of(first), words),
        None => Ok(Step::Nothing),
    }
}

// What a line of this kind adds by the words behind its first.
fn step_of_kind(
    before: Option<Problem>,
    count: usize,
    line: usize,
    kind: Kind,
    words: Words<'_>,
) -> Result<Step, TextFault>
    requires { IsFew before }
    ensures { Steps
        (fault_of_kind before count line kind words.entry)
        (option_map capped (problem_of_kind line kind words.entry))
        (link_of_kind kind words.entry)
        result }
{
    match kind {
        Kind::Comment => Ok(Step::Nothing),
        Kind::TheProblem => begin(before, read_problem(line, words)),
        Kind::AnArc => add(before, count, true, TextFault::NotAnArc, read_arc(words)),
        Kind::AnEdge => add(before, count, false, TextFault::NotAnEdge, read_edge(words)),
        Kind::Other => Err(TextFault::NotALine),
    }
}

// The problem that a line announces.
fn begin(before: Option<Problem>, problem: Option<Problem>) -> Result<Step, TextFault>
    ensures { Steps (problem_fault before problem) problem None result }
{
    match (before, problem) {
        (Some(_), _) => Err(TextFault::SecondProblem),
        (None, None) => Err(TextFault::NotAProblem),
        (None, Some(problem)) => {
            if problem.vertices > MOST_VERTICES {
                return Err(TextFault::TooManyVertices);
            }
            Ok(Step::Begin(problem))
        }
    }
}

// The arc or edge that a line says.
fn add(
    before: Option<Problem>,
    count: usize,
    directed: bool,
    ill: TextFault,
    ends: Option<Ends>,
) -> Result<Step, TextFault>
    requires { IsFew before }
    ensures { Steps
        (link_fault before count directed ill (option_map ends_in ends))
        None
        (option_map ends_in ends)
        result }
{
    let Some(problem) = before else {
        return Err(TextFault::NoProblem);
    };
    if problem.directed != directed {
        return Err(TextFault::NotALine);
    }
    let Some(ends) = ends else {
        return Err(ill);
    };
    let link = link_between(problem, count, ends)?;
    Ok(Step::Add(link))
}

// The arc or edge between vertices that are there.
fn link_between(problem: Problem, count: usize, ends: Ends) -> Result<Link, TextFault>
    requires { problem.vertices ≤ 65535 }
    ensures { MakesLink
        (ends_fault problem count TextFault.NotAnArc (Some (ends_in ends)))
        (ends_in ends)
        result }
{
    let known = is_vertex(problem.vertices, ends.from) && is_vertex(problem.vertices, ends.to);
    if !known {
        return Err(TextFault::NoSuchVertex);
    }
    if !has_place(problem.directed, count) {
        return Err(TextFault::TooManyArcs);
    }
    Ok(Link {
        from: (ends.from - 1) as u32,
        to: (ends.to - 1) as u32,
        len: ends.len,
    })
}

// Whether there is a vertex of this number of the text.
fn is_vertex(vertices: u64, number: u64) -> bool
    ensures { result ≡ is_vertex vertices number }
{
    1 <= number && number <= vertices
}

// Whether there is a place for one arc or edge more.
fn has_place(directed: bool, count: usize) -> bool
    ensures { result ≡ nat_le (arcs_of_links directed (count + 1)) 1000000 }
{
    let most = if directed { MOST_ARCS } else { MOST_ARCS / 2 };
    count < most
}
