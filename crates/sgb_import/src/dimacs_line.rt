//! The lines of the formats of DIMACS.
ghost use Rattle.std.specs.Prelude.{◌≡◌};
ghost use Rattle.std.specs.Option.{option_map};
ghost use Rattle.sgb_import.specs.Dimacs.{kind_of, two, three, direction_of, problem_of_words, arc_of_words, edge_of_words, link_with, problem_with};
ghost use Rattle.sgb_import.specs.Private.Dimacs.{capped, capped_ends, ends_in, bytes_of_two, bytes_of_three};

use crate::lines::Words;
use crate::number::{length, natural};

/// What the first word says that a line is.
#[derive(Clone, Copy, Debug, PartialEq, Eq)]
pub(crate) enum Kind {
    /// `c`.
    Comment,
    /// `p`.
    TheProblem,
    /// `a`.
    AnArc,
    /// `e`.
    AnEdge,
    /// No line of the formats.
    Other,
}

/// What a problem announces: whether arcs follow or edges, how many vertices there are, and how many arcs or edges.
#[derive(Clone, Copy, Debug, PartialEq, Eq)]
pub(crate) struct Problem {
    pub(crate) line: usize,
    pub(crate) directed: bool,
    pub(crate) vertices: u64,
    pub(crate) links: u64,
}

/// The endpoints of an arc or edge as numbers of the text, and its length.
#[derive(Clone, Copy, Debug)]
pub(crate) struct Ends {
    pub(crate) from: u64,
    pub(crate) to: u64,
    pub(crate) len: i64,
}

pub(crate) fn kind_of(word: &[u8]) -> Kind
    ensures { result ≡ kind_of word.now }
{
    match word {
        _ if word == b"c".as_slice() => Kind::Comment,
        _ if word == b"p".as_slice() => Kind::TheProblem,
        _ if word == b"a".as_slice() => Kind::AnArc,
        _ if word == b"e".as_slice() => Kind::AnEdge,
        _ => Kind::Other,
    }
}

fn direction_of(word: &[u8]) -> Option<bool>
    ensures { result ≡ direction_of word.now }
{
    match word {
        _ if word == b"sp".as_slice() => Some(true),
        _ if word == b"edge".as_slice() => Some(false),
        _ if word == b"col".as_slice() => Some(false),
        _ => None,
    }
}

// The two words that are left, if there are no more.
fn two(mut words: Words<'_>) -> Option<(&[u8], &[u8])>
    ensures { option_map bytes_of_two result ≡ two words.entry }
{
    let first = words.next()?;
    let second = words.next()?;
    match words.next() {
        Some(_) => None,
        None => Some((first, second)),
    }
}

// The three words that are left, if there are no more.
fn three(mut words: Words<'_>) -> Option<(&[u8], &[u8], &[u8])>
    ensures { option_map bytes_of_three result ≡ three words.entry }
{
    let first = words.next()?;
    let second = words.next()?;
    let third = words.next()?;
    match words.next() {
        Some(_) => None,
        None => Some((first, second, third)),
    }
}

/// The problem that the words behind `p` announce. Numbers of more than 64 bits become the greatest.
pub(crate) fn read_problem(line: usize, words: Words<'_>) -> Option<Problem>
    ensures { result ≡ option_map capped (problem_of_words line words.entry) }
{
    match three(words) {
        Some((kind, vertices, links)) => problem_with(
            line,
            direction_of(kind),
            natural(vertices),
            natural(links),
        ),
        None => None,
    }
}

fn problem_with(
    line: usize,
    directed: Option<bool>,
    vertices: Option<u64>,
    links: Option<u64>,
) -> Option<Problem>
    ensures { result ≡ problem_with line directed vertices links }
{
    match (directed, vertices, links) {
        (Some(directed), Some(vertices), Some(links)) => Some(Problem {
            line,
            directed,
            vertices,
            links,
        }),
        _ => None,
    }
}

/// What the words behind `a` say.
pub(crate) fn read_arc(words: Words<'_>) -> Option<Ends>
    ensures { option_map ends_in result ≡ option_map capped_ends (arc_of_words words.entry) }
{
    match three(words) {
        Some((from, to, len)) => ends_with(natural(from), natural(to), length(len)),
        None => None,
    }
}

/// What the words behind `e` say.
pub(crate) fn read_edge(words: Words<'_>) -> Option<Ends>
    ensures { option_map ends_in result ≡ option_map capped_ends (edge_of_words words.entry) }
{
    match two(words) {
        Some((from, to)) => ends_with(natural(from), natural(to), Some(1)),
        None => None,
    }
}

fn ends_with(from: Option<u64>, to: Option<u64>, len: Option<i64>) -> Option<Ends>
    ensures { option_map ends_in result ≡ link_with from to len }
{
    match (from, to, len) {
        (Some(from), Some(to), Some(len)) => Some(Ends { from, to, len }),
        _ => None,
    }
}
