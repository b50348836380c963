//! The header of a list of edges, and what it announces.
ghost use Rattle.std.specs.Prelude.{◌≡◌, Some, None, codes, MatchResult};
ghost use Rattle.std.specs.Option.{option_map};
ghost use Rattle.std.specs.Str.{bytes_eq};
ghost use Rattle.sgb_import.specs.Edges.{directed_by, header_fault, header_of, header_of_words, header_with, kind_of, most_vertices, unless_header};
ghost use Rattle.sgb_import.specs.Lines.{lines, words};
ghost use Rattle.sgb_import.specs.Private.Cursors.{seen};
ghost use Rattle.sgb_import.specs.Private.EdgesRead.{announced_fault, capped, four, shown_four};

use crate::edges_line::is_comment;
use crate::lines::{Line, Lines, Words};
use crate::number::natural;
use crate::{EdgeList, ImportRefusal, TextFault};

// The most vertices of a graph.
const MOST_VERTICES: u64 = 65_535;

// What the first comment announces: whether arcs follow or edges, how many vertices there are, and how many of them.
#[derive(Clone, Copy, Debug, PartialEq, Eq)]
pub(crate) struct Header {
    pub(crate) line: usize,
    pub(crate) directed: bool,
    pub(crate) vertices: u64,
    pub(crate) edges: u64,
}

// The header of the text, if its first comment is one.
pub(crate) fn find_header(text: &[u8]) -> Option<Header>
    ensures { result ≡ option_map capped (header_of (lines text.now)) }
{
    for line in Lines::new(text) {
        if is_comment(line) {
            return header_in(line);
        }
    }
    None
}

fn header_in(line: Line<'_>) -> Option<Header>
    ensures { result ≡ option_map capped (header_of_words line.entry.number (words line.entry.bytes.now)) }
{
    let (hash, kind, vertices, edges) = four_words(line.bytes)?;
    if !is_hash(hash) {
        return None;
    }
    header_with(
        line.number,
        is_directed_kind(kind),
        natural(vertices),
        natural(edges),
    )
}

fn is_hash(word: &[u8]) -> bool
    ensures { result ≡ bytes_eq word.now (codes "#") }
{
    word == b"#".as_slice()
}

fn header_with(
    line: usize,
    directed: Option<bool>,
    vertices: Option<u64>,
    edges: Option<u64>,
) -> Option<Header>
    ensures { result ≡ header_with line directed vertices edges }
{
    Some(Header {
        line,
        directed: directed?,
        vertices: vertices?,
        edges: edges?,
    })
}

// The words of the line, if they are four.
fn four_words(line: &[u8]) -> Option<(&[u8], &[u8], &[u8], &[u8])>
    ensures { option_map shown_four result ≡ four (words line.now) }
{
    let mut words = Words::new(line);
    let first = words.next()?;
    let second = words.next()?;
    let third = words.next()?;
    let fourth = words.next()?;
    if words.next().is_some() {
        return None;
    }
    Some((first, second, third, fourth))
}

fn is_directed_kind(kind: &[u8]) -> Option<bool>
    ensures { result ≡ kind_of kind.now }
{
    if kind == b"graph".as_slice() {
        Some(false)
    } else if kind == b"digraph".as_slice() {
        Some(true)
    } else {
        None
    }
}

// Whether arcs are meant.
pub(crate) fn is_directed(list: EdgeList, header: Option<Header>) -> bool
    ensures { result ≡ directed_by list header }
{
    match header {
        Some(header) => header.directed,
        None => list.directed,
    }
}

// How many vertices there may be.
pub(crate) fn most_vertices(header: Option<Header>) -> u64
    ensures { result ≡ most_vertices header }
{
    match header {
        Some(header) => header.vertices,
        None => MOST_VERTICES,
    }
}

// What more of them are: `fault` where a header says how many there are.
pub(crate) fn beyond(header: Option<Header>, fault: TextFault) -> TextFault
    ensures { result ≡ unless_header header fault }
{
    match header {
        Some(_) => fault,
        None => TextFault::TooManyVertices,
    }
}

// Refuses a header that announces edges where arcs are asked for, or too many vertices.
pub(crate) fn check_header(list: EdgeList, header: Option<Header>) -> Result<(), ImportRefusal>
    ensures { MatchResult result (λ _. header_fault list header ≡ None) (λ e. header_fault list header ≡ Some e) }
{
    let Some(header) = header else {
        return Ok(());
    };
    if list.directed && !header.directed {
        return Err(header.at(TextFault::NotDirected));
    }
    if header.vertices > MOST_VERTICES {
        return Err(header.at(TextFault::TooManyVertices));
    }
    Ok(())
}

// Refuses a text with other numbers of edges, or of names, than the header announces.
pub(crate) fn check_counts(
    list: EdgeList,
    header: Option<Header>,
    names: usize,
    edges: usize,
) -> Result<(), ImportRefusal>
    ensures { MatchResult result
        (λ _. announced_fault list header names edges ≡ None)
        (λ e. announced_fault list header names edges ≡ Some e) }
{
    let Some(header) = header else {
        return Ok(());
    };
    if edges as u64 != header.edges {
        return Err(header.at(TextFault::WrongEdges));
    }
    if list.names && names as u64 != header.vertices {
        return Err(header.at(TextFault::WrongVertices));
    }
    Ok(())
}

impl Header {
    // The refusal of its line.
    fn at(self, fault: TextFault) -> ImportRefusal
        ensures { result ≡ ImportRefusal.At self.line fault }
    {
        ImportRefusal::At {
            line: self.line,
            fault,
        }
    }
}
