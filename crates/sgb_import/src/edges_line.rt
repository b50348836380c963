//! The lines of a list of edges.
ghost use Rattle.std.specs.Prelude.{◌≡◌, ◌==◌, slice_index, IfSome, FitsSigned};
ghost use Rattle.std.specs.Int.{w64};
ghost use Rattle.std.specs.Option.{option_map};
ghost use Rattle.sgb_import.specs.Edges.{ends_of, is_comment, is_edge};
ghost use Rattle.sgb_import.specs.Lines.{words};
ghost use Rattle.sgb_import.specs.Private.Cursors.{seen};
ghost use Rattle.sgb_import.specs.Private.EdgesRead.{shown_ends};

use crate::lines::{Line, Words};
use crate::number::length;

// An edge or an arc, with the words of its endpoints.
#[derive(Clone, Copy)]
pub(crate) struct EdgeLine<'a> {
    pub(crate) from: &'a [u8],
    pub(crate) to: &'a [u8],
    pub(crate) len: i64,
}

// Whether the line is a comment.
pub(crate) fn is_comment(line: Line<'_>) -> bool
    ensures { result ≡ is_comment (seen line.entry) }
{
    match Words::new(line.bytes).next() {
        Some(word) => begins_comment(word),
        None => false,
    }
}

// Whether the line has words and is no comment.
pub(crate) fn is_edge(line: Line<'_>) -> bool
    ensures { result ≡ is_edge (seen line.entry) }
{
    match Words::new(line.bytes).next() {
        Some(word) => !begins_comment(word),
        None => false,
    }
}

fn begins_comment(word: &[u8]) -> bool
    ensures { result ≡ (slice_index word.now 0 == 35) }
{
    match word.first() {
        Some(byte) => *byte == b'#',
        None => false,
    }
}

// The edge of the line: two words, and a length or none.
#[tactic(auto, unfolding(crate::specs::Edges::ends_of))]
pub(crate) fn edge_in(line: &[u8]) -> Option<EdgeLine<'_>>
    ensures value { option_map shown_ends result ≡ ends_of (words line.now) }
    ensures len { IfSome result (λ edge. FitsSigned w64 edge.len) }
{
    let mut words = Words::new(line);
    let from = words.next()?;
    let to = words.next()?;
    let Some(word) = words.next() else {
        return Some(EdgeLine { from, to, len: 1 });
    };
    if words.next().is_some() {
        return None;
    }
    Some(EdgeLine {
        from,
        to,
        len: length(word)?,
    })
}
