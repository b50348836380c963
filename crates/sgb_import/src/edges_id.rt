//! The id of a list of edges.
ghost use Rattle.std.specs.Prelude.{◌≡◌, ◌==◌, ◌-◌, None, Some, length, slice_index, MatchResult};
ghost use Rattle.std.specs.Option.{option_map};
ghost use Rattle.sgb_import.specs.Edges.{before_quote, id_fault, id_in, id_line, id_of};
ghost use Rattle.sgb_import.specs.Lines.{lines};
ghost use Rattle.sgb_import.specs.Private.Cursors.{seen};

use crate::ids::is_id;
use crate::lines::{Line, Lines, behind};
use crate::{ImportRefusal, TextFault};

// The first line that says an id, with the id in place of its bytes.
pub(crate) fn find_id(text: &[u8]) -> Option<Line<'_>>
    ensures { option_map seen result ≡ id_line (lines text.now) }
{
    for line in Lines::new(text) {
        if let Some(id) = id_in(line) {
            return Some(id);
        }
    }
    None
}

#[tactic(auto, unfolding(crate::specs::Edges::id_in))]
fn id_in(line: Line<'_>) -> Option<Line<'_>>
    ensures { option_map seen result ≡ id_in (seen line.entry) }
{
    let bytes = before_quote(behind(b"# id \"", line.bytes)?)?;
    Some(Line {
        number: line.number,
        bytes,
    })
}

fn before_quote(bytes: &[u8]) -> Option<&[u8]>
    ensures { option_map (λ front. front.now) result ≡ before_quote bytes.now }
{
    if !ends_with_quote(bytes) {
        return None;
    }
    let (front, _) = bytes.split_at(bytes.len() - 1);
    Some(front)
}

fn ends_with_quote(bytes: &[u8]) -> bool
    ensures { result ≡ (slice_index bytes.now (length bytes.now - 1) == 34) }
{
    bytes.last() == Some(&b'"')
}

// Refuses an id that no graph may have.
pub(crate) fn check_id(id: Option<Line<'_>>) -> Result<(), ImportRefusal>
    ensures { MatchResult result
        (λ _. id_fault (option_map seen id.entry) ≡ None)
        (λ e. id_fault (option_map seen id.entry) ≡ Some e) }
{
    match id {
        Some(line) if !is_id(line.bytes) => Err(ImportRefusal::At {
            line: line.number,
            fault: TextFault::BadId,
        }),
        _ => Ok(()),
    }
}

// The id that the graph has.
pub(crate) fn id_or_default(id: Option<Line<'_>>) -> &[u8]
    ensures { result.now ≡ id_of (option_map seen id.entry) }
{
    match id {
        Some(line) => line.bytes,
        None => b"import(edges)",
    }
}
