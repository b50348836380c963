//! Tips, links and the fields of a record.
ghost use Rattle.std.specs.Prelude.{◌≡◌, length};
ghost use Rattle.sgb_grammar.specs.Reading.{Spells};
ghost use Rattle.sgb_grammar.specs.Private.Reading.{Passes, Reads, Fills};
ghost use Rattle.sgb_grammar.specs.Field.{comma_at, index_at, link_at, tip_at, vertex_value_at, arc_value_at, value_at, field_at, fields_at, after_break};

use crate::Fault;
use crate::bytes::next;
use crate::numbers::{count, number};
use crate::strings::{TEXT_LIMIT, text};
use sgb_graph::{ArcNo, Tip, Util, VertexNo};
use std::alloc::Global;

/// Returns what follows a comma, after which the line may end.
#[tactic(auto, unfolding(crate::specs::Field::comma_at))]
pub(crate) fn comma(bytes: &[u8]) -> Result<&[u8], Fault>
    ensures { Passes result (comma_at bytes.now) }
{
    match next(bytes) {
        Some((b',', rest)) => Ok(behind_break(rest)),
        _ => Err(Fault::Syntax),
    }
}

fn behind_break(bytes: &[u8]) -> &[u8]
    ensures { result.now ≡ after_break bytes.now }
{
    match next(bytes) {
        Some((b'\n', rest)) => rest,
        _ => bytes,
    }
}

/// Reads a link: `0`, or `A` and the number of an arc.
#[tactic(auto, unfolding(crate::specs::Field::link_at))]
pub(crate) fn link(bytes: &[u8]) -> Result<(Option<ArcNo>, &[u8]), Fault>
    ensures { Spells result (link_at bytes.now) }
{
    match next(bytes) {
        Some((b'0', rest)) => Ok((None, rest)),
        Some((b'A', digits)) => {
            let (k, rest) = index(digits)?;
            Ok((Some(ArcNo(k)), rest))
        }
        _ => Err(Fault::Syntax),
    }
}

/// Reads a tip: `0`, `1`, or `V` and the number of a vertex.
#[tactic(auto, unfolding(crate::specs::Field::tip_at))]
pub(crate) fn tip(bytes: &[u8]) -> Result<(Tip, &[u8]), Fault>
    ensures { Spells result (tip_at bytes.now) }
{
    match next(bytes) {
        Some((b'0', rest)) => Ok((Tip::Zero, rest)),
        Some((b'1', rest)) => Ok((Tip::One, rest)),
        Some((b'V', digits)) => {
            let (v, rest) = index(digits)?;
            Ok((Tip::To(VertexNo(v)), rest))
        }
        _ => Err(Fault::Syntax),
    }
}

/// Reads the fields of these letters into `fields`, and returns what follows them. After a fault some of them are
/// written.
#[inline(always)]
pub(crate) fn fields<'a>(
    alloc: Global,
    letters: &[u8],
    fields: &mut [Util],
    bytes: &'a [u8],
) -> Result<&'a [u8], Fault>
    requires { length fields.old ≡ length letters.now }
    ensures { Fills result fields.new (fields_at letters.now bytes.now) }
{
    let mut rest = bytes;
    'letters: for (i, letter) in letters.iter().enumerate() {
        match field(alloc, *letter, rest) {
            Ok((value, behind)) => {
                fields[i] = value;
                rest = behind;
            }
            Err(fault) => return Err(fault),
        }
    }
    Ok(rest)
}

#[tactic(auto, unfolding(crate::specs::Field::field_at))]
fn field(alloc: Global, letter: u8, bytes: &[u8]) -> Result<(Util, &[u8]), Fault>
    ensures { Reads result (field_at letter bytes.now) }
{
    if letter == b'Z' {
        return Ok((Util::Zero, bytes));
    }
    let rest = comma(bytes)?;
    value(alloc, letter, rest)
}

fn value(alloc: Global, letter: u8, bytes: &[u8]) -> Result<(Util, &[u8]), Fault>
    ensures { Reads result (value_at letter bytes.now) }
{
    if letter == b'I' {
        let (k, rest) = number(bytes)?;
        Ok((Util::Int(k), rest))
    } else if letter == b'V' {
        vertex_value(bytes)
    } else if letter == b'A' {
        arc_value(bytes)
    } else {
        let (t, rest) = text(alloc, TEXT_LIMIT, bytes)?;
        Ok((Util::Text(t), rest))
    }
}

#[tactic(auto, unfolding(crate::specs::Field::vertex_value_at))]
fn vertex_value(bytes: &[u8]) -> Result<(Util, &[u8]), Fault>
    ensures { Spells result (vertex_value_at bytes.now) }
{
    match next(bytes) {
        Some((b'0', rest)) => Ok((Util::Zero, rest)),
        Some((b'1', rest)) => Ok((Util::Int(1), rest)),
        Some((b'V', digits)) => {
            let (v, rest) = index(digits)?;
            Ok((Util::Vertex(VertexNo(v)), rest))
        }
        _ => Err(Fault::Syntax),
    }
}

#[tactic(auto, unfolding(crate::specs::Field::arc_value_at))]
fn arc_value(bytes: &[u8]) -> Result<(Util, &[u8]), Fault>
    ensures { Spells result (arc_value_at bytes.now) }
{
    match next(bytes) {
        Some((b'0', rest)) => Ok((Util::Zero, rest)),
        Some((b'1', rest)) => Ok((Util::Int(1), rest)),
        Some((b'A', digits)) => {
            let (k, rest) = index(digits)?;
            Ok((Util::Arc(ArcNo(k)), rest))
        }
        _ => Err(Fault::Syntax),
    }
}

// Reads the number behind `V` or `A`. A number beyond `u32` saturates to `u32::MAX`, which is never a valid index.
#[tactic(auto, unfolding(crate::specs::Field::index_at))]
fn index(digits: &[u8]) -> Result<(u32, &[u8]), Fault>
    ensures { Spells result (index_at digits.now) }
{
    let (k, rest) = count(digits)?;
    Ok((k.min(u64::from(u32::MAX)) as u32, rest))
}
