//! Texts between quotes.
ghost use Rattle.std.specs.Prelude.{◌≡◌, ◌<◌, ◌≤◌, ◌⊎◌, length, false, IfOk, IfErr, Some, slice_index_or};
ghost use Rattle.std.specs.List.{prefix_len};
ghost use Rattle.sgb_grammar.specs.Reading.{Fails};
ghost use Rattle.sgb_grammar.specs.Private.Reading.{Reads};
ghost use Rattle.sgb_grammar.specs.String.{text_at};
ghost use Rattle.sgb_grammar.specs.Private.Pieces.{Splits, Ends, goes_on, joined_at, text_within};

use crate::Fault;
use crate::bytes::{after, next};
use memchr::memchr2;
use sgb_graph::{Label, Refusal, Text};
use std::alloc::Global;

/// The most bytes of a label and of a text in a field.
pub(crate) const TEXT_LIMIT: usize = 4095;

/// Room for two lines of a text. Few have more.
const ROOM: usize = 160;

/// A run of a text, whose bytes are not validated yet.
#[derive(Clone, Copy)]
enum Piece<'a> {
    /// The text ends with it; what follows the closing quote.
    Last(&'a [u8], &'a [u8]),
    /// The line ends behind it; the next line.
    Broken(&'a [u8], &'a [u8]),
}

/// What ends a run of a text.
#[derive(Clone, Copy)]
enum Ending<'a> {
    /// The closing quote, and what follows it.
    Quote(&'a [u8]),
    /// A backslash and the line's end, and the next line.
    Line(&'a [u8]),
}

/// Reads a label between quotes. One that stands on one line is copied from there, without an allocation if it is short.
#[tactic(auto, unfolding(crate::specs::String::text_at))]
pub(crate) fn label(alloc: Global, bytes: &[u8]) -> Result<(Label, &[u8]), Fault>
    ensures { Reads result (text_at 4095 bytes.now) }
{
    let inside = after(b"\"", bytes)?;
    match split_piece(inside) {
        Some(Piece::Last(run, rest)) => short_label(alloc, run, rest),
        _ => {
            let (name, rest) = text(alloc, TEXT_LIMIT, bytes)?;
            Ok((Label::new(name), rest))
        }
    }
}

// Makes a label of these bytes, if they are one.
fn short_label<'a>(alloc: Global, bytes: &[u8], rest: &'a [u8]) -> Result<(Label, &'a [u8]), Fault>
    ensures { Reads result (text_within 4095 (bytes.now, rest.now)) }
{
    match Label::from_bytes(alloc, bytes) {
        Ok(name) => Ok((name, rest)),
        Err(Refusal::NoRoom) => Err(Fault::NoRoom),
        Err(_) => Err(Fault::Syntax),
    }
}

/// Reads a text of at most `limit` bytes between quotes.
#[tactic(auto, using(crate::proofs::QuotedRuns::text_unjoined), unfolding(crate::specs::String::text_at))]
pub(crate) fn text(alloc: Global, limit: usize, bytes: &[u8]) -> Result<(Text, &[u8]), Fault>
    requires { limit ≤ 4095 }
    ensures { Reads result (text_at limit bytes.now) }
{
    let inside = after(b"\"", bytes)?;
    match split_piece(inside) {
        Some(Piece::Last(run, rest)) => short_text(alloc, limit, run, rest),
        Some(Piece::Broken(_, _)) => {
            let (whole, rest) = gather(alloc, inside)?;
            short_text(alloc, limit, &whole, rest)
        }
        None => Err(Fault::Syntax),
    }
}

// Makes a text of these bytes, if they are one and not too many.
fn short_text<'a>(
    alloc: Global,
    limit: usize,
    bytes: &[u8],
    rest: &'a [u8],
) -> Result<(Text, &'a [u8]), Fault>
    requires { limit ≤ 4095 }
    ensures { Reads result (text_within limit (bytes.now, rest.now)) }
{
    if bytes.len() > limit {
        return Err(Fault::Syntax);
    }
    match Text::new(alloc, bytes) {
        Ok(text) => Ok((text, rest)),
        Err(Refusal::NoRoom) => Err(Fault::NoRoom),
        Err(_) => Err(Fault::Syntax),
    }
}

// Reads up to the closing quote, and joins what stands on several lines.
fn gather(alloc: Global, bytes: &[u8]) -> Result<(Vec<u8>, &[u8]), Fault>
    ensures ok { IfOk result (λ p. joined_at false bytes.now ≡ Some (p.0.items, p.1.now)) }
    ensures err { IfErr result (λ e. Fails e (joined_at false bytes.now)) }
{
    let mut text = Vec::with_capacity(alloc, ROOM)?;
    let mut rest = bytes;
    'lines: loop {
        match split_piece(rest) {
            Some(Piece::Last(run, behind)) => {
                return match text.extend_from_slice(run) {
                    Ok(()) => Ok((text, behind)),
                    Err(_) => Err(Fault::NoRoom),
                };
            }
            Some(Piece::Broken(run, line)) => {
                if text.extend_from_slice(run).is_err() {
                    return Err(Fault::NoRoom);
                }
                rest = line;
            }
            None => return Err(Fault::Syntax),
        }
    }
}

// Returns the first run, if a closing quote or a line's end follows it.
fn split_piece(bytes: &[u8]) -> Option<Piece<'_>>
    ensures { Splits result bytes.now }
{
    let (run, rest) = bytes.split_at(count_to_mark(bytes));
    match split_ending(rest) {
        Some(Ending::Quote(behind)) => Some(Piece::Last(run, behind)),
        Some(Ending::Line(line)) => Some(Piece::Broken(run, line)),
        None => None,
    }
}

// Returns what the quote or backslash at the front ends.
fn split_ending(bytes: &[u8]) -> Option<Ending<'_>>
    requires { goes_on (slice_index_or bytes.now 0 34) ≡ false }
    ensures { Ends result bytes.now }
{
    let (first, rest) = next(bytes)?;
    if first == b'"' {
        return Some(Ending::Quote(rest));
    }
    let (end, line) = next(rest)?;
    if end == b'\n' {
        Some(Ending::Line(line))
    } else {
        None
    }
}

// Counts the bytes before the first quote or backslash.
fn count_to_mark(bytes: &[u8]) -> usize
    ensures count { result ≡ prefix_len goes_on bytes.now }
    ensures within { result ≤ length bytes.now }
{
    match memchr2(b'"', b'\\', bytes) {
        Some(end) => end,
        None => bytes.len(),
    }
}
