//! The first line of a saved text.
ghost use Rattle.std.specs.Prelude.{◌≡◌, ◌≤◌, IfOk, IfErr};
ghost use Rattle.sgb_grammar.specs.Reading.{Spells};
ghost use Rattle.sgb_grammar.specs.Header.{header_at, letters_at, counts_at, ends_line};
ghost use Rattle.sgb_grammar.specs.Spelled.{FirstLine, IsOnlyLine, HasNoFirstLine};

use crate::Fault;
use crate::bytes::{after, next};
use crate::numbers::count;
use sgb_graph::Types;

/// What the first line says: the letters of the fields, how many records of vertices follow, and how many of arcs.
#[derive(Clone, Copy, Debug, PartialEq, Eq)]
pub struct Header {
    pub types: Types,
    pub vertices: u64,
    pub arcs: u64,
}

/// Reads the first line. What follows it is its newline, if there is one. Does not allocate.
pub fn read_header(bytes: &[u8]) -> Result<(Header, &[u8]), Fault>
    ensures ok { IfOk result (λ p. FirstLine p.0 bytes.now p.1.now) }
    ensures only { IfOk result (λ p. IsOnlyLine bytes.now p.0 p.1.now) }
    ensures err { IfErr result (λ e. (e ≡ Fault.Syntax) × HasNoFirstLine bytes.now) }
{
    first_line(bytes)
}

#[tactic(auto, unfolding(crate::specs::Header::header_at))]
fn first_line(bytes: &[u8]) -> Result<(Header, &[u8]), Fault>
    ensures { Spells result (header_at bytes.now) }
{
    let rest = after(b"* GraphBase graph (util_types ", bytes)?;
    match letters(rest) {
        Ok((types, rest)) => {
            let rest = after(b",", rest)?;
            let ((vertices, arcs), rest) = counts(rest)?;
            if !ends_line(rest) {
                return Err(Fault::Syntax);
            }
            Ok((
                Header {
                    types,
                    vertices,
                    arcs,
                },
                rest,
            ))
        }
        Err(fault) => Err(fault),
    }
}

/// Whether the line or the text ends here.
pub(crate) fn ends_line(bytes: &[u8]) -> bool
    ensures { result ≡ ends_line bytes.now }
{
    match next(bytes) {
        Some((first, _)) => first == b'\n',
        None => true,
    }
}

fn letters(bytes: &[u8]) -> Result<(Types, &[u8]), Fault>
    ensures { Spells result (letters_at bytes.now) }
{
    if bytes.len() < 14 {
        return Err(Fault::Syntax);
    }
    let (letters, rest) = bytes.split_at(14);
    match Types::new(letters) {
        Some(types) => Ok((types, rest)),
        None => Err(Fault::Syntax),
    }
}

#[tactic(auto, unfolding(crate::specs::Header::counts_at))]
fn counts(bytes: &[u8]) -> Result<((u64, u64), &[u8]), Fault>
    ensures { Spells result (counts_at bytes.now) }
{
    let (vertices, rest) = count(bytes)?;
    let rest = after(b"V,", rest)?;
    let (arcs, rest) = count(rest)?;
    let rest = after(b"A)", rest)?;
    Ok(((vertices, arcs), rest))
}
