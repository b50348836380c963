//! A whole saved text.
ghost use Rattle.std.specs.Prelude.{◌≡◌, ◌⊎◌, length, IfOk, IfErr, FitsSigned};
ghost use Rattle.std.specs.Int.{w64};
ghost use Rattle.sgb_graph.specs.Honest.{graph_letters};
ghost use Rattle.sgb_grammar.specs.Private.Reading.{Reads, Finds};
ghost use Rattle.sgb_grammar.specs.Saved.{own_in, vertices_in, arcs_in, records_in, check_line_in, parts_of, saved_in, shown, Holds};
ghost use Rattle.sgb_grammar.specs.Spelled.{SavedText, IsOnlyText, SpellsNothing};

use crate::bytes::after;
use crate::header::ends_line;
use crate::numbers::number;
use crate::records::{Own, arcs, own_record, vertices};
use crate::{Fault, Header};
use sgb_graph::{ArcPart, Items, Parts, VertexPart};
use std::alloc::Global;

/// What a text holds under its first line: the parts of a graph, the check number that it names, and the bytes before
/// the check line.
#[derive(Debug, Drop)]
pub struct Saved<'a> {
    pub parts: Parts,
    pub number: i64,
    pub body: &'a [u8],
}

/// All records of a text.
#[derive(Debug, Drop)]
struct Records {
    own: Own,
    vertices: Items<VertexPart>,
    arcs: Items<ArcPart>,
}

/// Reads what follows a first line. Allocates the records and their texts, and no more records than the bytes can hold,
/// whatever the first line says.
pub fn read_saved<'a>(alloc: Global, header: &Header, bytes: &'a [u8]) -> Result<Saved<'a>, Fault>
    ensures ok { IfOk result (λ s. SavedText header.now (shown s) bytes.now) }
    ensures only { IfOk result (λ s. IsOnlyText header.now (shown s) bytes.now) }
    ensures err { IfErr result (λ e. (e ≡ Fault.NoRoom) ⊎ ((e ≡ Fault.Syntax) × SpellsNothing header.now bytes.now)) }
    ensures range { IfOk result (λ s. FitsSigned w64 s.number) }
{
    saved_text(alloc, header, bytes)
}

#[tactic(auto, unfolding(crate::specs::Saved::saved_in))]
fn saved_text<'a>(alloc: Global, header: &Header, bytes: &'a [u8]) -> Result<Saved<'a>, Fault>
    ensures found { Holds result (saved_in header.now bytes.now) }
    ensures range { IfOk result (λ s. FitsSigned w64 s.number) }
{
    let lines = after(b"\n", bytes)?;
    let (found, rest) = all_records(alloc, header, lines)?;
    let number = check_line(rest)?;
    let (body, _) = lines.split_at(lines.len().saturating_sub(rest.len()));
    Ok(Saved {
        parts: parts(header, found),
        number,
        body,
    })
}

#[tactic(auto, unfolding(crate::specs::Saved::records_in))]
fn all_records<'a>(
    alloc: Global,
    header: &Header,
    bytes: &'a [u8],
) -> Result<(Records, &'a [u8]), Fault>
    ensures { Reads result (records_in header.now bytes.now) }
{
    let (own, rest) = own_within(alloc, header, bytes)?;
    let (vertices, rest) = vertex_records(alloc, header, rest)?;
    let (arcs, rest) = arc_records(alloc, header, rest)?;
    Ok((
        Records {
            own,
            vertices,
            arcs,
        },
        rest,
    ))
}

#[tactic(auto, unfolding(crate::specs::Saved::own_in))]
fn own_within<'a>(alloc: Global, header: &Header, bytes: &'a [u8]) -> Result<(Own, &'a [u8]), Fault>
    ensures { Reads result (own_in header.now bytes.now) }
{
    let (own, rest) = own_record(alloc, own_letters(header), bytes)?;
    if own.n > header.vertices {
        return Err(Fault::Syntax);
    }
    Ok((own, rest))
}

#[tactic(auto, unfolding(crate::specs::Saved::vertices_in))]
fn vertex_records<'a>(
    alloc: Global,
    header: &Header,
    bytes: &'a [u8],
) -> Result<(Items<VertexPart>, &'a [u8]), Fault>
    ensures { Reads result (vertices_in header.now bytes.now) }
{
    let rest = after(b"* Vertices\n", bytes)?;
    let letters = header.types.letters();
    vertices(alloc, &letters[..6], header.vertices, rest)
}

#[tactic(auto, unfolding(crate::specs::Saved::arcs_in))]
fn arc_records<'a>(
    alloc: Global,
    header: &Header,
    bytes: &'a [u8],
) -> Result<(Items<ArcPart>, &'a [u8]), Fault>
    ensures { Reads result (arcs_in header.now bytes.now) }
{
    let rest = after(b"* Arcs\n", bytes)?;
    let letters = header.types.letters();
    arcs(alloc, &letters[6..8], header.arcs, rest)
}

#[tactic(auto, unfolding(crate::specs::Saved::check_line_in))]
fn check_line(bytes: &[u8]) -> Result<i64, Fault>
    ensures found { Finds result (check_line_in bytes.now) }
    ensures range { IfOk result (λ z. FitsSigned w64 z) }
{
    let rest = after(b"* Checksum ", bytes)?;
    let (number, rest) = number(rest)?;
    if !ends_line(rest) {
        return Err(Fault::Syntax);
    }
    Ok(number)
}

// Returns the letters of the graph's own fields.
fn own_letters(header: &Header) -> &[u8]
    ensures letters { result.now ≡ graph_letters header.now.types }
    ensures six { length result.now ≡ 6 }
{
    let letters: &[u8] = header.types.letters();
    let (_, own) = letters.split_at(8);
    own
}

fn parts(header: &Header, records: Records) -> Parts
    ensures { result ≡ parts_of header.now records }
{
    let Records {
        own,
        vertices,
        arcs,
    } = records;
    let Own { id, n, fields } = own;
    let mut kept = vertices.into_vec();
    kept.truncate(n as usize);
    Parts {
        id,
        types: header.types,
        fields,
        vertices: Items::from_vec(kept),
        arcs,
    }
}
