//! The records of a saved text.
ghost use Rattle.std.specs.Prelude.{◌≡◌, length, replicate};
ghost use Rattle.sgb_grammar.specs.Private.Reading.{Reads};
ghost use Rattle.sgb_grammar.specs.Record.{own_at, vertex_at, arc_at, vertices_at, arcs_at};

use crate::Fault;
use crate::bytes::after;
use crate::fields::{comma, fields, link, tip};
use crate::numbers::{count, number};
use crate::strings::{label, text};
use sgb_graph::{ArcPart, Items, Text, Util, VertexPart};
use std::alloc::Global;

/// The most bytes of an id.
const ID_LIMIT: usize = 160;

/// The fewest bytes that a vertex takes, and an arc.
const SHORTEST_VERTEX: usize = 5;

const SHORTEST_ARC: usize = 6;

/// What the graph's own record says: its id, how many of the vertices are its own, and its fields.
#[derive(Debug, Drop)]
pub(crate) struct Own {
    pub(crate) id: Text,
    pub(crate) n: u64,
    pub(crate) fields: [Util; 6],
}

/// Reads the graph's own record. Its count of arcs is read and not kept.
#[tactic(auto, unfolding(crate::specs::Record::own_at))]
pub(crate) fn own_record<'a>(
    alloc: Global,
    letters: &[u8],
    bytes: &'a [u8],
) -> Result<(Own, &'a [u8]), Fault>
    requires { length letters.now ≡ 6 }
    ensures { Reads result (own_at letters.now bytes.now) }
{
    let (id, rest) = text(alloc, ID_LIMIT, bytes)?;
    let (n, rest) = count(comma(rest)?)?;
    let (_, rest) = number(comma(rest)?)?;
    let mut values = zeros();
    let rest = fields(alloc, letters, &mut values, rest)?;
    let rest = after(b"\n", rest)?;
    Ok((
        Own {
            id,
            n,
            fields: values,
        },
        rest,
    ))
}

/// Reads the records of `count` vertices.
pub(crate) fn vertices<'a>(
    alloc: Global,
    letters: &[u8],
    count: u64,
    bytes: &'a [u8],
) -> Result<(Items<VertexPart>, &'a [u8]), Fault>
    requires { length letters.now ≡ 6 }
    ensures { Reads result (vertices_at letters.now count bytes.now) }
{
    let mut parts = Items::new(alloc);
    parts.reserve((count as usize).min(bytes.len() / SHORTEST_VERTEX))?;
    let mut rest = bytes;
    'records: for _i in 0..count {
        match vertex(alloc, letters, rest) {
            Ok((part, behind)) => {
                if parts.push(part).is_err() {
                    return Err(Fault::NoRoom);
                }
                rest = behind;
            }
            Err(fault) => return Err(fault),
        }
    }
    Ok((parts, rest))
}

/// Reads the records of `count` arcs.
pub(crate) fn arcs<'a>(
    alloc: Global,
    letters: &[u8],
    count: u64,
    bytes: &'a [u8],
) -> Result<(Items<ArcPart>, &'a [u8]), Fault>
    requires { length letters.now ≡ 2 }
    ensures { Reads result (arcs_at letters.now count bytes.now) }
{
    let mut parts = Items::new(alloc);
    parts.reserve((count as usize).min(bytes.len() / SHORTEST_ARC))?;
    let mut rest = bytes;
    'records: for _i in 0..count {
        match arc(alloc, letters, rest) {
            Ok((part, behind)) => {
                if parts.push(part).is_err() {
                    return Err(Fault::NoRoom);
                }
                rest = behind;
            }
            Err(fault) => return Err(fault),
        }
    }
    Ok((parts, rest))
}

#[tactic(auto, unfolding(crate::specs::Record::vertex_at))]
fn vertex<'a>(
    alloc: Global,
    letters: &[u8],
    bytes: &'a [u8],
) -> Result<(VertexPart, &'a [u8]), Fault>
    requires { length letters.now ≡ 6 }
    ensures { Reads result (vertex_at letters.now bytes.now) }
{
    let (name, rest) = label(alloc, bytes)?;
    let (first, rest) = link(comma(rest)?)?;
    let mut values = zeros();
    let rest = fields(alloc, letters, &mut values, rest)?;
    let rest = after(b"\n", rest)?;
    Ok((
        VertexPart {
            label: name,
            fields: values,
            first,
        },
        rest,
    ))
}

#[tactic(auto, unfolding(crate::specs::Record::arc_at))]
fn arc<'a>(alloc: Global, letters: &[u8], bytes: &'a [u8]) -> Result<(ArcPart, &'a [u8]), Fault>
    requires { length letters.now ≡ 2 }
    ensures { Reads result (arc_at letters.now bytes.now) }
{
    let (to, rest) = tip(bytes)?;
    let (next, rest) = link(comma(rest)?)?;
    let (len, rest) = number(comma(rest)?)?;
    let mut values = [Util::Zero, Util::Zero];
    let rest = fields(alloc, letters, &mut values, rest)?;
    let rest = after(b"\n", rest)?;
    Ok((
        ArcPart {
            tip: to,
            len,
            fields: values,
            next,
        },
        rest,
    ))
}

// The six fields of a vertex or of the graph before they are read.
fn zeros() -> [Util; 6]
    ensures { result ≡ replicate 6 Util.Zero }
{
    [
        Util::Zero,
        Util::Zero,
        Util::Zero,
        Util::Zero,
        Util::Zero,
        Util::Zero,
    ]
}
