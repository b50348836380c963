//! Laying the chains of saved records into the lists of a graph. A chain is followed over owners and links alone, which take
//! eight bytes a record, and the arcs are then laid in the order of their numbers. What a record tells beside its link is put in
//! later.
ghost use Rattle.std.specs.Prelude.{◌≡◌, ◌<◌, ◌≤◌, ◌+◌, ◌⊎◌, length, map, IsSome, IsErr, None, Some, IfOk, IfErr, OnOk, slice_set};
ghost use Rattle.sgb_graph.specs.Private.Lay.{Lays, RefusesToLay, FirstsOf, OwnsBelow, Owns, links_of, nexts, kept_link, row_at, owned_row, unowned};

use super::arena::Arena;
use super::codes::{Link, OwnerCode};
use super::{Graph, MOST_ARCS, Vertices, six_zeros};
use crate::{ArcNo, ArcPart, Refusal, Text, Types, VertexNo, VertexPart};
use std::alloc::{AllocError, Global};

/// A record's link, and the vertex whose chain it stands in, as far as the chains were followed.
#[derive(Clone, Copy)]
pub(super) struct Chained {
    pub owner: OwnerCode,
    pub next: Link,
}

impl Graph {
    // The graph of this id and these letters whose lists are the chains of these records, and whose arcs lead nowhere yet.
    // Refused where there is none.
    pub(super) fn laid(
        alloc: Global,
        id: Text,
        types: Types,
        parts: &[VertexPart],
        arcs: &[ArcPart],
    ) -> Result<Graph, Refusal>
        requires id { length id ≤ 160 }
        requires vertices { length parts.now ≤ 65535 }
        requires arcs { length arcs.now ≤ 1000000 }
        ensures ok { IfOk result (Lays parts.now (links_of arcs.now)) }
        ensures own { IfOk result (λ g. (g.id ≡ id) × (g.types ≡ types)) }
        ensures err { IfErr result (λ e. ((e ≡ Refusal.NoRoom) × (0 < length parts.now + length arcs.now)) ⊎
            RefusesToLay parts.now (links_of arcs.now) e) }
    {
        let _ = id.bytes();
        let _ = types.letters();
        let mut rows = unowned(alloc, arcs)?;
        let holes = own_all(parts, &mut rows)?;
        let slots = Arena::laid(alloc, &rows)?;
        let mut vertices = Vertices::blank(alloc, parts.len() as u32)?;
        link_firsts(&mut vertices, parts);
        Ok(Graph {
            id,
            types,
            fields: six_zeros(),
            vertices,
            slots,
            holes,
        })
    }
}

// The links of the records, none of which stands in a chain so far.
fn unowned(alloc: Global, arcs: &[ArcPart]) -> Result<Vec<Chained>, AllocError>
    ensures ok { IfOk result (λ rows. rows.items ≡ map unowned arcs.now) }
    ensures room { IsErr result → 0 < length arcs.now }
{
    let mut rows = Vec::with_capacity(alloc, arcs.len())?;
    for part in arcs {
        rows.push_reserved(Chained {
            owner: OwnerCode::none(),
            next: kept_link(part.next),
        });
    }
    Ok(rows)
}

// A link in four bytes. One beyond all records stays beyond them.
fn kept_link(next: Option<ArcNo>) -> Link
    ensures { result ≡ kept_link 1000000 next }
{
    match next {
        Some(number) => Link::to(ArcNo(number.0.min(MOST_ARCS))),
        None => Link::none(),
    }
}

// Follows the chain of each vertex, and answers how many records stand in none. Refused where no graph has these chains.
fn own_all(vertices: &[VertexPart], rows: &mut [Chained]) -> Result<u32, Refusal>
    requires owns { OwnsBelow vertices.now 0 rows.old (length rows.old) }
    requires vertices { length vertices.now ≤ 65535 }
    requires rows { length rows.old ≤ 1000000 }
    ensures ok { IfOk result (Owns vertices.now rows.new) }
    ensures links { nexts rows.new ≡ nexts rows.old }
    ensures err { IfErr result (RefusesToLay vertices.now (nexts rows.old)) }
{
    let mut holes = rows.len() as u32;
    for vertex in 0..vertices.len() as u32 {
        own_chain(VertexNo(vertex), vertices, rows, &mut holes)?;
    }
    Ok(holes)
}

// Follows the chain of one vertex, whose records it then owns. Each step takes a hole away.
fn own_chain(
    vertex: VertexNo,
    vertices: &[VertexPart],
    rows: &mut [Chained],
    holes: &mut u32,
) -> Result<(), Refusal>
    requires vertex { vertex.0 < length vertices.now }
    requires vertices { length vertices.now ≤ 65535 }
    requires owns { OwnsBelow vertices.now vertex.0 rows.old holes.old }
    ensures ok { OnOk result (OwnsBelow vertices.now (vertex.0 + 1) rows.new holes.new) }
    ensures links { nexts rows.new ≡ nexts rows.old }
    ensures err { IfErr result (RefusesToLay vertices.now (nexts rows.old)) }
{
    let mut link = vertices[vertex.0 as usize].first;
    while let Some(number) = link {
        link = own(vertex, rows, number)?;
        *holes -= 1;
    }
    Ok(())
}

// Gives a record to the vertex, and answers which one follows. Refused where there is none of this number, or where it stands
// in a chain before.
fn own(vertex: VertexNo, rows: &mut [Chained], number: ArcNo) -> Result<Option<ArcNo>, Refusal>
    requires { vertex.0 < 65535 }
    ensures low { OnOk result (number.0 < length rows.old) }
    ensures free { OnOk result ((row_at rows.old number.0).owner ≡ None) }
    ensures next { IfOk result (λ next. next ≡ (row_at rows.old number.0).next) }
    ensures owned { OnOk result (rows.new ≡ slice_set rows.old number.0 (owned_row vertex (row_at rows.old number.0))) }
    ensures err { IfErr result (λ e. (e ≡ Refusal.BadOperand) × (number.0 < length rows.old → IsSome (row_at rows.old number.0).owner)) }
    ensures links { nexts rows.new ≡ nexts rows.old }
{
    let index = number.0 as usize;
    if index >= rows.len() {
        return Err(Refusal::BadOperand);
    }
    let row = rows[index];
    if row.owner.get().is_some() {
        return Err(Refusal::BadOperand);
    }
    rows[index] = Chained {
        owner: OwnerCode::new(vertex),
        next: row.next,
    };
    Ok(row.next.get())
}

// Links each vertex to the front of its chain.
fn link_firsts(vertices: &mut Vertices, parts: &[VertexPart])
    requires same { length vertices.old ≡ length parts.now }
    requires few { length parts.now ≤ 65535 }
    ensures { FirstsOf vertices.old parts.now vertices.new }
{
    for vertex in 0..parts.len() as u32 {
        let first = kept_link(parts[vertex as usize].first);
        let _ = vertices.replace_first(VertexNo(vertex), first);
    }
}
