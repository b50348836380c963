//! Lists of edges.
ghost use Rattle.std.specs.Prelude.{◌≡◌, ◌⊎◌, ◌≤◌, ◌<◌, ◌∷◌, ◌++◌, [], List, None, Some, IfOk, IfErr, OnOk, MatchResult, IsErrOf, IsSome, IsSomeAnd, length};
ghost use Rattle.sgb_import.specs.Edges.{Ends, directed_by, MayGather, edge_fault, edge_of, edges_in, ends_of, fault_behind, first_line_fault, most_vertices, outline_of_edges, refusal_of_edges};
ghost use Rattle.sgb_import.specs.Lines.{LineOf, lines, words};
ghost use Rattle.sgb_import.specs.Outline.{IsOutline, arcs_of_links};
ghost use Rattle.sgb_import.specs.Refusal.{at_line};
ghost use Rattle.sgb_import.specs.Private.Cursors.{seen};
ghost use Rattle.sgb_import.specs.Private.EdgesRead.{IsBehind, IsKind, IsRead, Tells, limits_fault};
ghost use Rattle.sgb_import.specs.Private.Outlined.{names_in, outline_of};

use crate::edges_ends::{EdgeFault, find_ends, first_names};
use crate::edges_header::{
    Header, beyond, check_counts, check_header, find_header, is_directed, most_vertices,
};
use crate::edges_id::{check_id, find_id, id_or_default};
use crate::edges_line::{edge_in, is_edge};
use crate::lines::{Line, Lines};
use crate::outline::{Link, Names, Outline};
use crate::{EdgeList, ImportRefusal, TextFault};
use std::alloc::Global;

// The most arcs of a graph.
const MOST_ARCS: usize = 1_000_000;

// The vertices and the links that are read so far.
#[derive(Drop)]
pub(crate) struct Gathered<'a> {
    names: Names<'a>,
    links: Vec<Link>,
}

// What a list of edges says, or its first fault.
pub(crate) fn read_edges<'a>(
    alloc: Global,
    text: &'a [u8],
    list: EdgeList,
) -> Result<Outline<'a>, ImportRefusal>
    ensures none { OnOk result (refusal_of_edges list text.now ≡ None) }
    ensures value { IfOk result (λ o. outline_of o ≡ outline_of_edges list text.now) }
    ensures outline { IfOk result (λ o. IsOutline (outline_of o)) }
    ensures err { IfErr result (λ e. (e ≡ ImportRefusal.NoRoom) ⊎ (refusal_of_edges list text.now ≡ Some e)) }
    ensures room { IsErrOf result ImportRefusal.NoRoom → MayGather list (lines text.now) }
{
    let header = find_header(text);
    check_header(list, header)?;
    let id = find_id(text);
    check_id(id)?;
    let gathered = read_lines(alloc, text, list, header)?;
    check_counts(list, header, gathered.names.len(), gathered.links.len())?;
    Ok(Outline {
        id: id_or_default(id),
        names: gathered.names,
        directed: is_directed(list, header),
        links: gathered.links,
    })
}

// What the lines say, or the first of them that is at fault.
fn read_lines<'a>(
    alloc: Global,
    text: &'a [u8],
    list: EdgeList,
    header: Option<Header>,
) -> Result<Gathered<'a>, ImportRefusal>
    requires { most_vertices header ≤ 65535 }
    ensures none { OnOk result (first_line_fault list header (lines text.now) ≡ None) }
    ensures read { IfOk result (λ g. IsRead list header (edges_in (lines text.now)) g.names g.links.items) }
    ensures err { IfErr result (λ e.
        (e ≡ ImportRefusal.NoRoom) ⊎ (first_line_fault list header (lines text.now) ≡ Some e)) }
    ensures room { IsErrOf result ImportRefusal.NoRoom → 0 < length (edges_in (lines text.now)) }
{
    let mut gathered = Gathered {
        names: first_names(alloc, list, header),
        links: Vec::new(alloc),
    };
    for line in Lines::new(text) {
        read_line(&mut gathered, list, header, line)?;
    }
    Ok(gathered)
}

// Reads the edge of the line, if it has one.
fn read_line<'a>(
    gathered: &mut Gathered<'a>,
    list: EdgeList,
    header: Option<Header>,
    line: Line<'a>,
) -> Result<(), ImportRefusal>
    requires kind { IsKind list.names gathered.old.names }
    requires few { length (names_in gathered.old.names) ≤ 65535 }
    requires links { length gathered.old.links.items ≤ 1000000 }
    requires most { most_vertices header ≤ 65535 }
    ensures none { (before : List LineOf) →
        IsRead list header (edges_in before) gathered.old.names gathered.old.links.items →
        OnOk result (fault_behind list header before (seen line.entry) ≡ None) }
    ensures read { (before : List LineOf) →
        IsRead list header (edges_in before) gathered.old.names gathered.old.links.items →
        OnOk result (IsBehind list header before (seen line.entry) gathered.new.names gathered.new.links.items) }
    ensures err { (before : List LineOf) →
        IsRead list header (edges_in before) gathered.old.names gathered.old.links.items →
        IfErr result (λ e. (e ≡ ImportRefusal.NoRoom)
        ⊎ (at_line line.entry.number (fault_behind list header before (seen line.entry)) ≡ Some e)) }
    ensures room { IsErrOf result ImportRefusal.NoRoom → IsSome (edge_of (seen line.entry)) }
{
    if !is_edge(line) {
        return Ok(());
    }
    match read_edge(gathered, list, header, line.bytes) {
        Ok(()) => Ok(()),
        Err(EdgeFault::NoRoom) => Err(ImportRefusal::NoRoom),
        Err(EdgeFault::Text(fault)) => Err(ImportRefusal::At {
            line: line.number,
            fault,
        }),
    }
}

// Reads the edge of a line that has one.
fn read_edge<'a>(
    gathered: &mut Gathered<'a>,
    list: EdgeList,
    header: Option<Header>,
    line: &'a [u8],
) -> Result<(), EdgeFault>
    requires kind { IsKind list.names gathered.old.names }
    requires few { length (names_in gathered.old.names) ≤ 65535 }
    requires links { length gathered.old.links.items ≤ 1000000 }
    requires most { most_vertices header ≤ 65535 }
    ensures ok { (es : List Ends) → IsRead list header es gathered.old.names gathered.old.links.items →
        OnOk result (IsSomeAnd (ends_of (words line.now))
        (λ e. (edge_fault list header es (Some e) ≡ None)
        × IsRead list header (es ++ e ∷ []) gathered.new.names gathered.new.links.items)) }
    ensures err { (es : List Ends) → IsRead list header es gathered.old.names gathered.old.links.items →
        IfErr result (Tells (edge_fault list header es (ends_of (words line.now)))) }
    ensures room { IsErrOf result EdgeFault.NoRoom → IsSome (ends_of (words line.now)) }
{
    let Some(edge) = edge_in(line) else {
        return Err(EdgeFault::Text(TextFault::NotAnEdge));
    };
    let (from, to) = find_ends(&mut gathered.names, list, header, &edge)?;
    check_limits(list, header, gathered.names.len(), gathered.links.len() + 1)?;
    gathered.links.push(Link {
        from,
        to,
        len: edge.len,
    })?;
    Ok(())
}

// Refuses more names than vertices, and too many arcs.
fn check_limits(
    list: EdgeList,
    header: Option<Header>,
    names: usize,
    edges: usize,
) -> Result<(), TextFault>
    requires { edges ≤ 1000001 }
    ensures { MatchResult result
        (λ _. limits_fault list header names edges ≡ None)
        (λ e. limits_fault list header names edges ≡ Some e) }
{
    if list.names && names as u64 > most_vertices(header) {
        return Err(beyond(header, TextFault::WrongVertices));
    }
    if count_arcs(is_directed(list, header), edges) > MOST_ARCS {
        return Err(TextFault::TooManyArcs);
    }
    Ok(())
}

// How many arcs so many links are.
fn count_arcs(directed: bool, links: usize) -> usize
    requires { links ≤ 1000001 }
    ensures { result ≡ arcs_of_links directed links }
{
    if directed { links } else { 2 * links }
}
