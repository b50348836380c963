//! The endpoints of edges as vertices.
ghost use Rattle.std.specs.Prelude.{◌≡◌, ◌≤◌, ◌<◌, ◌+◌, ◌∷◌, ◌++◌, [], List, None, Some, All, length, map, max, true, IfOk, IfErr, OnOk, MatchResult};
ghost use Rattle.std.specs.List.{position_or_len};
ghost use Rattle.std.specs.Option.{option_or};
ghost use Rattle.std.specs.Str.{bytes_eq};
ghost use Rattle.sgb_graph.specs.Sound.{is_text};
ghost use Rattle.sgb_graph.specs.Text.{IsText};
ghost use Rattle.sgb_import.specs.Edges.{Ends, end_fault, most_vertices, names_of, number_fault};
ghost use Rattle.sgb_import.specs.Numbers.{natural_of};
ghost use Rattle.sgb_import.specs.Private.EdgesRead.{IsFound, IsKind, Tells, name_fault, shown_ends, with_name};
ghost use Rattle.sgb_import.specs.Private.Outlined.{bytes_of, names_in};

use crate::edges_header::{Header, beyond, most_vertices};
use crate::edges_line::EdgeLine;
use crate::ids::is_text;
use crate::number::natural;
use crate::outline::Names;
use crate::{EdgeList, TextFault};
use indexmap::IndexSet;
use std::alloc::{AllocFailed, Global};

// Why an edge is not read: an allocation failed, or its line is at fault.
#[derive(Clone, Copy, Debug, Drop)]
pub(crate) enum EdgeFault {
    NoRoom,
    Text(TextFault),
}

// The names of the vertices before the first edge: none, or as many numbers as the header says.
pub(crate) fn first_names<'a>(alloc: Global, list: EdgeList, header: Option<Header>) -> Names<'a>
    requires { most_vertices header ≤ 65535 }
    ensures kind { IsKind list.names result }
    ensures names { names_in result ≡ names_of list header [] }
{
    if list.names {
        return Names::Words(IndexSet::new(alloc));
    }
    match header {
        Some(header) => Names::Numbers(0, header.vertices as u32),
        None => Names::Numbers(0, 0),
    }
}

// The vertices that an edge joins. Those that are new get a name.
pub(crate) fn find_ends<'a>(
    names: &mut Names<'a>,
    list: EdgeList,
    header: Option<Header>,
    edge: &EdgeLine<'a>,
) -> Result<(u32, u32), EdgeFault>
    requires kind { IsKind list.names names.old }
    requires few { length (names_in names.old) ≤ 65535 }
    requires most { most_vertices header ≤ 65535 }
    ensures kind { IsKind list.names names.new }
    ensures ok { (es : List Ends) → names_in names.old ≡ names_of list header es →
        IfOk result (λ p. IsFound list header es (shown_ends edge.now) (names_in names.old) (names_in names.new) p.0 p.1) }
    ensures err { IfErr result (Tells
        (option_or (end_fault list header edge.now.from.now) (end_fault list header edge.now.to.now))) }
{
    match names {
        Names::Numbers(_, count) => Ok(number_ends(count, header, edge)?),
        Names::Words(words) => Ok(name_ends(words, edge)?),
    }
}

// The numbers of the endpoints, which the count is made to exceed.
fn number_ends(
    count: &mut u32,
    header: Option<Header>,
    edge: &EdgeLine<'_>,
) -> Result<(u32, u32), TextFault>
    requires { most_vertices header ≤ 65535 }
    ensures from { IfOk result (λ p. natural_of edge.now.from.now ≡ Some p.0) }
    ensures to { IfOk result (λ p. natural_of edge.now.to.now ≡ Some p.1) }
    ensures from_low { IfOk result (λ p. p.0 < most_vertices header) }
    ensures to_low { IfOk result (λ p. p.1 < most_vertices header) }
    ensures count { IfOk result (λ p. count.new ≡ max (max count.old (p.0 + 1)) (p.1 + 1)) }
    ensures err { IfErr result (λ e.
        option_or (number_fault header (natural_of edge.now.from.now)) (number_fault header (natural_of edge.now.to.now)) ≡ Some e) }
{
    let from = vertex_number(header, edge.from)?;
    let to = vertex_number(header, edge.to)?;
    *count = (*count).max(from + 1).max(to + 1);
    Ok((from, to))
}

fn vertex_number(header: Option<Header>, word: &[u8]) -> Result<u32, TextFault>
    requires { most_vertices header ≤ 65535 }
    ensures ok { IfOk result (λ v. natural_of word.now ≡ Some v) }
    ensures low { IfOk result (λ v. v < most_vertices header) }
    ensures none { OnOk result (number_fault header (natural_of word.now) ≡ None) }
    ensures err { IfErr result (λ e. number_fault header (natural_of word.now) ≡ Some e) }
{
    let Some(number) = natural(word) else {
        return Err(TextFault::NotAnEdge);
    };
    if number >= most_vertices(header) {
        return Err(beyond(header, TextFault::NoSuchVertex));
    }
    Ok(number as u32)
}

// The numbers of the endpoints' names, which are given to those that are new.
fn name_ends<'a>(
    words: &mut IndexSet<&'a [u8]>,
    edge: &EdgeLine<'a>,
) -> Result<(u32, u32), EdgeFault>
    requires { length words.old.keys ≤ 65535 }
    ensures from { OnOk result (is_text edge.now.from.now ≡ true) }
    ensures to { OnOk result (is_text edge.now.to.now ≡ true) }
    ensures names { OnOk result (map bytes_of words.new.keys
        ≡ with_name (with_name (map bytes_of words.old.keys) edge.now.from.now) edge.now.to.now) }
    ensures from_place { IfOk result (λ p. p.0
        ≡ position_or_len (bytes_eq edge.now.from.now) (map bytes_of words.old.keys)) }
    ensures to_place { IfOk result (λ p. p.1
        ≡ position_or_len (bytes_eq edge.now.to.now) (with_name (map bytes_of words.old.keys) edge.now.from.now)) }
    ensures err { IfErr result (Tells (option_or (name_fault edge.now.from.now) (name_fault edge.now.to.now))) }
{
    check_name(edge.from)?;
    check_name(edge.to)?;
    let from = number_name(words, edge.from)?;
    let to = number_name(words, edge.to)?;
    Ok((from, to))
}

fn check_name(word: &[u8]) -> Result<(), TextFault>
    ensures ok { OnOk result (is_text word.now ≡ true) }
    ensures err { IfErr result (λ e. name_fault word.now ≡ Some e) }
{
    if !is_text(word) {
        return Err(TextFault::BadName);
    }
    Ok(())
}

// The number of the name, which is given to it where it is new.
fn number_name<'a>(words: &mut IndexSet<&'a [u8]>, name: &'a [u8]) -> Result<u32, EdgeFault>
    requires { length words.old.keys ≤ 65536 }
    ensures names { OnOk result (map bytes_of words.new.keys ≡ with_name (map bytes_of words.old.keys) name.now) }
    ensures place { IfOk result (λ v. v ≡ position_or_len (bytes_eq name.now) (map bytes_of words.old.keys)) }
    ensures err { IfErr result (λ e. e ≡ EdgeFault.NoRoom) }
{
    let (place, _) = words.insert_full(name)?;
    Ok(place as u32)
}

impl From<TextFault> for EdgeFault {
    ghost use Rattle.std.specs.Prelude.{◌≡◌};
    ghost use Rattle.sgb_import.specs.declared.edges_ends.EdgeFault.TheVariants.{Text};

    ghost from_gives = { λ e r. r ≡ Text e };

    fn from(e: TextFault) -> EdgeFault {
        EdgeFault::Text(e)
    }
}

impl<T: Drop> From<AllocFailed<T>> for EdgeFault {
    ghost use Rattle.std.specs.Prelude.{◌≡◌};
    ghost use Rattle.sgb_import.specs.declared.edges_ends.EdgeFault.TheVariants.{NoRoom};

    ghost from_gives = { λ _ r. r ≡ NoRoom };

    fn from(_e: AllocFailed<T>) -> EdgeFault {
        EdgeFault::NoRoom
    }
}
