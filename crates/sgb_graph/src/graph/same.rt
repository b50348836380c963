//! Comparing graphs.
ghost use Rattle.std.specs.Prelude.{◌≡◌};
ghost use Rattle.sgb_graph.specs.Same.{tip_eq};
ghost use Rattle.sgb_graph.specs.Private.SameRows.{link_eq, own_eq, lists_eq};

use super::arena::Arena;
use super::codes::Link;
use super::{Graph, Vertices};
use crate::{Tip, Util};

impl PartialEq for Graph {
    ghost use Rattle.sgb_graph.specs.Same.{graph_eq};
    ghost use Rattle.sgb_graph.specs.Private.SameLaws.{graph_eq_laws};

    ghost eq = { graph_eq };

    ghost laws = { graph_eq_laws };

    fn eq(&self, other: &Graph) -> bool {
        let id = self.id.bytes();
        let letters = self.types.letters();
        if !is_own_same(
            id,
            other.id.bytes(),
            letters,
            other.types.letters(),
            &self.fields,
            &other.fields,
        ) {
            return false;
        }
        are_lists_same(&self.vertices, &other.vertices, &self.slots, &other.slots)
    }
}

impl Eq for Graph {
    ghost use Rattle.sgb_graph.specs.Private.SameLaws.{graph_eq_equiv};

    ghost laws = { graph_eq_equiv };
}

fn is_own_same(
    id: &[u8],
    other_id: &[u8],
    letters: &[u8; 14],
    other_letters: &[u8; 14],
    fields: &[Util; 6],
    other_fields: &[Util; 6],
) -> bool
    ensures { result ≡ own_eq id.now other_id.now letters.now other_letters.now fields.now other_fields.now }
{
    id == other_id && letters == other_letters && fields == other_fields
}

fn are_lists_same(
    vertices: &Vertices,
    other_vertices: &Vertices,
    slots: &Arena,
    other_slots: &Arena,
) -> bool
    ensures { result ≡ lists_eq vertices.now other_vertices.now slots.now other_slots.now }
{
    vertices.is_same(other_vertices) && slots.is_same(other_slots)
}

pub(super) fn is_link_same(link: Link, other: Link) -> bool
    ensures { result ≡ link_eq link other }
{
    match (link.get(), other.get()) {
        (Some(number), Some(other)) => number.0 == other.0,
        (None, None) => true,
        _ => false,
    }
}

pub(super) fn is_tip_same(tip: Tip, other: Tip) -> bool
    ensures { result ≡ tip_eq tip other }
{
    match (tip, other) {
        (Tip::Zero, Tip::Zero) => true,
        (Tip::One, Tip::One) => true,
        (Tip::To(vertex), Tip::To(other)) => vertex.0 == other.0,
        _ => false,
    }
}
