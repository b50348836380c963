//! Linking arcs into the lists of their owners, and out of them.
ghost use Rattle.std.specs.Prelude.{◌≡◌, ◌<◌, ◌≤◌, ◌^◌, ◌-◌, ◌==◌, length, None, Some};
ghost use Rattle.std.specs.List.{position_or_len};
ghost use Rattle.std.specs.Option.{ForSome};
ghost use Rattle.sgb_graph.specs.Private.Arena.{IsLinked, numbers};
ghost use Rattle.sgb_graph.specs.Private.Link.{number_before, link_after, vertices_relinked, slots_relinked, slots_gaining, slots_losing, slots_gaining_both, slots_losing_both, value_at, IsCounted, PutsBack, CanBePutBack, TakesOut, CanBeTakenOut};

use super::arena::Arena;
use super::codes::{Link, TipCode};
use super::{Vertices, Walk};
use crate::{ArcNo, CutArc, Util, VertexNo};

// The arc that stands before this place of a list.
fn number_before(slots: &Arena, first: Link, place: u32) -> Option<ArcNo>
    requires { IsLinked slots.now first }
    ensures { result ≡ number_before (numbers slots.now first) place }
{
    if place == 0 {
        return None;
    }
    Walk::new(slots, first, true).nth(place as usize - 1)
}

// Replaces the link that follows this arc, or else the owner's first link, and gives the link that was there.
fn replace_link(
    vertices: &mut Vertices,
    slots: &mut Arena,
    owner: VertexNo,
    before: Option<ArcNo>,
    link: Link,
) -> Link
    requires owner { owner.0 < length vertices.old }
    requires before { ForSome before (λ p. p.0 < length slots.old) }
    ensures old { result ≡ link_after vertices.old slots.old owner.0 before }
    ensures vertices { vertices.new ≡ vertices_relinked vertices.old owner.0 before link }
    ensures slots { slots.new ≡ slots_relinked slots.old before link }
{
    match before {
        None => vertices.replace_first(owner, link),
        Some(before) => slots.replace_next(before, link),
    }
}

fn gain_names(slots: &mut Arena, fields: &[Util; 2])
    requires first { IsCounted slots.old 0 (2 ^ 32 - 1) (value_at fields.now 0) }
    requires second { IsCounted (slots_gaining slots.old (value_at fields.now 0)) 0 (2 ^ 32 - 1) (value_at fields.now 1) }
    ensures { slots.new ≡ slots_gaining_both slots.old fields.now }
{
    slots.gain_name(&fields[0]);
    slots.gain_name(&fields[1]);
}

fn lose_names(slots: &mut Arena, fields: &[Util; 2])
    requires first { IsCounted slots.old 1 (2 ^ 32) (value_at fields.now 0) }
    requires second { IsCounted (slots_losing slots.old (value_at fields.now 0)) 1 (2 ^ 32) (value_at fields.now 1) }
    ensures { slots.new ≡ slots_losing_both slots.old fields.now }
{
    slots.lose_name(&fields[0]);
    slots.lose_name(&fields[1]);
}

// The place of the arc in a list, or the list's length where it does not stand there; and the arc before that place.
fn place_in(slots: &Arena, first: Link, number: ArcNo) -> (u32, Option<ArcNo>)
    requires linked { IsLinked slots.now first }
    requires few { length slots.now ≤ 1000000 }
    ensures place { result.0 ≡ position_or_len (λ j. j == number.0) (numbers slots.now first) }
    ensures before { result.1 ≡ number_before (numbers slots.now first) result.0 }
{
    let mut place = 0;
    let mut before = None;
    for other in Walk::new(slots, first, true) {
        if other == number {
            break;
        }
        place += 1;
        before = Some(other);
    }
    (place, before)
}

// Links the arc into its owner's list at its place. Its number is a hole.
pub(super) fn put_back(vertices: &mut Vertices, slots: &mut Arena, cut: CutArc)
    requires { CanBePutBack vertices.old slots.old cut }
    ensures { PutsBack vertices.old slots.old cut vertices.new slots.new }
{
    let CutArc {
        number,
        owner,
        place,
        tip,
        len,
        fields,
    } = cut;
    gain_names(slots, &fields);
    let before = number_before(slots, vertices.first(owner), place);
    let next = replace_link(vertices, slots, owner, before, Link::to(number));
    slots.put(number, owner, TipCode::new(tip), next, len, fields);
}

// Takes the arc out of its owner's list, and makes its number a hole.
// Inlined, so that nothing is put together of an arc that is not wanted.
#[inline(always)]
pub(super) fn take_out(vertices: &mut Vertices, slots: &mut Arena, number: ArcNo) -> CutArc
    requires { CanBeTakenOut vertices.old slots.old number.0 }
    ensures { TakesOut vertices.old slots.old number.0 result vertices.new slots.new }
{
    let owner = slots.owner_at(number);
    let first = vertices.first(owner);
    let (place, before) = place_in(slots, first, number);
    let slot = slots.remove(number);
    replace_link(vertices, slots, owner, before, slot.next);
    lose_names(slots, &slot.fields);
    CutArc {
        number,
        owner: slot.owner,
        place,
        tip: slot.tip.get(),
        len: slot.len,
        fields: slot.fields,
    }
}
