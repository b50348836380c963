//! The arcs of one vertex in order: all of them, or those that stand for an insertion each.
ghost use Rattle.std.specs.Prelude.{◌≡◌, ◌<◌, length};
ghost use Rattle.sgb_graph.specs.Private.Arena.{IsLinked, numbers};
ghost use Rattle.sgb_graph.specs.Private.Walk.{is_pair_in, walked, past};

use super::arena::Arena;
use super::codes::Link;
use super::paired::follows;
use crate::ArcNo;
use std::marker::Model;

/// The numbers of a vertex's arcs, the newest first; without the second halves of loops where the walk is not
/// directed.
#[derive(Drop)]
pub struct Walk<'a> {
    slots: &'a Arena,
    directed: bool,
    next: Link,
}

impl<'a> Model for Walk<'a> {
    ghost use Rattle.std.specs.Prelude.{List, ℕ};

    ghost Value = { List ℕ };

    ghost use Rattle.sgb_graph.specs.Private.Arena.{numbers, IsLinked};
    ghost use Rattle.sgb_graph.specs.Private.Walk.{walked};

    ghost view = { λ w. walked w.directed w.slots.now (numbers w.slots.now w.next) };

    ghost invariant = { λ w. IsLinked w.slots.now w.next };
}

impl<'a> Walk<'a> {
    pub(super) fn new(slots: &'a Arena, first: Link, directed: bool) -> Walk<'a>
        requires { IsLinked slots.now first }
        ensures { result ≡ walked directed slots.now (numbers slots.now first) }
    {
        Walk {
            slots,
            directed,
            next: first,
        }
    }
}

impl<'a> Iterator for Walk<'a> {
    ghost use Rattle.std.specs.Iterator.{YieldsFirstBy, item_count};

    type Item = ArcNo;

    ghost next_gives = { YieldsFirstBy (λ k. k.0) (λ ks. ks) };

    ghost remaining = { item_count (λ ks. ks) };

    fn next(&mut self) -> Option<ArcNo> {
        match self.next.get() {
            Some(number) => {
                let next = self.slots.next_after(number);
                self.next = past(self.slots, self.directed, number, next);
                Some(number)
            }
            None => None,
        }
    }
}

// The link by which a walk goes on after this arc: past its second half.
fn past(slots: &Arena, directed: bool, number: ArcNo, next: Link) -> Link
    requires number { number.0 < length slots.now }
    requires linked { IsLinked slots.now next }
    ensures { result ≡ past directed slots.now number.0 next }
{
    match next.get() {
        Some(second) => {
            if !directed && is_pair(slots, number, second) {
                slots.next_after(second)
            } else {
                next
            }
        }
        None => next,
    }
}

// Both are loops, and the second is numbered next, which is asked first, since it is seldom so.
fn is_pair(slots: &Arena, first: ArcNo, second: ArcNo) -> bool
    requires first { first.0 < length slots.now }
    requires second { second.0 < length slots.now }
    ensures { result ≡ is_pair_in slots.now first.0 second.0 }
{
    follows(first, second) && slots.is_loop(first) && slots.is_loop(second)
}
