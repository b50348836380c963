//! Room for arcs and for vertices, and for the fields of each.
ghost use Rattle.std.specs.Prelude.{◌≡◌, ◌≤◌, ◌+◌, vec_len, vec_capacity, IfErr, OnOk};
ghost use Rattle.sgb_graph.specs.Private.Insert.{IsRefusedAt};

use super::MOST_ARCS;
use super::arena::Cell;
use crate::{Refusal, Util};
use std::alloc::AllocError;

// Takes room for so many arcs more, and for the fields of all.
pub(super) fn make_room(
    cells: &mut Vec<Cell>,
    fields: &mut Vec<[Util; 2]>,
    count: usize,
) -> Result<(), Refusal>
    requires few { vec_len fields.old ≤ vec_len cells.old }
    requires most { vec_len cells.old ≤ 1000000 }
    ensures cells { cells.new.items ≡ cells.old.items }
    ensures cells_len { vec_len cells.new ≡ vec_len cells.old }
    ensures fields { fields.new.items ≡ fields.old.items }
    ensures fields_len { vec_len fields.new ≡ vec_len fields.old }
    ensures room { OnOk result (vec_len cells.old + count ≤ vec_capacity cells.new) }
    ensures fields_room { OnOk result (vec_len cells.old + count ≤ vec_capacity fields.new) }
    ensures capacity { vec_capacity fields.old ≤ vec_capacity fields.new }
    ensures most { OnOk result (vec_len cells.old + count ≤ 1000000) }
    ensures err { IfErr result (IsRefusedAt (vec_len cells.old + count)) }
{
    if count > MOST_ARCS as usize - cells.len() {
        return Err(Refusal::TooLarge);
    }
    let needed = cells.len() + count;
    if needed > cells.capacity() || needed > fields.capacity() {
        reserve(cells, fields, count)?;
    }
    Ok(())
}

// Takes room for so many arcs or vertices more, and for the fields of all, so that a field is set without memory. As long as
// none was set there is nothing to move, and the room is exchanged: none of it is touched.
#[inline(never)]
pub(super) fn reserve<T, F: Drop>(
    all: &mut Vec<T>,
    fields: &mut Vec<F>,
    count: usize,
) -> Result<(), AllocError>
    requires { vec_len fields.old ≤ vec_len all.old }
    ensures all { all.new.items ≡ all.old.items }
    ensures all_len { vec_len all.new ≡ vec_len all.old }
    ensures fields { fields.new.items ≡ fields.old.items }
    ensures fields_len { vec_len fields.new ≡ vec_len fields.old }
    ensures room { OnOk result (vec_len all.old + count ≤ vec_capacity all.new) }
    ensures fields_room { OnOk result (vec_len all.old + count ≤ vec_capacity fields.new) }
    ensures capacity { vec_capacity fields.old ≤ vec_capacity fields.new }
{
    all.reserve(count)?;
    if fields.is_empty() && fields.capacity() < all.capacity() {
        *fields = Vec::with_capacity(*fields.allocator(), all.capacity())?;
    }
    fields.reserve(all.capacity() - fields.len())
}
