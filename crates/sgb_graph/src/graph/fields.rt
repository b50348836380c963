//! The fields of arcs, kept beside their cells, as far as one was ever set: those of all others are Zero.
ghost use Rattle.std.specs.Prelude.{◌≡◌, ◌<◌, ◌≤◌, ◌+◌, max, length, vec_len, vec_capacity, slice_index_or, slice_set};
ghost use Rattle.sgb_graph.specs.declared.field.Util.TheVariants as utils;
ghost use Rattle.sgb_graph.specs.Private.Cells.{two_zeros, kept_at, SameFields, PutsFields, is_zero};

use crate::Util;
use std::mem;

pub(super) fn two_zeros() -> [Util; 2]
    ensures { result ≡ two_zeros }
{
    [Util::Zero, Util::Zero]
}

pub(super) fn is_zero(value: &Util) -> bool
    ensures { result ≡ is_zero value.now }
{
    matches!(value, Util::Zero)
}

// The fields of the arc of this number, where those beyond the end are the zeros.
pub(super) fn kept_at<'a>(
    fields: &'a [[Util; 2]],
    zeros: &'a [Util; 2],
    index: usize,
) -> &'a [Util; 2]
    requires { zeros.now ≡ two_zeros }
    ensures { result.now ≡ kept_at fields.now index }
{
    match fields.get(index) {
        Some(fields) => fields,
        None => zeros,
    }
}

// Fills up with Zeros to so many.
fn fill_to(fields: &mut Vec<[Util; 2]>, count: usize)
    requires fewer { vec_len fields.old ≤ count }
    requires room { count ≤ vec_capacity fields.old }
    ensures same { SameFields fields.old.items fields.new.items }
    ensures len { vec_len fields.new ≡ count }
    ensures capacity { vec_capacity fields.new ≡ vec_capacity fields.old }
{
    for _number in fields.len()..count {
        fields.push_reserved(two_zeros());
    }
}

// Gives the arc of this number these fields.
#[inline(always)]
pub(super) fn put_fields(fields: &mut Vec<[Util; 2]>, index: usize, values: [Util; 2])
    requires { index < vec_capacity fields.old }
    ensures puts { PutsFields fields.old.items index values fields.new.items }
    ensures len { vec_len fields.new ≤ max (vec_len fields.old) (index + 1) }
    ensures capacity { vec_capacity fields.new ≡ vec_capacity fields.old }
{
    if index < fields.len() {
        fields[index] = values;
    } else if !is_zero(&values[0]) || !is_zero(&values[1]) {
        fill_to(fields, index);
        fields.push_reserved(values);
    }
}

// Takes the fields of the arc of this number away: they are Zero then.
pub(super) fn take_fields(fields: &mut Vec<[Util; 2]>, index: usize) -> [Util; 2]
    ensures value { result ≡ kept_at fields.old.items index }
    ensures puts { PutsFields fields.old.items index two_zeros fields.new.items }
    ensures len { vec_len fields.new ≡ vec_len fields.old }
    ensures capacity { vec_capacity fields.new ≡ vec_capacity fields.old }
{
    if index < fields.len() {
        mem::replace(&mut fields[index], two_zeros())
    } else {
        two_zeros()
    }
}

// Puts a value into a field of the arc of this number, and gives the one that was there.
pub(super) fn replace_kept(
    fields: &mut Vec<[Util; 2]>,
    index: usize,
    place: usize,
    value: Util,
) -> Util
    requires room { index < vec_capacity fields.old }
    requires fields { length (kept_at fields.old.items index) ≡ 2 }
    requires place { place < 2 }
    ensures old { result ≡ slice_index_or (kept_at fields.old.items index) place utils.Zero }
    ensures puts { PutsFields fields.old.items index (slice_set (kept_at fields.old.items index) place value) fields.new.items }
    ensures len { vec_len fields.new ≤ max (vec_len fields.old) (index + 1) }
    ensures capacity { vec_capacity fields.new ≡ vec_capacity fields.old }
{
    if index >= fields.len() {
        if is_zero(&value) {
            return value;
        }
        fill_to(fields, index + 1);
    }
    mem::replace(&mut fields[index][place], value)
}
