//! Rotations of trees, by their names.
ghost use Rattle.std.specs.Prelude.{◌≡◌, ◌<◌, ◌≤◌, ◌+◌, length, map, take, drop, All, IfSome};
ghost use Rattle.std.specs.Option.{option_to_list};
ghost use Rattle.sgb_graph.specs.Builder.{Inserts};
ghost use Rattle.sgb_graph.specs.Graph.{n_of};
ghost use Rattle.sgb_binary.specs.Private.Names.{bytes_of};
ghost use Rattle.sgb_plan.specs.Distinct.{Distinct};
ghost use Rattle.sgb_binary.specs.Private.Code.{IsName};
ghost use Rattle.sgb_binary.specs.Rotation.{tree_fronts, targets, rotations, rotations_of};

use crate::code::insert_by_code;
use crate::index::{index_names, number_of};
use indexmap::IndexSet;
use sgb_graph::{Builder, Refusal, VertexNo};
use std::alloc::Global;

/// Inserts from each tree in order to each that it turns into: by the codes of the names, where a code has room for one.
pub(crate) fn insert_rotations(
    builder: &mut Builder,
    alloc: Global,
    names: &[&[u8]],
    width: usize,
) -> Result<(), Refusal>
    requires vertices { n_of builder.old.graph ≡ length names.now }
    requires few { length names.now ≤ 65535 }
    requires names { All (IsName width) (map bytes_of names.now) }
    requires apart { Distinct (map bytes_of names.now) }
    ensures { Inserts builder.old builder.new (rotations (map bytes_of names.now)) result }
{
    // Room is taken once. A tree with n dots has n - 1 below others; in all trees together as many stand to the left as to
    // the right, since the mirror image of each is among them, and only those to the left are turned.
    let below = (width / 2).saturating_sub(1);
    builder.reserve(names.len().saturating_mul(below) / 2)?;
    if width < 64 {
        return insert_by_code(builder, alloc, names);
    }
    let index = index_names(alloc, names)?;
    insert_by_name(builder, alloc, &index)
}

// The same by the names themselves.
fn insert_by_name(
    builder: &mut Builder,
    alloc: Global,
    index: &IndexSet<&[u8]>,
) -> Result<(), Refusal>
    requires vertices { n_of builder.old.graph ≡ length index.now.keys }
    requires few { length index.now.keys ≤ 65535 }
    ensures { Inserts builder.old builder.new (rotations (map bytes_of index.now.keys)) result }
{
    let mut word = Vec::new(alloc);
    for (v, name) in index.as_slice().iter().enumerate() {
        word.clear();
        word.extend_from_slice(name)?;
        insert_from(builder, index, v as u32, &mut word)?;
    }
    Ok(())
}

// Inserts from the vertex with this name to each that it turns into.
fn insert_from(
    builder: &mut Builder,
    index: &IndexSet<&[u8]>,
    v: u32,
    word: &mut [u8],
) -> Result<(), Refusal>
    requires vertices { n_of builder.old.graph ≡ length index.now.keys }
    requires few { length index.now.keys ≤ 65535 }
    requires vertex { v < length index.now.keys }
    ensures { Inserts builder.old builder.new (rotations_of (map bytes_of index.now.keys) v word.old) result }
{
    for place in 0..word.len() {
        if let Some(target) = find_turned(index, word, place) {
            builder.insert(VertexNo(v), VertexNo(target as u32), 1)?;
        }
    }
    Ok(())
}

// The number of what the word turns into at this place; the word is put back.
fn find_turned(index: &IndexSet<&[u8]>, word: &mut [u8], place: usize) -> Option<usize>
    requires { place < length word.old }
    ensures value { option_to_list result ≡ targets (map bytes_of index.now.keys) word.old place }
    ensures same { word.new ≡ word.old }
    ensures within { IfSome result (λ target. target < length index.now.keys) }
{
    if !word[place..].starts_with(b"..") {
        return None;
    }
    let len = first_tree(&word[place + 2..])?;
    word[place + 1..place + 2 + len].rotate_left(1);
    let found = number_of(index, word);
    word[place + 1..place + 2 + len].rotate_right(1);
    found
}

// How many letters the first tree of the word has.
fn first_tree(word: &[u8]) -> Option<usize>
    ensures value { option_to_list result ≡ tree_fronts word.now }
    ensures within { IfSome result (λ len. len ≤ length word.now) }
{
    let mut needed: usize = 1;
    for (i, letter) in word.iter().enumerate() {
        if *letter == b'.' {
            needed += 1;
        } else {
            needed -= 1;
        }
        if needed == 0 {
            return Some(i + 1);
        }
    }
    None
}
