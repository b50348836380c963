//! Rotations of trees by the codes of their names, where a code has room for a name.
ghost use Rattle.std.specs.Prelude.{◌≡◌, ◌<◌, ◌≤◌, length, map, take, IfOk, IfErr, IfSome};
ghost use Rattle.std.specs.List.{flat_map};
ghost use Rattle.std.specs.Option.{option_to_list};
ghost use Rattle.sgb_graph.specs.Builder.{Inserts};
ghost use Rattle.sgb_graph.specs.Graph.{n_of};
ghost use Rattle.sgb_binary.specs.Private.Names.{bytes_of};
ghost use Rattle.sgb_binary.specs.Rotation.{tree_fronts, turned_at, rotations, rotations_from};
ghost use Rattle.sgb_binary.specs.Private.Code.{leaf, code_of, codes_of, number_among, AreNames};

use indexmap::IndexSet;
use sgb_graph::{Builder, Refusal, VertexNo};
use std::alloc::Global;

/// Inserts from each tree in order to each that it turns into.
pub(crate) fn insert_by_code(
    builder: &mut Builder,
    alloc: Global,
    names: &[&[u8]],
) -> Result<(), Refusal>
    requires vertices { n_of builder.old.graph ≡ length names.now }
    requires few { length names.now ≤ 65535 }
    requires names { AreNames (map bytes_of names.now) }
    ensures { Inserts builder.old builder.new (rotations (map bytes_of names.now)) result }
{
    let codes = index_codes(alloc, names)?;
    for v in 0..names.len() {
        insert_from_code(builder, names, v as u32, &codes)?;
    }
    Ok(())
}

// The codes of the names, each at its name's number.
fn index_codes(alloc: Global, names: &[&[u8]]) -> Result<IndexSet<u64>, Refusal>
    requires { AreNames (map bytes_of names.now) }
    ensures keys { IfOk result (λ codes. codes.keys ≡ codes_of (map bytes_of names.now)) }
    ensures err { IfErr result (λ e. e ≡ Refusal.NoRoom) }
{
    let mut codes = IndexSet::with_capacity(alloc, names.len())?;
    for name in names {
        codes.insert(code_of(name))?;
    }
    Ok(codes)
}

// A number of the word: its letters are digits, a letter `x` 1 and a dot 0, the first the lowest.
fn code_of(word: &[u8]) -> u64
    requires { length word.now < 64 }
    ensures { result ≡ code_of word.now }
{
    let mut code: u64 = 0;
    for place in (0..word.len()).rev() {
        code = 2 * code + leaf(word[place]);
    }
    code
}

#[inline]
fn leaf(letter: u8) -> u64
    ensures { result ≡ leaf letter }
{
    if letter == b'.' { 0 } else { 1 }
}

// Inserts from the vertex with this number to each that it turns into.
fn insert_from_code(
    builder: &mut Builder,
    names: &[&[u8]],
    v: u32,
    codes: &IndexSet<u64>,
) -> Result<(), Refusal>
    requires vertices { n_of builder.old.graph ≡ length names.now }
    requires few { length names.now ≤ 65535 }
    requires names { AreNames (map bytes_of names.now) }
    requires codes { codes.now.keys ≡ codes_of (map bytes_of names.now) }
    requires vertex { v < length names.now }
    ensures { Inserts builder.old builder.new (rotations_from (map bytes_of names.now) v) result }
{
    let word = names[v as usize];
    let code = code_of(word);
    for place in 0..word.len() {
        if let Some(target) = find_code(codes, word, code, place) {
            builder.insert(VertexNo(v), VertexNo(target as u32), 1)?;
        }
    }
    Ok(())
}

// The number of what the word, which has this code, turns into at this place.
fn find_code(codes: &IndexSet<u64>, word: &[u8], code: u64, place: usize) -> Option<usize>
    requires short { length word.now < 64 }
    requires code { code ≡ code_of word.now }
    requires place { place < length word.now }
    ensures value { option_to_list result
        ≡ flat_map (number_among codes.now.keys) (codes_of (turned_at word.now place)) }
    ensures within { IfSome result (λ target. target < length codes.now.keys) }
{
    let turned = turned_code(word, code, place)?;
    codes.get_index_of(&turned)
}

// The code of what the word, which has this code, turns into at this place: the letters of a tree go one place to the left,
// behind which the dot then stands, so that their digits are worth half as much.
fn turned_code(word: &[u8], code: u64, place: usize) -> Option<u64>
    requires short { length word.now < 64 }
    requires code { code ≡ code_of word.now }
    requires place { place < length word.now }
    ensures { option_to_list result ≡ codes_of (turned_at word.now place) }
{
    if !word[place..].starts_with(b"..") {
        return None;
    }
    let tree = first_code(&word[place + 2..])?;
    Some(code - (tree << (place + 1)))
}

// The code of the first tree of the word.
fn first_code(word: &[u8]) -> Option<u64>
    requires { length word.now < 64 }
    ensures { option_to_list result ≡ map (λ k. code_of (take k word.now)) (tree_fronts word.now) }
{
    let mut needed: usize = 1;
    let mut code: u64 = 0;
    let mut worth: u64 = 1;
    for letter in word {
        if *letter == b'.' {
            needed += 1;
        } else {
            needed -= 1;
            code += worth;
        }
        if needed == 0 {
            return Some(code);
        }
        worth *= 2;
    }
    None
}
