//! Ids: a word, and behind it in parentheses the parts, separated by commas.
ghost use Rattle.std.specs.Prelude.{◌≡◌, ◌<◌, ◌≤◌, ◌+◌, ◌/◌, ◌^◌, ◌++◌, if◌then◌else◌, nat_le, length, map, codes, IfOk, IfErr, OnOk, IsTrue};
ghost use Rattle.std.specs.List.{list_all, join_with_byte};
ghost use Rattle.sgb_graph.specs.Text.{IsText, is_text_byte};
ghost use Rattle.sgb_plan.specs.Id.{id_of, id_of_one, id_of_two, behind_commas, part_text, shortened, widest_id, widest_parts};
ghost use Rattle.sgb_plan.specs.Private.Bytes.{IsShort};

use crate::Part;
use crate::append::append_part;
use crate::text::text_of;
use sgb_graph::{Refusal, Text};
use std::alloc::{AllocError, Global};

/// The id of a word and its parts, as `board(3,4,0,0,-1,0,0)`.
pub fn id_of(alloc: Global, word: &str, parts: &[Part<'_>]) -> Result<Text, Refusal>
    requires text { IsTrue (list_all is_text_byte word.now) }
    requires narrow { widest_id word.now parts.now ≤ 160 }
    ensures value { IfOk result (λ id. id ≡ id_of word.now (map part_text parts.now)) }
    ensures short { IfOk result (λ id. length id ≤ 160) }
    ensures err { IfErr result (λ e. e ≡ Refusal.NoRoom) }
{
    let mut bytes = begin_id(alloc, word)?;
    append_parts(&mut bytes, parts)?;
    bytes.push(b')')?;
    text_of(alloc, &bytes)
}

/// The id of a word, the id of a graph and further parts, as `complement(g,0,0,0)`. The graph's id is cut to the room
/// that the others leave of 160 bytes: a longer one keeps all but the last four of these bytes, and then `...)`.
pub fn id_of_one(
    alloc: Global,
    word: &str,
    graph: &[u8],
    parts: &[Part<'_>],
) -> Result<Text, Refusal>
    requires text { IsTrue (list_all is_text_byte word.now) }
    requires graph { IsText graph.now }
    requires narrow { widest_id word.now parts.now ≤ 150 }
    ensures value { IfOk result (λ id. id ≡ id_of_one word.now graph.now (map part_text parts.now)) }
    ensures short { IfOk result (λ id. length id ≤ 160) }
    ensures err { IfErr result (λ e. e ≡ Refusal.NoRoom) }
{
    let end = end_of_id(alloc, parts)?;
    let room = 160 - (word.len() + 1 + end.len());
    let mut bytes = begin_id(alloc, word)?;
    append_shortened(&mut bytes, room, graph)?;
    bytes.extend_from_slice(&end)?;
    text_of(alloc, &bytes)
}

/// The id of a word, the ids of two graphs and further parts, as `gunion(g,h,0,0)`. Where the others leave no room for
/// both graphs' ids of 160 bytes, each that is longer than half of that room is cut to this half: it keeps all but the
/// last four of these bytes, and then `...)`.
pub fn id_of_two(
    alloc: Global,
    word: &str,
    first: &[u8],
    second: &[u8],
    parts: &[Part<'_>],
) -> Result<Text, Refusal>
    requires text { IsTrue (list_all is_text_byte word.now) }
    requires first { IsText first.now }
    requires second { IsText second.now }
    requires narrow { widest_id word.now parts.now ≤ 150 }
    ensures value { IfOk result (λ id. id ≡ id_of_two word.now first.now second.now (map part_text parts.now)) }
    ensures short { IfOk result (λ id. length id ≤ 160) }
    ensures err { IfErr result (λ e. e ≡ Refusal.NoRoom) }
{
    let end = end_of_id(alloc, parts)?;
    let room = 160 - (word.len() + 2 + end.len());
    let most = most_of_two(room, first.len(), second.len());
    let mut bytes = begin_id(alloc, word)?;
    append_shortened(&mut bytes, most, first)?;
    bytes.push(b',')?;
    append_shortened(&mut bytes, most, second)?;
    bytes.extend_from_slice(&end)?;
    text_of(alloc, &bytes)
}

// The word and a parenthesis.
fn begin_id(alloc: Global, word: &str) -> Result<Vec<u8>, AllocError>
    ensures { IfOk result (λ bytes. bytes.items ≡ word.now ++ codes "(") }
{
    let mut bytes = Vec::from_slice(alloc, word.as_bytes())?;
    bytes.push(b'(')?;
    Ok(bytes)
}

// How long each of two ids may be, where they have this room together.
fn most_of_two(room: usize, first: usize, second: usize) -> usize
    requires { first + second < 2 ^ 64 }
    ensures { result ≡ (if nat_le (first + second) room then room else room / 2) }
{
    if first + second <= room {
        room
    } else {
        room / 2
    }
}

// What stands in an id behind a first part: each part behind a comma, and a parenthesis.
fn end_of_id(alloc: Global, parts: &[Part<'_>]) -> Result<Vec<u8>, AllocError>
    ensures value { IfOk result (λ end. end.items ≡ behind_commas (map part_text parts.now) ++ codes ")") }
    ensures short { IfOk result (λ end. IsShort (widest_parts parts.now + 1) end.items) }
{
    let mut end = Vec::new(alloc);
    append_behind_commas(&mut end, parts)?;
    end.push(b')')?;
    Ok(end)
}

// Writes the parts, separated by commas.
fn append_parts(bytes: &mut Vec<u8>, parts: &[Part<'_>]) -> Result<(), AllocError>
    ensures ok { OnOk result (bytes.new.items ≡ bytes.old.items ++ join_with_byte 44 (map part_text parts.now)) }
    ensures short { OnOk result (IsShort (widest_parts parts.now) (join_with_byte 44 (map part_text parts.now))) }
{
    let Some((first, rest)) = parts.split_first() else {
        return Ok(());
    };
    append_part(bytes, first)?;
    append_behind_commas(bytes, rest)
}

// Writes each part behind a comma.
fn append_behind_commas(bytes: &mut Vec<u8>, parts: &[Part<'_>]) -> Result<(), AllocError>
    ensures ok { OnOk result (bytes.new.items ≡ bytes.old.items ++ behind_commas (map part_text parts.now)) }
    ensures short { OnOk result (IsShort (widest_parts parts.now) (behind_commas (map part_text parts.now))) }
{
    for part in parts {
        bytes.push(b',')?;
        append_part(bytes, part)?;
    }
    Ok(())
}

// Writes the text, or where it has more than `most` bytes, all but four of these, and `...)`.
fn append_shortened(bytes: &mut Vec<u8>, most: usize, text: &[u8]) -> Result<(), AllocError>
    requires { 4 ≤ most }
    ensures { OnOk result (bytes.new.items ≡ bytes.old.items ++ shortened most text.now) }
{
    if text.len() <= most {
        return bytes.extend_from_slice(text);
    }
    bytes.extend_from_slice(&text[..most - 4])?;
    bytes.extend_from_slice(b"...)")
}
