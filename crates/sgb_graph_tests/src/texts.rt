//! Texts, letters and refusals.

use crate::edits::{letters, text};
use sgb_graph::{ArcField, GraphField, Label, Refusal, Text, Types, Util, VertexField, VertexNo};
use std::alloc::Global;
use std::mem::size_of;
use std::test::Fail;

// How long the text of these bytes is.
fn text_len(alloc: Global, bytes: &[u8]) -> Result<usize, Refusal> {
    Ok(text(alloc, bytes)?.bytes().len())
}

// How long the text of so many letters is.
fn letters_len(alloc: Global, count: usize) -> Result<usize, Refusal> {
    Ok(letters(alloc, count)?.bytes().len())
}

#[test]
fn texts_have_a_limit(rt: HostRuntime) -> Result<(), Fail> {
    assert!(rt; letters_len(rt.alloc(), 4095)? == 4095);
    assert!(rt; letters_len(rt.alloc(), 4096) == Err(Refusal::BadOperand));
    assert!(rt; text_len(rt.alloc(), b"")? == 0);
    Ok(())
}

#[test]
fn texts_are_plain(rt: HostRuntime) -> Result<(), Fail> {
    assert!(rt; are_plain(rt.alloc())?);
    Ok(())
}

fn are_plain(alloc: Global) -> Result<bool, Refusal> {
    Ok(
        text_len(alloc, b"a\"b") == Err(Refusal::BadOperand)
            && text_len(alloc, b"a\\b") == Err(Refusal::BadOperand)
            && text_len(alloc, b"a\x1fb") == Err(Refusal::BadOperand)
            && text_len(alloc, b"a\x7fb") == Err(Refusal::BadOperand)
            && text_len(alloc, b" ~'")? == 3,
    )
}

#[test]
fn letters_are_fourteen(rt: HostRuntime) {
    assert!(rt; Types::new(b"ZIVSAZIVSAZIVS").is_some());
    assert!(rt; Types::new(b"ZIVSAZIVSAZIVG").is_none());
    assert!(rt; Types::new(b"ZIVSAZIVSAZIV").is_none());
}

// Whether the label of a text of these bytes has them.
fn label_has(alloc: Global, bytes: &[u8]) -> Result<bool, Refusal> {
    Ok(Label::new(text(alloc, bytes)?).bytes() == bytes)
}

#[test]
fn labels_have_the_bytes_of_their_texts(rt: HostRuntime) -> Result<(), Fail> {
    assert!(rt; Label::empty().bytes().is_empty());
    assert!(rt; label_has(rt.alloc(), b"a name")?);
    Ok(())
}

// What a refusal prints.
fn prints_its_text(alloc: Global, refusal: Refusal) -> Result<bool, Fail> {
    let printed = format!(in alloc; "{refusal}")?;
    Ok(printed.as_str() == refusal.text())
}

#[test]
fn refusals_print_their_text(rt: HostRuntime) -> Result<(), Fail> {
    for (refusal, number) in [
        (Refusal::NoRoom, 1),
        (Refusal::CheckWrong, 11),
        (Refusal::Syntax, 20),
        (Refusal::BadSpecs, 30),
        (Refusal::LengthRange, 31),
        (Refusal::TooLarge, 40),
        (Refusal::BadOperand, 60),
        (Refusal::Stuck, 106),
    ] {
        assert!(rt; prints_its_text(rt.alloc(), refusal)?);
        assert!(rt; refusal.number() == number);
    }
    Ok(())
}

#[test]
fn fields_have_their_places(rt: HostRuntime) {
    assert!(rt; VertexField::Z.place() == 5);
    assert!(rt; ArcField::B.place() == 1);
    assert!(rt; GraphField::Uu.place() == 0);
}

#[test]
fn texts_and_values_are_small(rt: HostRuntime) {
    assert!(rt; size_of::<Text>() == 8);
    assert!(rt; size_of::<Util>() == 16);
}

fn are_same(alloc: Global, bytes: &[u8], others: &[u8]) -> Result<bool, Refusal> {
    let first = text(alloc, bytes)?;
    let second = text(alloc, others)?;
    Ok(first == second && !(first != second))
}

fn is_empty_label(alloc: Global, bytes: &[u8]) -> Result<bool, Refusal> {
    Ok(Label::new(text(alloc, bytes)?) == Label::empty())
}

fn allows_a_vertex(letter: u8) -> bool {
    Util::Vertex(VertexNo(1)).is_allowed(letter)
}

#[test]
fn texts_are_compared_by_their_bytes(rt: HostRuntime) -> Result<(), Fail> {
    assert!(rt; are_compared(rt.alloc())?);
    assert!(rt; allows_a_vertex(b'V') && !allows_a_vertex(b'A'));
    Ok(())
}

fn are_compared(alloc: Global) -> Result<bool, Refusal> {
    Ok(are_same(alloc, b"a", b"a")? && !are_same(alloc, b"a", b"b")? && is_empty_label(alloc, b"")?)
}
