//! What no script can show of a line, of a name and of a refusal. The helper functions have no contracts, so that the
//! proofs of the tests stay short. For the rest, `tests/corpus/what-lines-ask-for.sgb` has lines of each command, and
//! `lines-that-ask-for-nothing.sgb` lines that are refused.

use sgb_graph::{Util, VertexNo};
use sgb_script::{Edit, Line, Maker, Name, ShellRefusal, Single, parse};
use std::alloc::{AllocError, Global};
use std::test::Fail;

fn read(alloc: Global, line: &[u8]) -> Result<Line, ShellRefusal> {
    parse(alloc, line)
}

// What a line is: nothing, the command that draws a number, or refused.
fn kind_of(alloc: Global, line: &[u8]) -> &'static str {
    match &read(alloc, line) {
        Ok(Line::Nothing) => "nothing",
        Ok(Line::Change(Single::Next)) => "next",
        Err(ShellRefusal::ScriptSyntax) => "refused",
        _ => "another",
    }
}

// What the line of these bytes is, padded with spaces to this many bytes.
fn padded_kind(alloc: Global, bytes: &[u8], count: usize) -> Result<&'static str, AllocError> {
    let mut line = Vec::from_slice(alloc, bytes)?;
    for _ in bytes.len()..count {
        line.push(b' ')?;
    }
    Ok(kind_of(alloc, &line))
}

#[test]
fn long_lines(rt: HostRuntime) -> Result<(), Fail> {
    assert!(rt; padded_kind(rt.alloc(), b"next", 8192)? == "next");
    assert!(rt; padded_kind(rt.alloc(), b"next", 8193)? == "refused");
    assert!(rt; padded_kind(rt.alloc(), b"#", 8192)? == "nothing");
    assert!(rt; padded_kind(rt.alloc(), b"#", 8193)? == "refused");
    assert!(rt; padded_kind(rt.alloc(), b"", 8192)? == "nothing");
    assert!(rt; padded_kind(rt.alloc(), b"", 8193)? == "refused");
    Ok(())
}

// The number of a line that seeds the generator or draws a uniform number.
fn number_of(alloc: Global, line: &[u8]) -> Option<i64> {
    match &read(alloc, line) {
        Ok(Line::Change(Single::Seed(seed))) => Some(*seed),
        Ok(Line::Change(Single::Unif(bound))) => Some(*bound),
        _ => None,
    }
}

#[test]
fn numbers(rt: HostRuntime) {
    let alloc = rt.alloc();
    assert!(rt; number_of(alloc, b"seed 007") == Some(7));
    assert!(rt; number_of(alloc, b"seed -0") == Some(0));
    assert!(rt; number_of(alloc, b"  seed  -0007 ") == Some(-7));
    assert!(rt; number_of(alloc, b"seed -9223372036854775808") == Some(i64::MIN));
    assert!(rt; number_of(alloc, b"  seed   9223372036854775807 ") == Some(i64::MAX));
    assert!(rt; number_of(alloc, b"unif -2") == Some(-2));
    assert!(rt; number_of(alloc, b"unif 6") == Some(6));
}

// The numbers of a maker, if it has six. A count of vertices or a kind of product is repeated six times.
fn numbers_of(maker: &Maker) -> Option<[i64; 6]> {
    match maker {
        Maker::Empty(n) => Some([*n; 6]),
        Maker::Board(spec) => Some([spec.n1, spec.n2, spec.n3, spec.n4, spec.piece, spec.wrap]),
        Maker::Simplex(spec) => Some([spec.n, spec.n0, spec.n1, spec.n2, spec.n3, spec.n4]),
        Maker::Subsets(spec) => Some([spec.n, spec.n0, spec.n1, spec.n2, spec.n3, spec.n4]),
        Maker::Product(_, _, spec) => Some([spec.kind; 6]),
        _ => None,
    }
}

// The numbers of the graph that a line makes.
fn made(alloc: Global, line: &[u8]) -> Option<[i64; 6]> {
    match &read(alloc, line) {
        Ok(Line::Change(Single::Make(_, maker))) => numbers_of(maker),
        _ => None,
    }
}

// A script shows these numbers only in the id of the graph, or not at all.
#[test]
fn numbers_of_graphs(rt: HostRuntime) {
    let alloc = rt.alloc();
    assert!(rt; made(alloc, b"graph g -5") == Some([-5; 6]));
    assert!(rt; made(alloc, b"board g 8 9 0 -1 5 3 0") == Some([8, 9, 0, -1, 5, 3]));
    assert!(rt; made(alloc, b"simplex g 3 4 5 6 7 -8 1") == Some([3, 4, 5, 6, 7, -8]));
    let subsets = made(alloc, b"subsets g 2 1 3 4 0 -5 18446744073709551615 0");
    assert!(rt; subsets == Some([2, 1, 3, 4, 0, -5]));
    assert!(rt; made(alloc, b"product g h i 3 1") == Some([3; 6]));
}

// The vertices of the arc of length 0 that a line adds.
fn arc_of(alloc: Global, line: &[u8]) -> Option<(VertexNo, VertexNo)> {
    match &read(alloc, line) {
        Ok(Line::Change(Single::Edit(_, Edit::Arc(from, to, 0)))) => Some((*from, *to)),
        _ => None,
    }
}

// The length of the text that a line sets as an id or as a field.
fn text_len(alloc: Global, line: &[u8]) -> Option<usize> {
    match &read(alloc, line) {
        Ok(Line::Change(Single::Edit(_, Edit::Id(text)))) => Some(text.bytes().len()),
        Ok(Line::Change(Single::Edit(_, Edit::Set(_, Util::Text(text))))) => {
            Some(text.bytes().len())
        }
        _ => None,
    }
}

// The length of the id that a line with an id of this many bytes sets.
fn id_len(alloc: Global, count: usize) -> Result<Option<usize>, AllocError> {
    let text = vec![in alloc; b'a'; count]?;
    let mut line = Vec::from_slice(alloc, b"id g \"")?;
    line.extend_from_slice(&text)?;
    line.push(b'"')?;
    Ok(text_len(alloc, &line))
}

#[test]
fn edits(rt: HostRuntime) -> Result<(), Fail> {
    let none = VertexNo(u32::MAX);
    assert!(rt; arc_of(rt.alloc(), b"arc g -1 4294967296 0") == Some((none, none)));
    assert!(rt; text_len(rt.alloc(), b"set g V0 u \"\"") == Some(0));
    assert!(rt; id_len(rt.alloc(), 4095)? == Some(4095));
    assert!(rt; id_len(rt.alloc(), 4096)?.is_none());
    Ok(())
}

fn is_name(bytes: &[u8]) -> bool {
    Name::new(bytes).is_some()
}

fn are_one_name(bytes: &[u8], others: &[u8]) -> bool {
    Name::new(bytes) == Name::new(others)
}

// Whether these bytes are a name, and the name has these bytes.
fn has_its_bytes(bytes: &[u8]) -> bool {
    match Name::new(bytes) {
        Some(name) => name.bytes() == bytes,
        None => false,
    }
}

#[test]
fn names(rt: HostRuntime) {
    assert!(rt; !is_name(b""));
    assert!(rt; is_name(&[b'n'; 32]));
    assert!(rt; !is_name(&[b'n'; 33]));
    assert!(rt; are_one_name(b"ab", b"ab"));
    assert!(rt; !are_one_name(b"ab", b"a"));
    assert!(rt; !are_one_name(b"ab", b"aB"));
    assert!(rt; has_its_bytes(b"graph_7"));
}

// Whether the refusal has this number and this text, and prints the text.
fn has_text(alloc: Global, refusal: ShellRefusal, number: u8, text: &str) -> Result<bool, Fail> {
    let printed = format!(in alloc; "{refusal}")?;
    Ok(printed.as_str() == text && refusal.text() == text && refusal.number() == number)
}

// The first text that its refusal does not have.
fn first_without_text(alloc: Global) -> Result<Option<&'static str>, Fail> {
    for (refusal, number, text) in [
        (ShellRefusal::NoRoom, 1, "no room"),
        (ShellRefusal::CheckWrong, 11, "check number is wrong"),
        (ShellRefusal::Syntax, 20, "bad saved graph"),
        (ShellRefusal::BadSpecs, 30, "bad specification"),
        (ShellRefusal::LengthRange, 31, "length range too wide"),
        (ShellRefusal::TooLarge, 40, "too large"),
        (ShellRefusal::NoGraph, 50, "no such graph"),
        (ShellRefusal::BadOperand, 60, "bad operand"),
        (ShellRefusal::ScriptSyntax, 100, "bad command"),
        (ShellRefusal::TableFull, 101, "table is full"),
        (ShellRefusal::NameTaken, 102, "name is taken"),
        (ShellRefusal::NothingToUndo, 103, "nothing to undo"),
        (ShellRefusal::NothingToRedo, 104, "nothing to redo"),
        (ShellRefusal::JournalFull, 105, "journal is full"),
        (ShellRefusal::Stuck, 106, "stuck"),
    ] {
        if !has_text(alloc, refusal, number, text)? {
            return Ok(Some(text));
        }
    }
    Ok(None)
}

#[test]
fn refusals_print_their_text(rt: HostRuntime) -> Result<(), Fail> {
    assert_eq!(rt; first_without_text(rt.alloc())?, None);
    Ok(())
}
