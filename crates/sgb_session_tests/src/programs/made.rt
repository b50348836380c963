//! Graphs that are made by words, as another implementation saves them.

use crate::fake::Room;
use crate::programs::texts::{EDGE, WRONG};
use sgb_graph::Items;
use sgb_print::RunFault;
use sgb_programs::{Operands, make};
use sgb_script::ShellRefusal;
use sgb_text::CheckRule;
use std::alloc::Global;
use std::test::Fail;

const VERTEX: &str = "* GraphBase graph (util_types ZZZZZZZZZZZZZZ,1V,0A)
\"gb_new_graph(1)\",1,0
* Vertices
\"\",0
* Arcs
* Checksum 607769883
";

type Made = Result<Vec<u8>, ShellRefusal>;

// What is written of these words, or why they are refused.
fn made(alloc: Global, command: &str, words: &[&[u8]]) -> Result<Made, Fail> {
    made_of(alloc, CheckRule::Match, Operands::Absent, command, words)
}

fn made_of(
    alloc: Global,
    rule: CheckRule,
    operands: Operands,
    command: &str,
    words: &[&[u8]],
) -> Result<Made, Fail> {
    let finished = make(
        alloc,
        rule,
        operands,
        command.as_bytes(),
        words,
        Vec::new(alloc),
    );
    let answer = finished.end?;
    let written = finished.writer.into_inner();
    Ok(match answer {
        Ok(()) => Ok(written),
        Err(refusal) => Err(refusal),
    })
}

fn is_refused(
    alloc: Global,
    command: &str,
    words: &[&[u8]],
    refusal: ShellRefusal,
) -> Result<bool, Fail> {
    match made(alloc, command, words)? {
        Ok(_) => Ok(false),
        Err(met) => Ok(met == refusal),
    }
}

#[test]
fn a_graph_is_made(rt: HostRuntime) -> Result<(), Fail> {
    for words in [[b"1".as_slice()].as_slice(), [b" 1 ".as_slice()].as_slice()] {
        match made(rt.alloc(), "graph", words)? {
            Ok(text) => assert!(rt; text.as_slice() == VERTEX.as_bytes()),
            Err(refusal) => assert!(rt; false, "{refusal}"),
        }
    }
    Ok(())
}

#[test]
fn what_is_refused(rt: HostRuntime) -> Result<(), Fail> {
    let alloc = rt.alloc();
    assert!(rt; is_refused(alloc, "graph", &[], ShellRefusal::ScriptSyntax)?);
    assert!(rt; is_refused(alloc, "graph", &[b"1", b"1"], ShellRefusal::ScriptSyntax)?);
    assert!(rt; is_refused(alloc, "graph", &[b"-1"], ShellRefusal::BadSpecs)?);
    assert!(rt; is_refused(alloc, "graph", &[b"65536"], ShellRefusal::TooLarge)?);
    assert!(rt; is_refused(alloc, "next", &[], ShellRefusal::ScriptSyntax)?);
    assert!(rt; is_refused(alloc, "drop", &[], ShellRefusal::NoGraph)?);
    assert!(rt; is_refused(alloc, "show", &[], ShellRefusal::ScriptSyntax)?);
    assert!(rt; is_refused(alloc, "seed 1 #", &[], ShellRefusal::ScriptSyntax)?);
    assert!(rt;
        is_refused(
            alloc,
            "intersection",
            &[b"g", b"g", b"0"],
            ShellRefusal::NoGraph
        )?
    );
    Ok(())
}

fn saved(alloc: Global, text: &str) -> Result<Items<u8>, Fail> {
    let mut bytes = Vec::new(alloc);
    bytes.extend_from_slice(text.as_bytes())?;
    Ok(Items::from_vec(bytes))
}

// Whether the graph that is made has this line of its id and counts.
fn is_named(
    alloc: Global,
    operands: Operands,
    command: &str,
    words: &[&[u8]],
    line: &str,
) -> Result<bool, Fail> {
    let Ok(text) = made_of(alloc, CheckRule::Match, operands, command, words)? else {
        return Ok(false);
    };
    let mut lines = text.split(|byte| *byte == b'\n');
    Ok(lines.nth(1) == Some(line.as_bytes()))
}

#[test]
fn a_graph_is_made_of_others(rt: HostRuntime) -> Result<(), Fail> {
    let alloc = rt.alloc();
    let one = Operands::One(saved(alloc, EDGE)?);
    let line = "\"complement(gb_new_graph(2),1,0,0)\",2,2";
    assert!(rt; is_named(alloc, one, "complement", &[b"1", b"0 0"], line)?);
    let two = Operands::Two(saved(alloc, VERTEX)?, saved(alloc, EDGE)?);
    let line = "\"product(gb_new_graph(1),gb_new_graph(2),0,0)\",2,2";
    assert!(rt; is_named(alloc, two, "product", &[b"0", b"0"], line)?);
    let described = Operands::Described(saved(alloc, VERTEX)?, saved(alloc, "a D")?);
    let line = "\"induced(gb_new_graph(1),a D,0,0,0)\",0,0";
    assert!(rt; is_named(alloc, described, "induced", &[b"0", b"0", b"0"], line)?);
    let changed = Operands::Changed(saved(alloc, EDGE)?);
    let line = "\"random_lengths(gb_new_graph(2),0,7,7,0,-)\",2,2";
    assert!(rt; is_named(alloc, changed, "lengths", &[b"0", b"7", b"7", b"-"], line)?);
    Ok(())
}

// Why the union of two texts with these words is refused.
fn refusal(
    alloc: Global,
    rule: CheckRule,
    texts: (&str, &str),
    words: &[&[u8]],
) -> Result<Option<ShellRefusal>, Fail> {
    let operands = Operands::Two(saved(alloc, texts.0)?, saved(alloc, texts.1)?);
    match made_of(alloc, rule, operands, "gunion", words)? {
        Ok(_) => Ok(None),
        Err(refusal) => Ok(Some(refusal)),
    }
}

#[test]
fn the_first_refusal_is_told(rt: HostRuntime) -> Result<(), Fail> {
    let alloc = rt.alloc();
    let cases = [
        (CheckRule::Match, (EDGE, EDGE), None),
        (CheckRule::Any, (WRONG, WRONG), None),
        (
            CheckRule::Match,
            (WRONG, ""),
            Some(ShellRefusal::CheckWrong),
        ),
        (CheckRule::Match, ("", WRONG), Some(ShellRefusal::Syntax)),
        (
            CheckRule::Match,
            (EDGE, WRONG),
            Some(ShellRefusal::CheckWrong),
        ),
    ];
    for (rule, texts, wanted) in cases {
        assert!(rt; refusal(alloc, rule, texts, &[b"0", b"0"])? == wanted);
        let last = wanted.or(Some(ShellRefusal::ScriptSyntax));
        assert!(rt; refusal(alloc, rule, texts, &[b"0"])? == last);
    }
    Ok(())
}

// What a writer with so much room keeps of a vertex, where it fails.
fn front_of(alloc: Global, room: usize) -> Option<Vec<u8>> {
    let writer = Room {
        kept: Vec::new(alloc),
        room,
        step: 5,
    };
    let finished = make(
        alloc,
        CheckRule::Match,
        Operands::Absent,
        b"graph",
        &[b"1"],
        writer,
    );
    match finished.end {
        Err(RunFault::Write) => Some(finished.writer.into_inner().kept),
        _ => None,
    }
}

// Whether the writer that fails keeps this text.
fn fails_after(alloc: Global, text: &[u8]) -> bool {
    match front_of(alloc, text.len()) {
        Some(kept) => kept.as_slice() == text,
        None => false,
    }
}

#[test]
fn failed_writes_are_told(rt: HostRuntime) {
    for room in 0..VERTEX.len() {
        assert!(rt;
            fails_after(rt.alloc(), &VERTEX.as_bytes()[..room]),
            "room for {room}"
        );
    }
}
