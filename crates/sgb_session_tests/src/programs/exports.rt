//! Saved texts in the text forms of other tools.

use crate::fake::Room;
use crate::programs::texts::{EDGE, LARGE, WRONG};
use sgb_export::Format;
use sgb_graph::Refusal;
use sgb_print::{MeteredWriter, RunFault};
use sgb_programs::{export_text, export_text_metered};
use sgb_text::CheckRule;
use std::alloc::Global;
use std::test::Fail;

// An arc to no vertex, under a check number that is not compared.
const ASTRAY: &str = "* GraphBase graph (util_types ZZZZZZZZZZZZZZ,1V,1A)
\"gb_new_graph(1)\",1,1
* Vertices
\"\",A0
* Arcs
0,0,5
* Checksum -1
";

const DOT: &str = "graph \"gb_new_graph(2)\" {
  0 [label=\"\"];
  1 [label=\"\"];
  0 -- 1 [label=\"5\"];
}
";

const DIMACS: &str = "c gb_new_graph(2)
p sp 2 2
a 1 2 5
a 2 1 5
";

const EDGES: &str = "# graph 2 1
# id \"gb_new_graph(2)\"
0 1 5
";

const GRAPHML: &str = "<?xml version=\"1.0\" encoding=\"UTF-8\"?>
<graphml xmlns=\"http://graphml.graphdrawing.org/xmlns\">
  <key id=\"id\" for=\"graph\" attr.name=\"id\" attr.type=\"string\"/>
  <key id=\"name\" for=\"node\" attr.name=\"name\" attr.type=\"string\"/>
  <key id=\"len\" for=\"edge\" attr.name=\"len\" attr.type=\"long\"/>
  <graph id=\"G\" edgedefault=\"undirected\">
    <data key=\"id\">gb_new_graph(2)</data>
    <node id=\"v0\"><data key=\"name\"></data></node>
    <node id=\"v1\"><data key=\"name\"></data></node>
    <edge id=\"e0\" source=\"v0\" target=\"v1\"><data key=\"len\">5</data></edge>
  </graph>
</graphml>
";

// Texts that are exported under these rules, and what is written.
static TEXTS: [(&str, CheckRule, Format, &str); 5] = [
    (EDGE, CheckRule::Match, Format::Dot, DOT),
    (EDGE, CheckRule::Any, Format::Dimacs, DIMACS),
    (EDGE, CheckRule::Match, Format::Edges, EDGES),
    (WRONG, CheckRule::Any, Format::Edges, EDGES),
    (EDGE, CheckRule::Match, Format::Graphml, GRAPHML),
];

// Texts that are refused under these rules. What is wrong with the text itself is told first.
static REFUSED: [(&str, CheckRule, Format, Refusal); 7] = [
    ("", CheckRule::Match, Format::Dot, Refusal::Syntax),
    ("", CheckRule::Any, Format::NamedEdges, Refusal::Syntax),
    (LARGE, CheckRule::Any, Format::Dot, Refusal::TooLarge),
    (
        WRONG,
        CheckRule::Match,
        Format::NamedEdges,
        Refusal::CheckWrong,
    ),
    (
        WRONG,
        CheckRule::Any,
        Format::NamedEdges,
        Refusal::BadOperand,
    ),
    (ASTRAY, CheckRule::Match, Format::Dot, Refusal::BadOperand),
    (ASTRAY, CheckRule::Any, Format::Dimacs, Refusal::BadOperand),
];

// What came of a text, and what was written of it.
fn exported(
    alloc: Global,
    text: &str,
    rule: CheckRule,
    format: Format,
) -> Result<(Result<(), Refusal>, Vec<u8>), Fail> {
    let finished = export_text(alloc, text.as_bytes(), rule, format, Vec::new(alloc));
    let answer = finished.end?;
    Ok((answer, finished.writer.into_inner()))
}

fn is_exported(
    alloc: Global,
    text: &str,
    rule: CheckRule,
    format: Format,
    wanted: &str,
) -> Result<bool, Fail> {
    let (answer, written) = exported(alloc, text, rule, format)?;
    Ok(answer.is_ok() && written.as_slice() == wanted.as_bytes())
}

fn is_refused(
    alloc: Global,
    text: &str,
    rule: CheckRule,
    format: Format,
    refusal: Refusal,
) -> Result<bool, Fail> {
    let (answer, written) = exported(alloc, text, rule, format)?;
    Ok(answer == Err(refusal) && written.is_empty())
}

#[test]
fn texts_are_exported(rt: HostRuntime) -> Result<(), Fail> {
    for (text, rule, format, wanted) in &TEXTS {
        assert!(rt;
            is_exported(rt.alloc(), text, *rule, *format, wanted)?,
            "{wanted}"
        );
    }
    Ok(())
}

#[test]
fn what_is_refused(rt: HostRuntime) -> Result<(), Fail> {
    for (text, rule, format, refusal) in &REFUSED {
        assert!(rt;
            is_refused(rt.alloc(), text, *rule, *format, *refusal)?,
            "{text}: {refusal}"
        );
    }
    Ok(())
}

// What is written behind other bytes, to a lent writer.
fn appended(alloc: Global, front: &[u8]) -> Result<Vec<u8>, Fail> {
    let mut kept = Vec::new(alloc);
    kept.extend_from_slice(front)?;
    let mut writer = MeteredWriter::new(kept);
    let text = EDGE.as_bytes();
    match export_text_metered(alloc, text, CheckRule::Match, Format::Edges, &mut writer)? {
        Ok(()) => Ok(writer.into_inner()),
        Err(_) => Ok(Vec::new(alloc)),
    }
}

#[test]
fn a_lent_writer_keeps_what_it_has(rt: HostRuntime) -> Result<(), Fail> {
    let text = appended(rt.alloc(), b"before\n")?;
    let wanted = b"before\n# graph 2 1\n# id \"gb_new_graph(2)\"\n0 1 5\n";
    assert!(rt; text.as_slice() == wanted.as_slice());
    Ok(())
}

// What a writer with so much room keeps of an edge, where it fails.
fn front_of(alloc: Global, format: Format, room: usize) -> Option<Vec<u8>> {
    let writer = Room {
        kept: Vec::new(alloc),
        room,
        step: 5,
    };
    let finished = export_text(alloc, EDGE.as_bytes(), CheckRule::Match, format, writer);
    match finished.end {
        Err(RunFault::Write) => Some(finished.writer.into_inner().kept),
        _ => None,
    }
}

// Whether the writer that fails keeps this front.
fn fails_after(alloc: Global, format: Format, front: &[u8]) -> bool {
    match front_of(alloc, format, front.len()) {
        Some(kept) => kept.as_slice() == front,
        None => false,
    }
}

#[test]
fn failed_writes_are_told(rt: HostRuntime) {
    for (format, wanted) in [(Format::Dot, DOT), (Format::Dimacs, DIMACS)] {
        for room in 0..wanted.len() {
            assert!(rt;
                fails_after(rt.alloc(), format, &wanted.as_bytes()[..room]),
                "room for {room}"
            );
        }
    }
}
