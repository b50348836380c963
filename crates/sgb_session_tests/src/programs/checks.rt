//! Saved texts, and what is told of them.

use crate::fake::Room;
use crate::programs::texts::{EDGE, LARGE, WRONG};
use sgb_print::RunFault;
use sgb_programs::check;
use sgb_text::CheckRule;
use std::alloc::Global;
use std::test::Fail;

// Two vertices without arcs, whose numbers are holes.
const HOLES: &str = "* GraphBase graph (util_types ZZZZZZZZZZZZZZ,2V,2A)
\"gb_new_graph(2)\",2,0
* Vertices
\"\",0
\"\",0
* Arcs
0,0,0
0,0,0
* Checksum 221745784
";

// An edge without the last line.
const CUT: &str = "* GraphBase graph (util_types ZZZZZZZZZZZZZZ,2V,2A)
\"gb_new_graph(2)\",2,2
* Vertices
\"\",A0
\"\",A1
* Arcs
V1,0,5
V0,0,5
";

// An edge whose first line counts one arc.
const TWO_RECORDS: &str = "* GraphBase graph (util_types ZZZZZZZZZZZZZZ,2V,1A)
\"gb_new_graph(2)\",2,2
* Vertices
\"\",A0
\"\",A1
* Arcs
V1,0,5
V0,0,5
* Checksum -1
";

// An edge whose graph has more vertices than the first line.
const THREE_OF_TWO: &str = "* GraphBase graph (util_types ZZZZZZZZZZZZZZ,2V,2A)
\"gb_new_graph(3)\",3,2
* Vertices
\"\",A0
\"\",A1
* Arcs
V1,0,5
V0,0,5
* Checksum -1
";

// The list of vertex 1 leads into that of vertex 0.
const MEETING: &str = "* GraphBase graph (util_types ZZZZZZZZZZZZZZ,2V,2A)
\"gb_new_graph(2)\",2,2
* Vertices
\"\",A0
\"\",A1
* Arcs
V1,0,5
V0,A0,5
* Checksum -1
";

// Both vertices have the same first arc.
const SHARED: &str = "* GraphBase graph (util_types ZZZZZZZZZZZZZZ,2V,2A)
\"gb_new_graph(2)\",2,2
* Vertices
\"\",A0
\"\",A0
* Arcs
V1,A1,5
V0,0,5
* Checksum -1
";

const NO_GRAPH: &str = "refused 20 bad saved graph\n";

const EDGE_TOLD: &str = "\"gb_new_graph(2)\"
2 vertices, 2 arcs, 2 numbers
";

// Texts, the rule, and what is told of them.
static TEXTS: [(&str, CheckRule, bool, &str); 14] = [
    (EDGE, CheckRule::Match, true, EDGE_TOLD),
    (EDGE, CheckRule::Any, true, EDGE_TOLD),
    (WRONG, CheckRule::Any, true, EDGE_TOLD),
    (
        WRONG,
        CheckRule::Match,
        false,
        "refused 11 check number is wrong\n",
    ),
    (
        HOLES,
        CheckRule::Match,
        true,
        "\"gb_new_graph(2)\"\n2 vertices, 0 arcs, 2 numbers\n",
    ),
    ("", CheckRule::Match, false, NO_GRAPH),
    ("", CheckRule::Any, false, NO_GRAPH),
    (CUT, CheckRule::Match, false, NO_GRAPH),
    (CUT, CheckRule::Any, false, NO_GRAPH),
    (TWO_RECORDS, CheckRule::Any, false, NO_GRAPH),
    (THREE_OF_TWO, CheckRule::Any, false, NO_GRAPH),
    (MEETING, CheckRule::Any, false, NO_GRAPH),
    (SHARED, CheckRule::Any, false, NO_GRAPH),
    (LARGE, CheckRule::Match, false, "refused 40 too large\n"),
];

// What is told of a text, and whether it is accepted.
fn told(alloc: Global, text: &[u8], rule: CheckRule) -> Result<(bool, Vec<u8>), Fail> {
    let finished = check(alloc, text, rule, Vec::new(alloc));
    let good = finished.end?;
    Ok((good, finished.writer.into_inner()))
}

fn is_told(
    alloc: Global,
    text: &str,
    rule: CheckRule,
    good: bool,
    wanted: &str,
) -> Result<bool, Fail> {
    let (met, told) = told(alloc, text.as_bytes(), rule)?;
    Ok(met == good && told.as_slice() == wanted.as_bytes())
}

#[test]
fn texts_are_checked(rt: HostRuntime) -> Result<(), Fail> {
    for (text, rule, good, wanted) in &TEXTS {
        assert!(rt; is_told(rt.alloc(), text, *rule, *good, wanted)?, "{text}");
    }
    Ok(())
}

// What a writer with so much room keeps of what is told, where it fails.
fn front_of(alloc: Global, text: &[u8], room: usize) -> Option<Vec<u8>> {
    let writer = Room {
        kept: Vec::new(alloc),
        room,
        step: 3,
    };
    let finished = check(alloc, text, CheckRule::Match, writer);
    match finished.end {
        Err(RunFault::Write) => Some(finished.writer.into_inner().kept),
        _ => None,
    }
}

// Whether the writer that fails keeps this front.
fn fails_after(alloc: Global, text: &[u8], front: &[u8]) -> bool {
    match front_of(alloc, text, front.len()) {
        Some(kept) => kept.as_slice() == front,
        None => false,
    }
}

#[test]
fn failed_writes_are_told(rt: HostRuntime) {
    for (text, wanted) in [
        (EDGE, EDGE_TOLD),
        (WRONG, "refused 11 check number is wrong\n"),
    ] {
        for room in 0..wanted.len() {
            assert!(rt;
                fails_after(rt.alloc(), text.as_bytes(), &wanted.as_bytes()[..room]),
                "room for {room}"
            );
        }
    }
}
