//! Graphs from the texts of other tools, as they are exported again; and texts that are refused.

use crate::graphs::is_text;
use sgb_export::Format;
use sgb_graph::{Graph, VertexNo};
use sgb_import::{EdgeList, ImportRefusal, Source, TextFault, import};
use std::alloc::Global;

const NUMBERS: Source = Source::Edges(EdgeList {
    directed: false,
    names: false,
});

const ARCS: Source = Source::Edges(EdgeList {
    directed: true,
    names: false,
});

const NAMES: Source = Source::Edges(EdgeList {
    directed: false,
    names: true,
});

// Whether the text spells a graph that has the other text in the format.
fn spells(alloc: Global, text: &str, source: Source, format: Format, wanted: &str) -> bool {
    match import(alloc, text.as_bytes(), source) {
        Ok(graph) => is_text(alloc, Ok(graph), format, wanted),
        Err(_) => false,
    }
}

// Whether the text is refused at this line for this fault.
fn is_refused(alloc: Global, text: &str, source: Source, line: usize, fault: TextFault) -> bool {
    match import(alloc, text.as_bytes(), source) {
        Ok(_) => false,
        Err(refusal) => refusal == ImportRefusal::At { line, fault },
    }
}

// Whether the list of edges has this list.
fn is_list(alloc: Global, text: &str, source: Source, wanted: &str) -> bool {
    spells(alloc, text, source, Format::Edges, wanted)
}

#[test]
fn edges(rt: HostRuntime) {
    let alloc = rt.alloc();
    let nothing = "# graph 0 0\n# id \"import(edges)\"\n";
    assert!(rt; is_list(alloc, "", NUMBERS, nothing));
    let path = "# graph 3 2\n# id \"import(edges)\"\n0 1 1\n1 2 5\n";
    assert!(rt; is_list(alloc, "0 1\r\n\n \t\n2\t 1 5", NUMBERS, path));
    let star = "# graph 4 3\n# id \"import(edges)\"\n0 3 1\n0 1 -2\n0 2 1\n";
    assert!(rt; is_list(alloc, "0 3\n0 1 -2\n2 0\n", NUMBERS, star));
}

#[test]
fn arcs(rt: HostRuntime) {
    let alloc = rt.alloc();
    let arcs = "# digraph 2 2\n# id \"import(edges)\"\n0 0 1\n1 0 1\n";
    assert!(rt; is_list(alloc, "1 0\n0 0\n", ARCS, arcs));
    assert!(rt; is_list(alloc, "# digraph 2 2\n1 0\n0 0\n", NUMBERS, arcs));
}

#[test]
fn headers_and_ids(rt: HostRuntime) {
    let alloc = rt.alloc();
    let square = "# graph 4 1\n# id \"square\"\n0 3 -7\n";
    let text = "# graph 4 1\n#id \"none\"\n# id \"square\"\n# id \"other\"\n3 0 -7\n";
    assert!(rt; is_list(alloc, text, NUMBERS, square));
    let no_header = "# a comment\n# graph 9 9\n0 1\n";
    let edge = "# graph 2 1\n# id \"import(edges)\"\n0 1 1\n";
    assert!(rt; is_list(alloc, no_header, NUMBERS, edge));
}

#[test]
fn names(rt: HostRuntime) {
    let alloc = rt.alloc();
    let three = "# graph 3 3\n# id \"import(edges)\"\nCy Ada 2\nCy Bob 1\nAda Bob 3\n";
    let text = "Cy Ada 2\nBob Cy\nAda Bob 3\n";
    assert!(rt; spells(alloc, text, NAMES, Format::NamedEdges, three));
}

#[test]
fn other_formats(rt: HostRuntime) {
    let alloc = rt.alloc();
    let arc = "c import(dimacs)\np sp 2 1\na 1 2 3\n";
    assert!(rt;
        spells(
            alloc,
            "p sp 2 1\na 1 2 3\n",
            Source::Dimacs,
            Format::Dimacs,
            arc
        )
    );
    let edge = "c one edge\np edge 2 1\ne 1 2\n";
    let text = "c one edge\np col 2 1\ne 2 1\n";
    assert!(rt; spells(alloc, text, Source::Dimacs, Format::Col, edge));
    assert!(rt; spells(alloc, "C~\n", Source::Graph6, Format::Graph6, "C~\n"));
    let path = "# graph 4 3\n# id \"import(graph6)\"\n0 1 1\n1 2 1\n2 3 1\n";
    assert!(rt; spells(alloc, ">>graph6<<Ch\n", Source::Graph6, Format::Edges, path));
}

#[test]
fn lines_that_are_no_edges(rt: HostRuntime) {
    let alloc = rt.alloc();
    let fault = TextFault::NotAnEdge;
    assert!(rt; is_refused(alloc, "0 1\n\n0 x\n", NUMBERS, 3, fault));
    assert!(rt; is_refused(alloc, "0\n", NUMBERS, 1, fault));
    assert!(rt; is_refused(alloc, "0 1 2 3\n", NUMBERS, 1, fault));
    assert!(rt; is_refused(alloc, "0 1\n0 1 9223372036854775808\n", NUMBERS, 2, fault));
}

#[test]
fn endpoints(rt: HostRuntime) {
    let alloc = rt.alloc();
    let none = TextFault::NoSuchVertex;
    assert!(rt; is_refused(alloc, "# graph 2 1\n0 2\n", NUMBERS, 2, none));
    let many = TextFault::TooManyVertices;
    assert!(rt; is_refused(alloc, "0 65534\n65535 0\n", NUMBERS, 2, many));
    assert!(rt; is_refused(alloc, "0 99999999999999999999\n", NUMBERS, 1, many));
    assert!(rt; is_refused(alloc, "a b\"\n", NAMES, 1, TextFault::BadName));
}

#[test]
fn headers_that_are_refused(rt: HostRuntime) {
    let alloc = rt.alloc();
    assert!(rt; is_refused(alloc, "0 x\n# graph 1 0\n", ARCS, 2, TextFault::NotDirected));
    let many = TextFault::TooManyVertices;
    assert!(rt; is_refused(alloc, "# graph 65536 0\n", NUMBERS, 1, many));
    assert!(rt; is_refused(alloc, "0 x\n# id \"\\\"\n", NUMBERS, 2, TextFault::BadId));
}

#[test]
fn counts(rt: HostRuntime) {
    let alloc = rt.alloc();
    let edges = TextFault::WrongEdges;
    assert!(rt; is_refused(alloc, "\n# graph 2 2\n0 1\n", NUMBERS, 2, edges));
    assert!(rt; is_refused(alloc, "# graph 2 0\n0 1\n", NUMBERS, 1, edges));
    let vertices = TextFault::WrongVertices;
    assert!(rt; is_refused(alloc, "# graph 1 1\na b\n", NAMES, 2, vertices));
    assert!(rt; is_refused(alloc, "# graph 3 1\na b\n", NAMES, 1, vertices));
}

#[test]
fn other_formats_that_are_refused(rt: HostRuntime) {
    let alloc = rt.alloc();
    let problem = TextFault::NoProblem;
    assert!(rt; is_refused(alloc, "c a\na 1 2 3\n", Source::Dimacs, 2, problem));
    let second = TextFault::SecondGraph;
    assert!(rt; is_refused(alloc, "C~\n\nC~\n", Source::Graph6, 3, second));
    assert!(rt; TextFault::NotAGraph.number() == 20);
    assert!(rt; ImportRefusal::NoRoom.number() == 1);
}

// Reads the text, once more where there was no room.
fn read_again(alloc: Global, text: &str, source: Source) -> Result<Graph, ImportRefusal> {
    match import(alloc, text.as_bytes(), source) {
        Err(ImportRefusal::NoRoom) => import(alloc, text.as_bytes(), source),
        read => read,
    }
}

// Whether the text spells a graph of so many vertices, the last of this name.
fn is_read(alloc: Global, text: &str, source: Source, n: u32, last: &[u8]) -> bool {
    match read_again(alloc, text, source) {
        Ok(graph) => graph.n() == n && n > 0 && graph.label(VertexNo(n - 1)) == last,
        Err(_) => false,
    }
}

#[test]
fn imports_that_ran_out_of_memory_are_made_when_asked_again(rt: HostRuntime) {
    let alloc = rt.alloc();
    let long = "a_name_of_many_bytes";
    assert!(rt; is_read(alloc, "b a_name_of_many_bytes\n", NAMES, 2, long.as_bytes()));
    assert!(rt; is_read(alloc, "0 1\n1 2\n", ARCS, 3, b"2"));
    assert!(rt; is_read(alloc, "p edge 2 1\ne 1 2\n", Source::Dimacs, 2, b"2"));
    assert!(rt; is_read(alloc, "C~\n", Source::Graph6, 4, b"3"));
}
