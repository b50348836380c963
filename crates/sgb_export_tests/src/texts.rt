//! The texts of each format.

use crate::graphs::{
    Made, complete, empty, is_text, last_edge, leading_to, loops, one_arc, one_edge, path,
    petersen, placed, single, text_of, triangle, two_edges, uneven,
};
use sgb_export::Format;
use sgb_graph::{Tip, VertexNo};
use std::alloc::Global;

const DOT_EDGE: &str = "graph \"gb_new_graph(2)\" {
  0 [label=\"\"];
  1 [label=\"\"];
  0 -- 1 [label=\"5\"];
}
";

const DOT_ARC: &str = "digraph \"gb_new_graph(2)\" {
  0 [label=\"\"];
  1 [label=\"\"];
  0 -> 1 [label=\"-5\"];
}
";

const DIMACS_TRIANGLE: &str = "c gb_new_graph(3)
p sp 3 6
a 1 3 2
a 1 2 1
a 2 3 3
a 2 1 1
a 3 2 3
a 3 1 2
";

// 72 times the least number of 64 bits.
const PLACED: &str = "graph \"gb_new_graph(1)\" {
  0 [label=\"\", pos=\"144,-664082786653543858176\"];
}
";

const PLACED_EDGE: &str = "graph \"gb_new_graph(2)\" {
  0 [label=\"\", pos=\"0,0\"];
  1 [label=\"\", pos=\"0,0\"];
  0 -- 1 [label=\"5\"];
}
";

const COL_TRIANGLE: &str = "c gb_new_graph(3)
p edge 3 3
e 1 3
e 1 2
e 2 3
";

const GRAPHML_SINGLE: &str = "<?xml version=\"1.0\" encoding=\"UTF-8\"?>
<graphml xmlns=\"http://graphml.graphdrawing.org/xmlns\">
  <key id=\"id\" for=\"graph\" attr.name=\"id\" attr.type=\"string\"/>
  <key id=\"name\" for=\"node\" attr.name=\"name\" attr.type=\"string\"/>
  <key id=\"len\" for=\"edge\" attr.name=\"len\" attr.type=\"long\"/>
  <graph id=\"G\" edgedefault=\"undirected\">
    <data key=\"id\">a&lt;b</data>
    <node id=\"v0\"><data key=\"name\">&lt;R&amp;D&gt; x</data></node>
  </graph>
</graphml>
";

const GRAPHML_UNEVEN: &str = "<?xml version=\"1.0\" encoding=\"UTF-8\"?>
<graphml xmlns=\"http://graphml.graphdrawing.org/xmlns\">
  <key id=\"id\" for=\"graph\" attr.name=\"id\" attr.type=\"string\"/>
  <key id=\"name\" for=\"node\" attr.name=\"name\" attr.type=\"string\"/>
  <key id=\"len\" for=\"edge\" attr.name=\"len\" attr.type=\"long\"/>
  <graph id=\"G\" edgedefault=\"directed\">
    <data key=\"id\">gb_new_graph(2)</data>
    <node id=\"v0\"><data key=\"name\"></data></node>
    <node id=\"v1\"><data key=\"name\"></data></node>
    <edge id=\"e0\" source=\"v0\" target=\"v1\"><data key=\"len\">5</data></edge>
    <edge id=\"e1\" source=\"v1\" target=\"v0\"><data key=\"len\">6</data></edge>
  </graph>
</graphml>
";

#[test]
fn dot(rt: HostRuntime) {
    let alloc = rt.alloc();
    assert!(rt; is_text(alloc, one_edge(alloc), Format::Dot, DOT_EDGE));
    assert!(rt; is_text(alloc, one_arc(alloc), Format::Dot, DOT_ARC));
    let nothing = "graph \"gb_new_graph(0)\" {\n}\n";
    assert!(rt; is_text(alloc, empty(alloc), Format::Dot, nothing));
}

#[test]
fn dimacs(rt: HostRuntime) {
    let alloc = rt.alloc();
    let three = triangle(alloc, b"", b"", b"");
    assert!(rt; is_text(alloc, three, Format::Dimacs, DIMACS_TRIANGLE));
    let nothing = "c gb_new_graph(0)\np sp 0 0\n";
    assert!(rt; is_text(alloc, empty(alloc), Format::Dimacs, nothing));
}

#[test]
fn col(rt: HostRuntime) {
    let alloc = rt.alloc();
    let three = triangle(alloc, b"", b"", b"");
    assert!(rt; is_text(alloc, three, Format::Col, COL_TRIANGLE));
    let nothing = "c gb_new_graph(0)\np edge 0 0\n";
    assert!(rt; is_text(alloc, empty(alloc), Format::Col, nothing));
}

#[test]
fn placed_dot(rt: HostRuntime) {
    let alloc = rt.alloc();
    assert!(rt;
        is_text(
            alloc,
            placed(alloc, 7, 2, i64::MIN),
            Format::PlacedDot,
            PLACED
        )
    );
    assert!(rt; is_text(alloc, one_edge(alloc), Format::PlacedDot, PLACED_EDGE));
}

// Whether this is the graph in graph6, as nauty writes it.
fn is_graph6(alloc: Global, made: Made, text: &str) -> bool {
    is_text(alloc, made, Format::Graph6, text)
}

#[test]
fn graph6(rt: HostRuntime) {
    let alloc = rt.alloc();
    assert!(rt; is_graph6(alloc, empty(alloc), "?\n"));
    assert!(rt; is_graph6(alloc, complete(alloc, 1), "@\n"));
    assert!(rt; is_graph6(alloc, one_edge(alloc), "A_\n"));
    assert!(rt; is_graph6(alloc, complete(alloc, 4), "C~\n"));
    assert!(rt; is_graph6(alloc, path(alloc, 4), "Ch\n"));
    assert!(rt; is_graph6(alloc, petersen(alloc), "IheA@GUAo\n"));
}

// Whether the text of an edge between the last two of 100 vertices is as it should be: the size in four bytes, and 4,950
// bits, of which the last is set.
fn is_long(alloc: Global) -> bool {
    match text_of(alloc, &last_edge(alloc, 100), Format::Graph6) {
        Ok(text) => {
            text.len() == 830
                && text.as_slice().starts_with(b"~?@c?")
                && text.as_slice().ends_with(b"?@\n")
                && text.iter().filter(|byte| **byte == b'?').count() == 825
        }
        Err(_) => false,
    }
}

#[test]
fn graph6_of_many_vertices(rt: HostRuntime) {
    assert!(rt; is_long(rt.alloc()));
}

#[test]
fn graphml(rt: HostRuntime) {
    let alloc = rt.alloc();
    let one = single(alloc, b"a<b", b"<R&D> x");
    assert!(rt; is_text(alloc, one, Format::Graphml, GRAPHML_SINGLE));
    assert!(rt; is_text(alloc, uneven(alloc), Format::Graphml, GRAPHML_UNEVEN));
}

// Whether the graph has this list of edges.
fn is_list(alloc: Global, made: Made, text: &str) -> bool {
    is_text(alloc, made, Format::Edges, text)
}

#[test]
fn edges(rt: HostRuntime) {
    let alloc = rt.alloc();
    assert!(rt;
        is_list(
            alloc,
            empty(alloc),
            "# graph 0 0\n# id \"gb_new_graph(0)\"\n"
        )
    );
    assert!(rt;
        is_list(
            alloc,
            one_edge(alloc),
            "# graph 2 1\n# id \"gb_new_graph(2)\"\n0 1 5\n"
        )
    );
    assert!(rt;
        is_list(
            alloc,
            two_edges(alloc),
            "# graph 2 2\n# id \"gb_new_graph(2)\"\n0 1 6\n0 1 5\n"
        )
    );
}

#[test]
fn arcs(rt: HostRuntime) {
    let alloc = rt.alloc();
    assert!(rt;
        is_list(
            alloc,
            one_arc(alloc),
            "# digraph 2 1\n# id \"gb_new_graph(2)\"\n0 1 -5\n"
        )
    );
    assert!(rt;
        is_list(
            alloc,
            uneven(alloc),
            "# digraph 2 2\n# id \"gb_new_graph(2)\"\n0 1 5\n1 0 6\n"
        )
    );
}

#[test]
fn loops_as_edges_and_as_arcs(rt: HostRuntime) {
    let alloc = rt.alloc();
    assert!(rt;
        is_list(
            alloc,
            loops(alloc, false),
            "# graph 1 1\n# id \"gb_new_graph(1)\"\n0 0 7\n"
        )
    );
    assert!(rt;
        is_list(
            alloc,
            loops(alloc, true),
            "# digraph 1 1\n# id \"gb_new_graph(1)\"\n0 0 7\n"
        )
    );
    let to_itself = leading_to(alloc, Tip::To(VertexNo(0)));
    assert!(rt; is_list(alloc, to_itself, "# digraph 1 1\n# id \"leading\"\n0 0 1\n"));
}

#[test]
fn names(rt: HostRuntime) {
    let alloc = rt.alloc();
    let three = triangle(alloc, b"Ada", b"B#", b"ada");
    let text = "# graph 3 3\n# id \"gb_new_graph(3)\"\nAda ada 2\nAda B# 1\nB# ada 3\n";
    assert!(rt; is_text(alloc, three, Format::NamedEdges, text));
}

// How many lines the text has, and whether it begins so.
fn lines_of(alloc: Global, made: &Made, format: Format, front: &[u8]) -> Option<usize> {
    match text_of(alloc, made, format) {
        Ok(text) if text.as_slice().starts_with(front) => {
            Some(text.iter().filter(|byte| **byte == b'\n').count())
        }
        _ => None,
    }
}

#[test]
fn counts(rt: HostRuntime) {
    let graph = petersen(rt.alloc());
    let dimacs = lines_of(
        rt.alloc(),
        &graph,
        Format::Dimacs,
        b"c gb_new_graph(10)\np sp 10 30\n",
    );
    assert!(rt; dimacs == Some(32));
    let edges = lines_of(rt.alloc(), &graph, Format::Edges, b"# graph 10 15\n");
    assert!(rt; edges == Some(17));
    let dot = lines_of(
        rt.alloc(),
        &graph,
        Format::Dot,
        b"graph \"gb_new_graph(10)\" {\n",
    );
    assert!(rt; dot == Some(27));
}
