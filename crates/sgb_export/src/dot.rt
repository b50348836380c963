//! The language of Graphviz.
ghost use Rattle.std.specs.Prelude.{◌≡◌, ◌<◌};
ghost use Rattle.sgb_graph.specs.Graph.{n_of};
ghost use Rattle.sgb_print.specs.Print.{Prints};
ghost use Rattle.sgb_export.specs.Dot.{arrow, dot_head, dot_vertex, dot_link};

use crate::link::Link;
use itoa::Buffer;
use sgb_graph::{Graph, VertexNo};
use sgb_print::{Failed, MeteredWriter, Page, put_all};
use std::io::Write;

// Returns what joins the endpoints of an edge or arc.
fn arrow(directed: bool) -> &'static str
    ensures { result.now ≡ arrow directed }
{
    if directed { " -> " } else { " -- " }
}

// Writes the first line.
pub(crate) fn put_dot_head<W: Write>(
    writer: &mut MeteredWriter<W>,
    graph: &Graph,
    directed: bool,
) -> Result<(), Failed>
    ensures { Prints writer.old writer.new result (dot_head directed graph.now) }
{
    let id = graph.id();
    if directed {
        put_all(writer, &[b"digraph \"", id, b"\" {\n"])
    } else {
        put_all(writer, &[b"graph \"", id, b"\" {\n"])
    }
}

// Writes the line of a vertex.
pub(crate) fn put_dot_vertex<W: Write>(
    writer: &mut MeteredWriter<W>,
    graph: &Graph,
    vertex: VertexNo,
) -> Result<(), Failed>
    requires { vertex.0 < n_of graph.now }
    ensures { Prints writer.old writer.new result (dot_vertex graph.now vertex.0) }
{
    let mut digits = Buffer::new();
    let digits = digits.format(vertex.0).as_bytes();
    put_all(
        writer,
        &[b"  ", digits, b" [label=\"", graph.label(vertex), b"\"];\n"],
    )
}

// Writes the line of an edge or arc.
pub(crate) fn put_dot_link<W: Write>(
    writer: &mut MeteredWriter<W>,
    directed: bool,
    link: Link,
) -> Result<(), Failed>
    ensures { Prints writer.old writer.new result (dot_link directed link) }
{
    let mut line = Page::new();
    line.prepend(b"\"];\n");
    line.prepend_signed(link.len);
    line.prepend(b" [label=\"");
    line.prepend_number(u64::from(link.to));
    line.prepend(arrow(directed).as_bytes());
    line.prepend_number(u64::from(link.from));
    line.prepend(b"  ");
    line.print(writer)
}
