//! Lists of edges or arcs, by numbers or by labels.
ghost use Rattle.std.specs.Prelude.{◌≡◌, ◌<◌};
ghost use Rattle.sgb_graph.specs.Graph.{n_of};
ghost use Rattle.sgb_print.specs.Print.{Prints};
ghost use Rattle.sgb_export.specs.Dot.{kind};
ghost use Rattle.sgb_export.specs.Edges.{counts_line, edges_head, edges_link, id_line, named_link};

use crate::count::count_links;
use crate::link::Link;
use itoa::Buffer;
use sgb_graph::{Graph, VertexNo};
use sgb_print::{Failed, MeteredWriter, Page, put_all};
use std::io::Write;

// Returns the word that says whether edges or arcs follow.
fn kind(directed: bool) -> &'static str
    ensures { result.now ≡ kind directed }
{
    if directed { "digraph" } else { "graph" }
}

// Writes the kind and the counts, and the id.
pub(crate) fn put_edges_head<W: Write>(
    writer: &mut MeteredWriter<W>,
    graph: &Graph,
    directed: bool,
) -> Result<(), Failed>
    ensures { Prints writer.old writer.new result (edges_head directed graph.now) }
{
    put_counts(writer, graph, directed)?;
    put_id(writer, graph)
}

// Writes the line with the kind and the counts.
fn put_counts<W: Write>(
    writer: &mut MeteredWriter<W>,
    graph: &Graph,
    directed: bool,
) -> Result<(), Failed>
    ensures { Prints writer.old writer.new result (counts_line directed graph.now) }
{
    let mut vertex_digits = Buffer::new();
    let vertices = vertex_digits.format(graph.n()).as_bytes();
    let mut edge_digits = Buffer::new();
    let edges = edge_digits.format(count_links(graph, directed)).as_bytes();
    put_all(
        writer,
        &[
            b"# ",
            kind(directed).as_bytes(),
            b" ",
            vertices,
            b" ",
            edges,
            b"\n",
        ],
    )
}

// Writes the line with the id.
fn put_id<W: Write>(writer: &mut MeteredWriter<W>, graph: &Graph) -> Result<(), Failed>
    ensures { Prints writer.old writer.new result (id_line graph.now) }
{
    put_all(writer, &[b"# id \"", graph.id(), b"\"\n"])
}

// Writes the line of an edge or arc, by the numbers of its endpoints.
pub(crate) fn put_edges_link<W: Write>(
    writer: &mut MeteredWriter<W>,
    link: Link,
) -> Result<(), Failed>
    ensures { Prints writer.old writer.new result (edges_link link) }
{
    let mut line = Page::new();
    line.prepend(b"\n");
    line.prepend_signed(link.len);
    line.prepend(b" ");
    line.prepend_number(u64::from(link.to));
    line.prepend(b" ");
    line.prepend_number(u64::from(link.from));
    line.print(writer)
}

// Writes the line of an edge or arc, by the labels of its endpoints.
pub(crate) fn put_named_link<W: Write>(
    writer: &mut MeteredWriter<W>,
    graph: &Graph,
    link: Link,
) -> Result<(), Failed>
    requires from { link.from < n_of graph.now }
    requires to { link.to < n_of graph.now }
    ensures { Prints writer.old writer.new result (named_link graph.now link) }
{
    let mut len_digits = Buffer::new();
    let len = len_digits.format(link.len).as_bytes();
    put_all(
        writer,
        &[
            graph.label(VertexNo(link.from)),
            b" ",
            graph.label(VertexNo(link.to)),
            b" ",
            len,
            b"\n",
        ],
    )
}
