//! Two formats of DIMACS: for shortest paths, and of edges.
ghost use Rattle.std.specs.Prelude.{◌<◌};
ghost use Rattle.sgb_print.specs.Print.{Prints};
ghost use Rattle.sgb_export.specs.Dimacs.{dimacs_head, dimacs_link, col_head, col_link};

use crate::count::count_links;
use crate::link::Link;
use itoa::Buffer;
use sgb_graph::Graph;
use sgb_print::{Failed, MeteredWriter, Page, put_all};
use std::io::Write;

// Writes the id and the counts.
pub(crate) fn put_dimacs_head<W: Write>(
    writer: &mut MeteredWriter<W>,
    graph: &Graph,
) -> Result<(), Failed>
    ensures { Prints writer.old writer.new result (dimacs_head graph.now) }
{
    let mut vertex_digits = Buffer::new();
    let vertices = vertex_digits.format(graph.n()).as_bytes();
    let mut arc_digits = Buffer::new();
    let arcs = arc_digits.format(count_links(graph, true)).as_bytes();
    put_all(
        writer,
        &[b"c ", graph.id(), b"\np sp ", vertices, b" ", arcs, b"\n"],
    )
}

// Writes the line of an arc.
pub(crate) fn put_dimacs_link<W: Write>(
    writer: &mut MeteredWriter<W>,
    link: Link,
) -> Result<(), Failed>
    ensures { Prints writer.old writer.new result (dimacs_link link) }
{
    let mut line = Page::new();
    line.prepend(b"\n");
    line.prepend_signed(link.len);
    line.prepend(b" ");
    line.prepend_number(u64::from(link.to) + 1);
    line.prepend(b" ");
    line.prepend_number(u64::from(link.from) + 1);
    line.prepend(b"a ");
    line.print(writer)
}

// Writes the id and the counts, of edges without lengths.
pub(crate) fn put_col_head<W: Write>(
    writer: &mut MeteredWriter<W>,
    graph: &Graph,
) -> Result<(), Failed>
    ensures { Prints writer.old writer.new result (col_head graph.now) }
{
    let mut vertex_digits = Buffer::new();
    let vertices = vertex_digits.format(graph.n()).as_bytes();
    let mut edge_digits = Buffer::new();
    let edges = edge_digits.format(count_links(graph, false)).as_bytes();
    put_all(
        writer,
        &[
            b"c ",
            graph.id(),
            b"\np edge ",
            vertices,
            b" ",
            edges,
            b"\n",
        ],
    )
}

// Writes the line of an edge without its length.
pub(crate) fn put_col_link<W: Write>(
    writer: &mut MeteredWriter<W>,
    link: Link,
) -> Result<(), Failed>
    ensures { Prints writer.old writer.new result (col_link link) }
{
    let mut line = Page::new();
    line.prepend(b"\n");
    line.prepend_number(u64::from(link.to) + 1);
    line.prepend(b" ");
    line.prepend_number(u64::from(link.from) + 1);
    line.prepend(b"e ");
    line.print(writer)
}
