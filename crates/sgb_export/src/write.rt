//! The text of a graph, part by part.
ghost use Rattle.std.specs.Prelude.{◌≡◌, ◌≤◌, ◌<◌, ◌+◌, IfOk, None, length};
ghost use Rattle.sgb_graph.specs.Graph.{n_of};
ghost use Rattle.sgb_print.specs.Print.{Prints};
ghost use Rattle.sgb_export.specs.Export.{refusal_of_export};
ghost use Rattle.sgb_export.specs.Links.{links, links_at};
ghost use Rattle.sgb_export.specs.Private.Marks.{AreMarks};
ghost use Rattle.sgb_export.specs.Text.{export_text, listed_text, is_directed_in, head_text, vertex_text, vertices_text, link_text, links_text, foot_text};

use crate::Format;
use crate::dimacs::{put_col_head, put_col_link, put_dimacs_head, put_dimacs_link};
use crate::direction::is_directed;
use crate::dot::{put_dot_head, put_dot_link, put_dot_vertex};
use crate::edges::{put_edges_head, put_edges_link, put_named_link};
use crate::graph6::put_graph6;
use crate::graphml::{put_graphml_head, put_graphml_link, put_graphml_vertex};
use crate::link::{Link, is_written, link_at};
use crate::position::put_placed_vertex;
use sgb_graph::{Graph, VertexNo};
use sgb_print::{Failed, MeteredWriter, put};
use std::io::Write;

// Writes the text of a graph that is not refused, or a front of it if a write fails. The marks are for graph6.
pub(crate) fn write_export<W: Write>(
    writer: &mut MeteredWriter<W>,
    graph: &Graph,
    format: Format,
    marks: &mut [u32],
) -> Result<(), Failed>
    requires accepted { refusal_of_export format graph.now ≡ None }
    requires marks { AreMarks format graph.now marks.old }
    ensures { Prints writer.old writer.new result (export_text format graph.now) }
{
    match format {
        Format::Graph6 => put_graph6(writer, graph, marks),
        _ => put_parts(writer, graph, format),
    }
}

// Writes the head, the vertices, the edges or arcs, and the foot.
fn put_parts<W: Write>(
    writer: &mut MeteredWriter<W>,
    graph: &Graph,
    format: Format,
) -> Result<(), Failed>
    ensures { Prints writer.old writer.new result (listed_text format graph.now) }
{
    let directed = is_directed_in(format, graph);
    put_head(writer, graph, format, directed)?;
    put_vertices(writer, graph, format)?;
    put_links(writer, graph, format, directed)?;
    put_foot(writer, format)
}

// Whether every arc is written.
fn is_directed_in(format: Format, graph: &Graph) -> bool
    ensures { result ≡ is_directed_in format graph.now }
{
    match format {
        Format::Dimacs => true,
        _ => is_directed(graph),
    }
}

// Writes all before the first vertex.
fn put_head<W: Write>(
    writer: &mut MeteredWriter<W>,
    graph: &Graph,
    format: Format,
    directed: bool,
) -> Result<(), Failed>
    ensures { Prints writer.old writer.new result (head_text format directed graph.now) }
{
    match format {
        Format::Dot | Format::PlacedDot => put_dot_head(writer, graph, directed),
        Format::Dimacs => put_dimacs_head(writer, graph),
        Format::Col => put_col_head(writer, graph),
        Format::Edges | Format::NamedEdges => put_edges_head(writer, graph, directed),
        Format::Graph6 => Ok(()),
        Format::Graphml => put_graphml_head(writer, graph, directed),
    }
}

// Writes the lines of the vertices.
fn put_vertices<W: Write>(
    writer: &mut MeteredWriter<W>,
    graph: &Graph,
    format: Format,
) -> Result<(), Failed>
    ensures { Prints writer.old writer.new result (vertices_text format graph.now) }
{
    for v in 0..graph.n() {
        put_vertex(writer, graph, format, VertexNo(v))?;
    }
    Ok(())
}

// Writes the line of a vertex, if the format has one.
fn put_vertex<W: Write>(
    writer: &mut MeteredWriter<W>,
    graph: &Graph,
    format: Format,
    vertex: VertexNo,
) -> Result<(), Failed>
    requires { vertex.0 < n_of graph.now }
    ensures { Prints writer.old writer.new result (vertex_text format graph.now vertex.0) }
{
    match format {
        Format::Dot => put_dot_vertex(writer, graph, vertex),
        Format::PlacedDot => put_placed_vertex(writer, graph, vertex),
        Format::Graphml => put_graphml_vertex(writer, graph, vertex),
        _ => Ok(()),
    }
}

// Writes the lines of the edges or arcs.
fn put_links<W: Write>(
    writer: &mut MeteredWriter<W>,
    graph: &Graph,
    format: Format,
    directed: bool,
) -> Result<(), Failed>
    ensures { Prints writer.old writer.new result (links_text format directed graph.now 0 (links directed graph.now)) }
{
    let mut count = 0;
    for v in 0..graph.n() {
        count = put_links_at(writer, graph, format, directed, VertexNo(v), count)?;
    }
    Ok(())
}

// Writes the lines of those of one vertex, numbered from `count` on. Returns the number of the next line.
fn put_links_at<W: Write>(
    writer: &mut MeteredWriter<W>,
    graph: &Graph,
    format: Format,
    directed: bool,
    vertex: VertexNo,
    count: u64,
) -> Result<u64, Failed>
    requires vertex { vertex.0 < n_of graph.now }
    requires few { count ≤ 65535000000 }
    ensures written { Prints writer.old writer.new result (links_text format directed graph.now count (links_at directed graph.now vertex.0)) }
    ensures count { IfOk result (λ next. next ≡ count + length (links_at directed graph.now vertex.0)) }
    ensures few { IfOk result (λ next. next ≤ count + 1000000) }
{
    let mut next = count;
    for number in graph.walk(vertex, directed) {
        let link = link_at(graph, vertex, number);
        if !is_written(directed, link) {
            continue;
        }
        put_link(writer, graph, format, directed, next, link)?;
        next += 1;
    }
    Ok(next)
}

// Writes the line of an edge or arc, which is number `number` of those written.
fn put_link<W: Write>(
    writer: &mut MeteredWriter<W>,
    graph: &Graph,
    format: Format,
    directed: bool,
    number: u64,
    link: Link,
) -> Result<(), Failed>
    requires from { link.from < n_of graph.now }
    requires to { link.to < n_of graph.now }
    ensures { Prints writer.old writer.new result (link_text format directed graph.now number link) }
{
    // The contract of `n` says that there are at most 65,535 vertices.
    let _ = graph.n();
    match format {
        Format::Dot | Format::PlacedDot => put_dot_link(writer, directed, link),
        Format::Dimacs => put_dimacs_link(writer, link),
        Format::Col => put_col_link(writer, link),
        Format::Edges => put_edges_link(writer, link),
        Format::NamedEdges => put_named_link(writer, graph, link),
        Format::Graph6 => Ok(()),
        Format::Graphml => put_graphml_link(writer, number, link),
    }
}

// Writes all behind the last edge or arc.
fn put_foot<W: Write>(writer: &mut MeteredWriter<W>, format: Format) -> Result<(), Failed>
    ensures { Prints writer.old writer.new result (foot_text format) }
{
    match format {
        Format::Dot | Format::PlacedDot => put(writer, b"}\n"),
        Format::Graphml => put(writer, b"  </graph>\n</graphml>\n"),
        _ => Ok(()),
    }
}
