//! GraphML.
ghost use Rattle.std.specs.Prelude.{◌≡◌, ◌<◌, ◌++◌};
ghost use Rattle.std.specs.List.{flat_map};
ghost use Rattle.sgb_graph.specs.Graph.{n_of};
ghost use Rattle.sgb_print.specs.Print.{Prints};
ghost use Rattle.sgb_export.specs.Graphml.{entity, escaped, edge_default, graphml_head, graphml_vertex, graphml_link};

use crate::link::Link;
use itoa::Buffer;
use sgb_graph::{Graph, VertexNo};
use sgb_print::{Failed, MeteredWriter, put, put_all};
use std::io::Write;

// Returns whether edges are directed by default.
fn edge_default(directed: bool) -> &'static str
    ensures { result.now ≡ edge_default directed }
{
    if directed { "directed" } else { "undirected" }
}

// Writes all before the first vertex.
pub(crate) fn put_graphml_head<W: Write>(
    writer: &mut MeteredWriter<W>,
    graph: &Graph,
    directed: bool,
) -> Result<(), Failed>
    ensures { Prints writer.old writer.new result (graphml_head directed graph.now) }
{
    let before: [&[u8]; 9] = [
        b"<?xml version=\"1.0\" encoding=\"UTF-8\"?>\n",
        b"<graphml xmlns=\"http://graphml.graphdrawing.org/xmlns\">\n",
        b"  <key id=\"id\" for=\"graph\" attr.name=\"id\" attr.type=\"string\"/>\n",
        b"  <key id=\"name\" for=\"node\" attr.name=\"name\" attr.type=\"string\"/>\n",
        b"  <key id=\"len\" for=\"edge\" attr.name=\"len\" attr.type=\"long\"/>\n",
        b"  <graph id=\"G\" edgedefault=\"",
        edge_default(directed).as_bytes(),
        b"\">\n",
        b"    <data key=\"id\">",
    ];
    put_around(writer, &before, graph.id(), b"</data>\n")
}

// Writes the line of a vertex.
pub(crate) fn put_graphml_vertex<W: Write>(
    writer: &mut MeteredWriter<W>,
    graph: &Graph,
    vertex: VertexNo,
) -> Result<(), Failed>
    requires { vertex.0 < n_of graph.now }
    ensures { Prints writer.old writer.new result (graphml_vertex graph.now vertex.0) }
{
    let mut digits = Buffer::new();
    let digits = digits.format(vertex.0).as_bytes();
    let before: [&[u8]; 3] = [b"    <node id=\"v", digits, b"\"><data key=\"name\">"];
    put_around(writer, &before, graph.label(vertex), b"</data></node>\n")
}

// Writes the line of an edge or arc, which is number `number` of those written.
pub(crate) fn put_graphml_link<W: Write>(
    writer: &mut MeteredWriter<W>,
    number: u64,
    link: Link,
) -> Result<(), Failed>
    ensures { Prints writer.old writer.new result (graphml_link number link) }
{
    let mut digits = Buffer::new();
    let digits = digits.format(number).as_bytes();
    let mut from_digits = Buffer::new();
    let from = from_digits.format(link.from).as_bytes();
    let mut to_digits = Buffer::new();
    let to = to_digits.format(link.to).as_bytes();
    let mut len_digits = Buffer::new();
    let len = len_digits.format(link.len).as_bytes();
    put_all(
        writer,
        &[
            b"    <edge id=\"e",
            digits,
            b"\" source=\"v",
            from,
            b"\" target=\"v",
            to,
            b"\"><data key=\"len\">",
            len,
            b"</data></edge>\n",
        ],
    )
}

// Writes a text with entities, and what is before and behind it.
fn put_around<W: Write>(
    writer: &mut MeteredWriter<W>,
    before: &[&[u8]],
    text: &[u8],
    behind: &[u8],
) -> Result<(), Failed>
    ensures { Prints writer.old writer.new result (flat_map (λ piece. piece.now) before.now ++ (escaped text.now ++ behind.now)) }
{
    put_all(writer, before)?;
    put_escaped(writer, text)?;
    put(writer, behind)
}

// Writes a text with entities.
fn put_escaped<W: Write>(writer: &mut MeteredWriter<W>, text: &[u8]) -> Result<(), Failed>
    ensures { Prints writer.old writer.new result (escaped text.now) }
{
    for byte in text {
        put_entity(writer, *byte)?;
    }
    Ok(())
}

// Writes a byte, or the entity that stands for it.
fn put_entity<W: Write>(writer: &mut MeteredWriter<W>, byte: u8) -> Result<(), Failed>
    ensures { Prints writer.old writer.new result (entity byte) }
{
    match byte {
        b'&' => put(writer, b"&amp;"),
        b'<' => put(writer, b"&lt;"),
        b'>' => put(writer, b"&gt;"),
        _ => put(writer, &[byte]),
    }
}
