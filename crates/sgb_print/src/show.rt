//! Graphs as they are printed.
ghost use Rattle.std.specs.Prelude.{◌≡◌, ◌+◌, ◌<◌, ◌≤◌, ◌++◌, codes, length, IsSome};
ghost use Rattle.std.specs.List.{flat_map, list_all};
ghost use Rattle.sgb_graph.specs.Graph.{n_of, made_of, arc_at, arcs_of};
ghost use Rattle.sgb_graph.specs.Edit.{entry_at};
ghost use Rattle.sgb_print.specs.Print.{Prints};
ghost use Rattle.sgb_print.specs.Show.{made_text, graph_text, header_text, is_zero, field_text, tip_text, arc_head, arc_line, vertex_head, vertex_line, vertex_text, graph_fields_text, vertices_text, arcs_text};

use crate::meter::{Failed, MeteredWriter};
use crate::page::Page;
use crate::print::{put, put_all};
use itoa::Buffer;
use sgb_graph::{
    ArcField, ArcNo, ArcView, Graph, GraphField, Place, Tip, Util, VertexField, VertexNo,
};
use std::io::Write;

/// Prints a graph's name and its counts of vertices and arcs, on one line.
pub fn print_made<W: Write>(
    writer: &mut MeteredWriter<W>,
    name: &[u8],
    vertices: u32,
    arcs: u32,
) -> Result<(), Failed>
    ensures { Prints writer.old writer.new result (made_text name.now vertices arcs) }
{
    let mut vertex_digits = Buffer::new();
    let mut arc_digits = Buffer::new();
    put_all(
        writer,
        &[
            name,
            b": ",
            vertex_digits.format(vertices).as_bytes(),
            b" vertices, ",
            arc_digits.format(arcs).as_bytes(),
            b" arcs\n",
        ],
    )
}

/// Prints a graph: its id and types, its counts and fields, and each vertex with its fields and arcs. Does not allocate.
pub fn print_graph<W: Write>(writer: &mut MeteredWriter<W>, graph: &Graph) -> Result<(), Failed>
    ensures { Prints writer.old writer.new result (graph_text graph.now) }
{
    print_header(writer, graph)?;
    print_graph_fields(writer, graph)?;
    print_vertices(writer, graph)
}

// Prints the id, the types and the counts.
fn print_header<W: Write>(writer: &mut MeteredWriter<W>, graph: &Graph) -> Result<(), Failed>
    ensures { Prints writer.old writer.new result (header_text graph.now) }
{
    let types = graph.types();
    let mut vertex_digits = Buffer::new();
    let mut arc_digits = Buffer::new();
    let mut number_digits = Buffer::new();
    put_all(
        writer,
        &[
            b"\"",
            graph.id(),
            b"\" ",
            types.letters(),
            b"\n",
            vertex_digits.format(graph.n()).as_bytes(),
            b" vertices, ",
            arc_digits.format(graph.m()).as_bytes(),
            b" arcs, ",
            number_digits.format(graph.made()).as_bytes(),
            b" numbers\n",
        ],
    )
}

// Prints a line with the graph's fields, unless all are Zero.
fn print_graph_fields<W: Write>(writer: &mut MeteredWriter<W>, graph: &Graph) -> Result<(), Failed>
    ensures { Prints writer.old writer.new result (graph_fields_text graph.now.fields) }
{
    let fields = [
        ("uu", graph.util(Place::Graph(GraphField::Uu))),
        ("vv", graph.util(Place::Graph(GraphField::Vv))),
        ("ww", graph.util(Place::Graph(GraphField::Ww))),
        ("xx", graph.util(Place::Graph(GraphField::Xx))),
        ("yy", graph.util(Place::Graph(GraphField::Yy))),
        ("zz", graph.util(Place::Graph(GraphField::Zz))),
    ];
    if are_zeros(&fields) {
        return Ok(());
    }
    put(writer, b"G")?;
    end_with_fields(writer, &fields)
}

// Prints each vertex with its arcs.
fn print_vertices<W: Write>(writer: &mut MeteredWriter<W>, graph: &Graph) -> Result<(), Failed>
    ensures { Prints writer.old writer.new result (vertices_text graph.now) }
{
    for v in 0..graph.n() {
        print_vertex(writer, graph, VertexNo(v))?;
    }
    Ok(())
}

// Prints a vertex with its arcs.
fn print_vertex<W: Write>(
    writer: &mut MeteredWriter<W>,
    graph: &Graph,
    vertex: VertexNo,
) -> Result<(), Failed>
    requires { vertex.0 < n_of graph.now }
    ensures { Prints writer.old writer.new result (vertex_text graph.now vertex.0) }
{
    print_vertex_line(writer, graph, vertex)?;
    print_arcs(writer, graph, vertex)
}

// Prints a vertex's number, label and fields.
fn print_vertex_line<W: Write>(
    writer: &mut MeteredWriter<W>,
    graph: &Graph,
    vertex: VertexNo,
) -> Result<(), Failed>
    requires { vertex.0 < n_of graph.now }
    ensures { Prints writer.old writer.new result (vertex_line graph.now vertex.0) }
{
    print_vertex_head(writer, vertex, graph.label(vertex))?;
    let fields = [
        ("u", graph.util(Place::Vertex(vertex, VertexField::U))),
        ("v", graph.util(Place::Vertex(vertex, VertexField::V))),
        ("w", graph.util(Place::Vertex(vertex, VertexField::W))),
        ("x", graph.util(Place::Vertex(vertex, VertexField::X))),
        ("y", graph.util(Place::Vertex(vertex, VertexField::Y))),
        ("z", graph.util(Place::Vertex(vertex, VertexField::Z))),
    ];
    end_with_fields(writer, &fields)
}

// Prints a vertex's number and label.
fn print_vertex_head<W: Write>(
    writer: &mut MeteredWriter<W>,
    vertex: VertexNo,
    label: &[u8],
) -> Result<(), Failed>
    ensures { Prints writer.old writer.new result (vertex_head vertex.0 label.now) }
{
    let mut digits = Buffer::new();
    let digits = digits.format(vertex.0).as_bytes();
    put_all(writer, &[b"V", digits, b" \"", label, b"\""])
}

// Prints the arcs of a vertex, the newest first.
fn print_arcs<W: Write>(
    writer: &mut MeteredWriter<W>,
    graph: &Graph,
    vertex: VertexNo,
) -> Result<(), Failed>
    requires { vertex.0 < n_of graph.now }
    ensures { Prints writer.old writer.new result (arcs_text graph.now (arcs_of graph.now vertex.0)) }
{
    for number in graph.arcs(vertex) {
        print_arc(writer, graph, number)?;
    }
    Ok(())
}

// Prints an arc's number, tip, length and fields.
fn print_arc<W: Write>(
    writer: &mut MeteredWriter<W>,
    graph: &Graph,
    number: ArcNo,
) -> Result<(), Failed>
    requires live { IsSome (arc_at graph.now number.0) }
    requires within { number.0 < made_of graph.now }
    ensures { Prints writer.old writer.new result (arc_line number.0 (entry_at graph.now number.0)) }
{
    let Some(arc) = graph.arc(number) else {
        unreachable!()
    };
    let values = [
        ("a", graph.util(Place::Arc(number, ArcField::A))),
        ("b", graph.util(Place::Arc(number, ArcField::B))),
    ];
    if are_zeros(&values) {
        return print_arc_head(writer, number, arc, b"\n");
    }
    print_arc_head(writer, number, arc, b"")?;
    end_with_fields(writer, &values)
}

// Prints an arc's number, tip and length, and the byte behind them if there is one, with one call of `put`.
fn print_arc_head<W: Write>(
    writer: &mut MeteredWriter<W>,
    number: ArcNo,
    arc: ArcView,
    behind: &[u8],
) -> Result<(), Failed>
    requires behind { length behind.now ≤ 1 }
    ensures { Prints writer.old writer.new result (arc_head number.0 arc.tip arc.len ++ behind.now) }
{
    let mut page = Page::new();
    page.prepend(behind);
    page.prepend_signed(arc.len);
    prepend_tip(&mut page, arc.tip);
    page.prepend_number(number.0 as u64);
    page.prepend(b"  A");
    page.print(writer)
}

// Puts an arc's tip in front of the text, between spaces.
fn prepend_tip(page: &mut Page, tip: Tip)
    requires { length page.old ≤ 22 }
    ensures text { page.new ≡ codes " " ++ (tip_text tip ++ (codes " " ++ page.old)) }
    ensures count { length page.new ≤ length page.old + 23 }
{
    match tip {
        Tip::Zero => page.prepend(b" 0 "),
        Tip::One => page.prepend(b" 1 "),
        Tip::To(vertex) => {
            page.prepend(b" ");
            page.prepend_number(vertex.0 as u64);
            page.prepend(b" V");
        }
    }
}

// Whether all values are Zero.
fn are_zeros(fields: &[(&str, &Util)]) -> bool
    ensures { result ≡ list_all (λ p. is_zero p.1.now) fields.now }
{
    fields.iter().all(|field| matches!(field.1, Util::Zero))
}

// Prints the fields that are not Zero, and ends the line.
fn end_with_fields<W: Write>(
    writer: &mut MeteredWriter<W>,
    fields: &[(&str, &Util)],
) -> Result<(), Failed>
    ensures { Prints writer.old writer.new result (flat_map (λ p. field_text p.0.now p.1.now) fields.now ++ codes "\n") }
{
    for (name, value) in fields {
        print_field(writer, name, value)?;
    }
    put(writer, b"\n")
}

// Prints a field, unless it is Zero.
fn print_field<W: Write>(
    writer: &mut MeteredWriter<W>,
    name: &str,
    value: &Util,
) -> Result<(), Failed>
    ensures { Prints writer.old writer.new result (field_text name.now value.now) }
{
    let name = name.as_bytes();
    let mut buffer = Buffer::new();
    match value {
        Util::Zero => Ok(()),
        Util::Int(number) => {
            let digits = buffer.format(*number).as_bytes();
            put_all(writer, &[b" ", name, b"=", digits])
        }
        Util::Vertex(vertex) => {
            let digits = buffer.format(vertex.0).as_bytes();
            put_all(writer, &[b" ", name, b"=V", digits])
        }
        Util::Arc(number) => {
            let digits = buffer.format(number.0).as_bytes();
            put_all(writer, &[b" ", name, b"=A", digits])
        }
        Util::Text(text) => put_all(writer, &[b" ", name, b"=\"", text.bytes(), b"\""]),
    }
}
