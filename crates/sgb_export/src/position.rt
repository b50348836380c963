//! The positions of vertices.
ghost use Rattle.std.specs.Prelude.{◌≡◌, ◌<◌, ◌*ℤ◌, pos};
ghost use Rattle.sgb_graph.specs.Graph.{n_of};
ghost use Rattle.sgb_print.specs.Print.{Prints};
ghost use Rattle.sgb_export.specs.Dot.{are_placed, coordinate, is_coordinate, is_placed, label_text, placed_vertex, position_text, x_of, y_of};

use itoa::Buffer;
use sgb_graph::{Graph, Place, Util, VertexField, VertexNo};
use sgb_print::{Failed, MeteredWriter, put_all};
use std::io::Write;

// Whether the fields `x` and `y` of each vertex are numbers or Zero.
pub(crate) fn are_placed(graph: &Graph) -> bool
    ensures { result ≡ are_placed graph.now }
{
    for v in 0..graph.n() {
        if !is_placed(graph, VertexNo(v)) {
            return false;
        }
    }
    true
}

// Whether both fields are numbers or Zero.
fn is_placed(graph: &Graph, vertex: VertexNo) -> bool
    requires { vertex.0 < n_of graph.now }
    ensures { result ≡ is_placed graph.now vertex.0 }
{
    is_coordinate(x_of(graph, vertex)) && is_coordinate(y_of(graph, vertex))
}

fn is_coordinate(value: &Util) -> bool
    ensures { result ≡ is_coordinate value.now }
{
    matches!(value, Util::Zero | Util::Int(_))
}

fn x_of(graph: &Graph, vertex: VertexNo) -> &Util
    requires { vertex.0 < n_of graph.now }
    ensures { result.now ≡ x_of graph.now vertex.0 }
{
    graph.util(Place::Vertex(vertex, VertexField::X))
}

fn y_of(graph: &Graph, vertex: VertexNo) -> &Util
    requires { vertex.0 < n_of graph.now }
    ensures { result.now ≡ y_of graph.now vertex.0 }
{
    graph.util(Place::Vertex(vertex, VertexField::Y))
}

// Returns a coordinate in points, which may need more than 64 bits.
fn points(value: &Util) -> i128
    ensures { result ≡ pos 72 *ℤ coordinate value.now }
{
    match value {
        Util::Int(number) => 72 * (*number as i128),
        _ => 0,
    }
}

// Writes the line of a vertex with its position.
pub(crate) fn put_placed_vertex<W: Write>(
    writer: &mut MeteredWriter<W>,
    graph: &Graph,
    vertex: VertexNo,
) -> Result<(), Failed>
    requires { vertex.0 < n_of graph.now }
    ensures { Prints writer.old writer.new result (placed_vertex graph.now vertex.0) }
{
    put_label(writer, graph, vertex)?;
    put_position(writer, x_of(graph, vertex), y_of(graph, vertex))
}

// Writes the number and the label.
fn put_label<W: Write>(
    writer: &mut MeteredWriter<W>,
    graph: &Graph,
    vertex: VertexNo,
) -> Result<(), Failed>
    requires { vertex.0 < n_of graph.now }
    ensures { Prints writer.old writer.new result (label_text graph.now vertex.0) }
{
    let mut digits = Buffer::new();
    let digits = digits.format(vertex.0).as_bytes();
    put_all(
        writer,
        &[b"  ", digits, b" [label=\"", graph.label(vertex), b"\""],
    )
}

// Writes the position, and the end of the line.
fn put_position<W: Write>(writer: &mut MeteredWriter<W>, x: &Util, y: &Util) -> Result<(), Failed>
    ensures { Prints writer.old writer.new result (position_text x.now y.now) }
{
    let mut x_digits = Buffer::new();
    let x_points = x_digits.format(points(x)).as_bytes();
    let mut y_digits = Buffer::new();
    let y_points = y_digits.format(points(y)).as_bytes();
    put_all(writer, &[b", pos=\"", x_points, b",", y_points, b"\"];\n"])
}
