//! graph6.
ghost use Rattle.std.specs.Prelude.{◌≡◌, ◌==◌, ◌≤◌, ◌<◌, ◌+◌, ℕ, All, IfOk, None, false, length, map, slice_index_or, take};
ghost use Rattle.sgb_graph.specs.Graph.{n_of};
ghost use Rattle.sgb_graph.specs.Operand.{refusal_of_operand};
ghost use Rattle.sgb_print.specs.Print.{Prints};
ghost use Rattle.sgb_export.specs.Graph6.{graph6_text, is_joined, packed, size_bytes, triangle};
ghost use Rattle.sgb_export.specs.Links.{is_directed};
ghost use Rattle.sgb_export.specs.Private.Marks.{AreBlank, has_arc_to};
ghost use Rattle.sgb_export.specs.Private.Packing.{IsSix, byte_with, bytes_with, last_byte, six_after, six_with};

use crate::link::link_at;
use sgb_graph::{Graph, VertexNo};
use sgb_print::{Failed, MeteredWriter, put};
use std::io::Write;

// The bits of a byte so far: what they add up to, and the weight of the next one.
#[derive(Clone, Copy)]
pub(crate) struct Six {
    value: u8,
    weight: u8,
}

const NEW_SIX: Six = Six {
    value: 0,
    weight: 32,
};

// Writes the line of a graph that is undirected. The marks are one for each vertex, all 0.
pub(crate) fn put_graph6<W: Write>(
    writer: &mut MeteredWriter<W>,
    graph: &Graph,
    marks: &mut [u32],
) -> Result<(), Failed>
    requires operand { refusal_of_operand graph.now ≡ None }
    requires undirected { is_directed graph.now ≡ false }
    requires marks { AreBlank graph.now marks.old }
    ensures { Prints writer.old writer.new result (graph6_text graph.now) }
{
    put_size(writer, graph.n())?;
    put_columns(writer, graph, marks)?;
    put(writer, b"\n")
}

// Writes the number of vertices.
fn put_size<W: Write>(writer: &mut MeteredWriter<W>, n: u32) -> Result<(), Failed>
    requires { n ≤ 65535 }
    ensures { Prints writer.old writer.new result (size_bytes n) }
{
    if n <= 62 {
        return put(writer, &[63 + n as u8]);
    }
    let high = (n / 4096) as u8;
    let middle = (n / 64 % 64) as u8;
    let low = (n % 64) as u8;
    put(writer, &[b'~', 63 + high, 63 + middle, 63 + low])
}

// Writes a bit for each two vertices.
fn put_columns<W: Write>(
    writer: &mut MeteredWriter<W>,
    graph: &Graph,
    marks: &mut [u32],
) -> Result<(), Failed>
    requires operand { refusal_of_operand graph.now ≡ None }
    requires undirected { is_directed graph.now ≡ false }
    requires marks { AreBlank graph.now marks.old }
    ensures { Prints writer.old writer.new result (packed (triangle (n_of graph.now) (is_joined graph.now))) }
{
    let mut six = NEW_SIX;
    for v in 0..graph.n() {
        mark_neighbours(graph, VertexNo(v), marks);
        let (below, _) = marks.split_at(v as usize);
        six = put_column(writer, below, v + 1, six)?;
    }
    put_last(writer, six)
}

// Marks where the arcs of the vertex lead, by one more than its number, which no mark is yet.
fn mark_neighbours(graph: &Graph, vertex: VertexNo, marks: &mut [u32])
    requires vertex { vertex.0 < n_of graph.now }
    requires count { length marks.old ≡ n_of graph.now }
    requires low { All (λ m. m ≤ vertex.0) marks.old }
    ensures count { length marks.new ≡ n_of graph.now }
    ensures low { All (λ m. m ≤ vertex.0 + 1) marks.new }
    ensures marked { (w : ℕ) → (slice_index_or marks.new w 0 == (vertex.0 + 1)) ≡ has_arc_to graph.now vertex.0 w }
{
    // The contract of `n` says that there are at most 65,535 vertices.
    let _ = graph.n();
    for number in graph.arcs(vertex) {
        let link = link_at(graph, vertex, number);
        marks[link.to as usize] = vertex.0 + 1;
    }
}

// Writes a bit for each of these marks: whether it is this one.
fn put_column<W: Write>(
    writer: &mut MeteredWriter<W>,
    marks: &[u32],
    mark: u32,
    six: Six,
) -> Result<Six, Failed>
    requires { IsSix six }
    ensures written { Prints writer.old writer.new result (bytes_with six (map (λ m. m == mark) marks.now)) }
    ensures next { IfOk result (λ next. next ≡ six_after six (map (λ m. m == mark) marks.now)) }
    ensures six { IfOk result IsSix }
{
    let mut next = six;
    for other in marks {
        next = put_bit(writer, next, *other == mark)?;
    }
    Ok(next)
}

// Writes the byte that the bit completes, if it does.
fn put_bit<W: Write>(writer: &mut MeteredWriter<W>, six: Six, bit: bool) -> Result<Six, Failed>
    requires { IsSix six }
    ensures written { Prints writer.old writer.new result (byte_with six bit) }
    ensures next { IfOk result (λ next. next ≡ six_with six bit) }
    ensures six { IfOk result IsSix }
{
    let value = if bit {
        six.value + six.weight
    } else {
        six.value
    };
    if six.weight != 1 {
        return Ok(Six {
            value,
            weight: six.weight / 2,
        });
    }
    put(writer, &[63 + value])?;
    Ok(NEW_SIX)
}

// Writes the byte that is begun, if one is.
fn put_last<W: Write>(writer: &mut MeteredWriter<W>, six: Six) -> Result<(), Failed>
    requires { IsSix six }
    ensures { Prints writer.old writer.new result (last_byte six) }
{
    if six.weight == 32 {
        Ok(())
    } else {
        put(writer, &[63 + six.value])
    }
}
