//! The graphs of the tests, and their texts. The functions promise nothing, so that the proof of a test stays short.

use sgb_export::{ExportFault, Format, export};
use sgb_graph::{
    ArcNo, ArcPart, Graph, Items, Label, Parts, Place, Refusal, Text, Tip, Types, Util,
    VertexField, VertexNo, VertexPart,
};
use sgb_print::MeteredWriter;
use std::alloc::Global;

/// A graph, or why there is none.
pub type Made = Result<Graph, Refusal>;

// The edits, without what undoes them.
fn arc(graph: &mut Graph, from: u32, to: u32, len: i64) -> Result<(), Refusal> {
    let _made = graph.new_arc(VertexNo(from), VertexNo(to), len)?;
    Ok(())
}

fn edge(graph: &mut Graph, from: u32, to: u32, len: i64) -> Result<(), Refusal> {
    let _made = graph.new_edge(VertexNo(from), VertexNo(to), len)?;
    Ok(())
}

fn label(alloc: Global, graph: &mut Graph, vertex: u32, name: &[u8]) -> Result<(), Refusal> {
    let _delta = graph.set_label(VertexNo(vertex), Text::new(alloc, name)?)?;
    Ok(())
}

fn set_id(alloc: Global, graph: &mut Graph, id: &[u8]) -> Result<(), Refusal> {
    let _delta = graph.set_id(Text::new(alloc, id)?)?;
    Ok(())
}

fn set_field(
    graph: &mut Graph,
    vertex: u32,
    field: VertexField,
    value: Util,
) -> Result<(), Refusal> {
    let _delta = graph.set_util(Place::Vertex(VertexNo(vertex), field), value)?;
    Ok(())
}

fn set_len(graph: &mut Graph, number: u32, len: i64) -> Result<(), Refusal> {
    let _delta = graph.set_len(ArcNo(number), len)?;
    Ok(())
}

/// No vertices.
pub fn empty(alloc: Global) -> Made {
    Graph::new(alloc, 0)
}

/// An edge between two vertices.
pub fn one_edge(alloc: Global) -> Made {
    let mut graph = Graph::new(alloc, 2)?;
    edge(&mut graph, 0, 1, 5)?;
    Ok(graph)
}

/// The same, where one half is longer.
pub fn uneven(alloc: Global) -> Made {
    let mut graph = one_edge(alloc)?;
    set_len(&mut graph, 1, 6)?;
    Ok(graph)
}

/// Two edges between two vertices.
pub fn two_edges(alloc: Global) -> Made {
    let mut graph = one_edge(alloc)?;
    edge(&mut graph, 1, 0, 6)?;
    Ok(graph)
}

/// An arc.
pub fn one_arc(alloc: Global) -> Made {
    let mut graph = Graph::new(alloc, 2)?;
    arc(&mut graph, 0, 1, -5)?;
    Ok(graph)
}

/// A loop, and one that is no edge.
pub fn loops(alloc: Global, directed: bool) -> Made {
    let mut graph = Graph::new(alloc, 1)?;
    if directed {
        arc(&mut graph, 0, 0, 7)?;
    } else {
        edge(&mut graph, 0, 0, 7)?;
    }
    Ok(graph)
}

/// Vertices in a row, with an edge from each to the next.
pub fn path(alloc: Global, n: u32) -> Made {
    let mut graph = Graph::new(alloc, n)?;
    for v in 1..n {
        edge(&mut graph, v - 1, v, 1)?;
    }
    Ok(graph)
}

/// An edge between each two vertices.
pub fn complete(alloc: Global, n: u32) -> Made {
    let mut graph = Graph::new(alloc, n)?;
    for v in 0..n {
        make_joined(&mut graph, v)?;
    }
    Ok(graph)
}

fn make_joined(graph: &mut Graph, vertex: u32) -> Result<(), Refusal> {
    for v in 0..vertex {
        edge(graph, v, vertex, 1)?;
    }
    Ok(())
}

/// So many vertices, and an edge between the last two.
pub fn last_edge(alloc: Global, n: u32) -> Made {
    let mut graph = Graph::new(alloc, n)?;
    edge(&mut graph, n.saturating_sub(1), n.saturating_sub(2), 1)?;
    Ok(graph)
}

/// One vertex with these numbers in the fields `w`, `x` and `y`.
pub fn placed(alloc: Global, w: i64, x: i64, y: i64) -> Made {
    let mut graph = Graph::new(alloc, 1)?;
    place(&mut graph, w, x, y)?;
    Ok(graph)
}

fn place(graph: &mut Graph, w: i64, x: i64, y: i64) -> Result<(), Refusal> {
    set_field(graph, 0, VertexField::W, Util::Int(w))?;
    set_field(graph, 0, VertexField::X, Util::Int(x))?;
    set_field(graph, 0, VertexField::Y, Util::Int(y))
}

/// Two vertices, the second with a text in this field.
pub fn named_place(alloc: Global, field: VertexField) -> Made {
    let mut graph = Graph::new(alloc, 2)?;
    set_field(&mut graph, 1, field, Util::Text(Text::new(alloc, b"7")?))?;
    Ok(graph)
}

/// Three vertices with these names, and an edge between each two.
// Whoever owns a graph calls little that can fail, since each such call is a way on which the graph is dropped.
pub fn triangle(alloc: Global, first: &[u8], second: &[u8], third: &[u8]) -> Made {
    let mut graph = Graph::new(alloc, 3)?;
    make_triangle(alloc, &mut graph, first, second, third)?;
    Ok(graph)
}

fn make_triangle(
    alloc: Global,
    graph: &mut Graph,
    first: &[u8],
    second: &[u8],
    third: &[u8],
) -> Result<(), Refusal> {
    label(alloc, graph, 0, first)?;
    label(alloc, graph, 1, second)?;
    label(alloc, graph, 2, third)?;
    edge(graph, 0, 1, 1)?;
    edge(graph, 0, 2, 2)?;
    edge(graph, 1, 2, 3)
}

/// One vertex, with this id and this name.
pub fn single(alloc: Global, id: &[u8], name: &[u8]) -> Made {
    let mut graph = Graph::new(alloc, 1)?;
    name_single(alloc, &mut graph, id, name)?;
    Ok(graph)
}

fn name_single(alloc: Global, graph: &mut Graph, id: &[u8], name: &[u8]) -> Result<(), Refusal> {
    set_id(alloc, graph, id)?;
    label(alloc, graph, 0, name)
}

/// The Petersen graph: five vertices in a ring, five in a star, and an edge between each two that are alike.
pub fn petersen(alloc: Global) -> Made {
    let mut graph = Graph::new(alloc, 10)?;
    make_petersen(&mut graph)?;
    Ok(graph)
}

fn make_petersen(graph: &mut Graph) -> Result<(), Refusal> {
    for v in 0..5u32 {
        edge(graph, v, (v + 1) % 5, 1)?;
        edge(graph, v, v + 5, 1)?;
        edge(graph, v + 5, (v + 2) % 5 + 5, 1)?;
    }
    Ok(())
}

/// One vertex, whose arc has this tip.
pub fn leading_to(alloc: Global, tip: Tip) -> Made {
    let arc = ArcPart {
        tip,
        len: 1,
        fields: [Util::Zero, Util::Zero],
        next: None,
    };
    let vertex = VertexPart {
        label: Label::empty(),
        fields: zeros(),
        first: Some(ArcNo(0)),
    };
    let parts = Parts {
        id: Text::new(alloc, b"leading")?,
        types: Types::none(),
        fields: zeros(),
        vertices: Items::from_vec(vec![in alloc; vertex]?),
        arcs: Items::from_vec(vec![in alloc; arc]?),
    };
    Graph::build(alloc, parts)
}

fn zeros() -> [Util; 6] {
    [
        Util::Zero,
        Util::Zero,
        Util::Zero,
        Util::Zero,
        Util::Zero,
        Util::Zero,
    ]
}

/// The text of a graph, or why there is none.
pub fn text_of(alloc: Global, made: &Made, format: Format) -> Result<Vec<u8>, ExportFault> {
    let Ok(graph) = made else {
        return Err(ExportFault::Refused(Refusal::NoRoom));
    };
    let mut writer = MeteredWriter::new(Vec::new(alloc));
    export(alloc, graph, format, &mut writer)?;
    Ok(writer.into_inner())
}

/// Whether the graph has this text. It takes the graph, so that a test has none of its own.
pub fn is_text(alloc: Global, made: Made, format: Format, text: &str) -> bool {
    match text_of(alloc, &made, format) {
        Ok(written) => written.as_slice() == text.as_bytes(),
        Err(_) => false,
    }
}
