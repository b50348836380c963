//! Edits whose deltas are not kept, and edits that are undone at once.

use crate::looks::{is_hole, lists};
use sgb_graph::{ArcNo, Graph, Refusal, Text, VertexNo};
use std::alloc::Global;

/// A graph of so many vertices.
pub fn new_graph(alloc: Global, n: u32) -> Result<Graph, Refusal> {
    Graph::new(alloc, n)
}

/// The text of these bytes.
pub fn text(alloc: Global, bytes: &[u8]) -> Result<Text, Refusal> {
    Text::new(alloc, bytes)
}

/// A text of so many letters.
pub fn letters(alloc: Global, count: usize) -> Result<Text, Refusal> {
    let bytes = vec![in alloc; b'a'; count]?;
    text(alloc, &bytes)
}

/// A new arc's number.
pub fn arc(graph: &mut Graph, from: u32, to: u32, len: i64) -> Result<u32, Refusal> {
    let (number, _delta) = graph.new_arc(VertexNo(from), VertexNo(to), len)?;
    Ok(number.0)
}

/// A new edge's first number.
pub fn edge(graph: &mut Graph, from: u32, to: u32, len: i64) -> Result<u32, Refusal> {
    let (number, _delta) = graph.new_edge(VertexNo(from), VertexNo(to), len)?;
    Ok(number.0)
}

/// Cuts an arc.
pub fn cut(graph: &mut Graph, number: u32) -> Result<(), Refusal> {
    let _delta = graph.cut(ArcNo(number))?;
    Ok(())
}

/// Makes a star of a graph: its first vertex gets an arc of length k to vertex k, for k from 1 up to 3.
pub fn add_star(graph: &mut Graph) -> Result<(), Refusal> {
    arc(graph, 0, 1, 1)?;
    arc(graph, 0, 2, 2)?;
    arc(graph, 0, 3, 3)?;
    Ok(())
}

/// Makes an arc and takes it back; answers its number.
pub fn arc_and_back(graph: &mut Graph, from: u32, to: u32) -> Result<u32, Refusal> {
    let (number, delta) = graph.new_arc(VertexNo(from), VertexNo(to), 1)?;
    graph.revert(delta);
    Ok(number.0)
}

/// Makes an edge and takes it back; answers whether its first vertex listed these numbers between.
pub fn edge_and_back(
    graph: &mut Graph,
    from: u32,
    to: u32,
    numbers: &[u32],
) -> Result<bool, Refusal> {
    let (_number, delta) = graph.new_edge(VertexNo(from), VertexNo(to), 5)?;
    let seen = lists(graph, from, numbers);
    graph.revert(delta);
    Ok(seen)
}

/// Cuts an arc and takes the cut back; answers how many arcs lived between, where there was a hole.
pub fn cut_and_back(graph: &mut Graph, number: u32) -> Result<Option<u32>, Refusal> {
    let delta = graph.cut(ArcNo(number))?;
    let live = if is_hole(graph, number) {
        Some(graph.m())
    } else {
        None
    };
    graph.revert(delta);
    Ok(live)
}
