//! Graphs to combine, and questions that promise nothing, so that the proof of a test stays short. For the same reason
//! operands and answers are handed about with their refusals, and a function has few graphs of its own.

use crate::looks::Made;
use sgb_combine::{
    ComplementSpec, GunionSpec, ProductSpec, complement, gunion, intersection, product,
};
use sgb_graph::{
    ArcNo, ArcPart, ArcView, Graph, Items, Label, Parts, Refusal, Text, Tip, Types, Util, VertexNo,
    VertexPart,
};
use std::alloc::Global;

/// An arc or an edge from one vertex to another, of this length.
pub type Line = (u32, u32, i64);

/// A graph of n vertices with these edges and then these arcs.
pub fn graph_of(alloc: Global, n: u32, edges: &[Line], arcs: &[Line]) -> Made {
    let mut graph = Graph::new(alloc, n)?;
    insert_lines(&mut graph, edges, arcs)?;
    Ok(graph)
}

fn insert_lines(graph: &mut Graph, edges: &[Line], arcs: &[Line]) -> Result<(), Refusal> {
    insert_edges(graph, edges)?;
    insert_arcs(graph, arcs)
}

/// Inserts these edges.
pub fn insert_edges(graph: &mut Graph, edges: &[Line]) -> Result<(), Refusal> {
    for (from, to, len) in edges {
        graph.new_edge(VertexNo(*from), VertexNo(*to), *len)?;
    }
    Ok(())
}

/// Inserts these arcs.
pub fn insert_arcs(graph: &mut Graph, arcs: &[Line]) -> Result<(), Refusal> {
    for (from, to, len) in arcs {
        graph.new_arc(VertexNo(*from), VertexNo(*to), *len)?;
    }
    Ok(())
}

/// Two edges between 0 and 1, an edge of a loop at 1, an arc from 2 to 0 and one from 3 to itself.
pub fn first(alloc: Global) -> Made {
    graph_of(
        alloc,
        4,
        &[(0, 1, 7), (0, 1, 5), (1, 1, 3)],
        &[(2, 0, 9), (3, 3, 4)],
    )
}

/// An edge between 1 and 0, one of a loop at 1, and an arc from 2 to 1.
pub fn second(alloc: Global) -> Made {
    graph_of(alloc, 3, &[(1, 0, 6), (1, 1, 8)], &[(2, 1, 2)])
}

/// Two vertices and an edge between them.
pub fn one_edge(alloc: Global, len: i64) -> Made {
    graph_of(alloc, 2, &[(0, 1, len)], &[])
}

/// A graph of one vertex whose arc has this tip.
pub fn leading_to(alloc: Global, tip: Tip) -> Made {
    let arc = ArcPart {
        tip,
        len: 1,
        fields: [Util::Zero, Util::Zero],
        next: None,
    };
    let vertex = VertexPart {
        label: Label::empty(),
        fields: zeros(),
        first: Some(ArcNo(0)),
    };
    let parts = Parts {
        id: Text::new(alloc, b"leading")?,
        types: Types::none(),
        fields: zeros(),
        vertices: Items::from_vec(vec![in alloc; vertex]?),
        arcs: Items::from_vec(vec![in alloc; arc]?),
    };
    Graph::build(alloc, parts)
}

fn zeros() -> [Util; 6] {
    [
        Util::Zero,
        Util::Zero,
        Util::Zero,
        Util::Zero,
        Util::Zero,
        Util::Zero,
    ]
}

// An operand. Where it is wanting there is no room, which no test of refusals asks for.
fn operand(made: &Made) -> Result<&Graph, Refusal> {
    match made {
        Ok(graph) => Ok(graph),
        Err(_) => Err(Refusal::NoRoom),
    }
}

/// The calls, by their flags.
pub fn union_of(alloc: Global, first: &Made, second: &Made, multi: bool, directed: bool) -> Made {
    let spec = GunionSpec { multi, directed };
    gunion(alloc, operand(first)?, operand(second)?, &spec)
}

pub fn complement_of(alloc: Global, graph: &Made, copy: bool, loops: bool, directed: bool) -> Made {
    let spec = ComplementSpec {
        copy,
        loops,
        directed,
    };
    complement(alloc, operand(graph)?, &spec)
}

pub fn intersection_of(alloc: Global, first: &Made, second: &Made, directed: bool) -> Made {
    intersection(alloc, operand(first)?, operand(second)?, directed)
}

pub fn product_of(alloc: Global, first: &Made, second: &Made, kind: i64, directed: bool) -> Made {
    let spec = ProductSpec { kind, directed };
    product(alloc, operand(first)?, operand(second)?, &spec)
}

/// The union of the first graph and the second, their intersection, and the product of two edges.
pub fn union_of_both(alloc: Global, multi: bool, directed: bool) -> Made {
    union_of(alloc, &first(alloc), &second(alloc), multi, directed)
}

pub fn intersection_of_both(alloc: Global, directed: bool) -> Made {
    intersection_of(alloc, &first(alloc), &second(alloc), directed)
}

pub fn product_of_edges(alloc: Global, kind: i64, directed: bool) -> Made {
    product_of(
        alloc,
        &one_edge(alloc, 5),
        &one_edge(alloc, 3),
        kind,
        directed,
    )
}

/// Whether it was made, with this id and with these arcs by their numbers.
pub fn is_as(made: Made, id: &[u8], arcs: &[Line]) -> bool {
    has_id(&made, id) && arcs_are(&made, arcs)
}

fn arcs_are(made: &Made, wanted: &[Line]) -> bool {
    match made {
        Ok(graph) => has_arcs(graph, wanted),
        Err(_) => false,
    }
}

fn has_arcs(graph: &Graph, wanted: &[Line]) -> bool {
    if graph.made() as usize != wanted.len() {
        return false;
    }
    let mut lines = wanted.iter();
    for number in 0..graph.made() {
        let arc = graph.arc(ArcNo(number));
        match lines.next() {
            Some(line) if arc == Some(view_of(line)) => {}
            _ => return false,
        }
    }
    true
}

pub fn view_of(line: &Line) -> ArcView {
    ArcView {
        owner: VertexNo(line.0),
        tip: Tip::To(VertexNo(line.1)),
        len: line.2,
    }
}

/// Whether it was made, with this id.
pub fn has_id(made: &Made, id: &[u8]) -> bool {
    match made {
        Ok(graph) => graph.id() == id,
        Err(_) => false,
    }
}

/// How many vertices, and how many arcs.
pub fn counts(made: &Made) -> Option<(u32, u32)> {
    match made {
        Ok(graph) => Some((graph.n(), graph.m())),
        Err(_) => None,
    }
}
