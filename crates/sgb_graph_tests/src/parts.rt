//! Graphs from their saved parts.

use crate::looks::{has_counts, has_id, is_arc, is_hole, lists, shows};
use sgb_graph::{
    ArcNo, ArcPart, Graph, Items, Label, Parts, Refusal, Text, Tip, Types, Util, VertexNo,
    VertexPart,
};
use std::alloc::Global;
use std::test::Fail;

fn zeros() -> [Util; 6] {
    [
        Util::Zero,
        Util::Zero,
        Util::Zero,
        Util::Zero,
        Util::Zero,
        Util::Zero,
    ]
}

// A vertex with the number 7 in its last field, and a number 0 in its first.
fn vertex(alloc: Global, label: &[u8], first: Option<ArcNo>) -> Result<VertexPart, Refusal> {
    let label = Label::new(Text::new(alloc, label)?);
    let fields = [
        Util::Int(0),
        Util::Zero,
        Util::Zero,
        Util::Zero,
        Util::Zero,
        Util::Int(7),
    ];
    Ok(VertexPart {
        label,
        fields,
        first,
    })
}

fn record(tip: u32, value: Util, next: Option<ArcNo>) -> ArcPart {
    ArcPart {
        tip: Tip::To(VertexNo(tip)),
        len: 5,
        fields: [value, Util::Vertex(VertexNo(1))],
        next,
    }
}

// The records of an edge that names its second arc, and one that no chain reaches. A next arc is the same for all.
fn records(alloc: Global, next: Option<ArcNo>) -> Result<Items<ArcPart>, Refusal> {
    let mut arcs = Items::new(alloc);
    arcs.reserve(3)?;
    arcs.push(record(1, Util::Arc(ArcNo(1)), next))?;
    arcs.push(record(0, Util::Zero, next))?;
    arcs.push(record(9, Util::Arc(ArcNo(9)), next))?;
    Ok(arcs)
}

// Two vertices of these records, with their first arcs.
fn two_vertices(
    alloc: Global,
    first: Option<ArcNo>,
    second: Option<ArcNo>,
    arcs: Items<ArcPart>,
) -> Result<Parts, Refusal> {
    let vertices = vec![in alloc; vertex(alloc, b"a", first)?, vertex(alloc, b"b", second)?]?;
    Ok(Parts {
        id: Text::new(alloc, b"two")?,
        types: Types::none(),
        fields: zeros(),
        vertices: Items::from_vec(vertices),
        arcs,
    })
}

// The graph of these vertices, where the arcs are followed by none or by this one.
fn graph_of_parts(
    alloc: Global,
    first: Option<ArcNo>,
    second: Option<ArcNo>,
    next: Option<ArcNo>,
) -> Result<Graph, Refusal> {
    let parts = two_vertices(alloc, first, second, records(alloc, next)?)?;
    Graph::build(alloc, parts)
}

// The graph of an edge.
fn one_edge(alloc: Global) -> Result<Graph, Refusal> {
    graph_of_parts(alloc, Some(ArcNo(0)), Some(ArcNo(1)), None)
}

// Where a growth is refused, the graph is asked for once more.
fn one_edge_again(alloc: Global) -> Result<Graph, Refusal> {
    match one_edge(alloc) {
        Err(Refusal::NoRoom) => one_edge(alloc),
        built => built,
    }
}

#[test]
fn a_graph_of_parts(rt: HostRuntime) -> Result<(), Fail> {
    assert!(rt; shows(one_edge_again(rt.alloc()), is_one_edge)?);
    Ok(())
}

fn is_one_edge(graph: &Graph) -> bool {
    has_id(graph, b"two")
        && has_counts(graph, 3, 2)
        && lists(graph, 0, &[0])
        && is_arc(graph, 0, 0, 1, 5)
        && is_arc(graph, 1, 1, 0, 5)
        && is_hole(graph, 2)
}

fn why_refused(
    alloc: Global,
    first: u32,
    second: Option<ArcNo>,
    next: Option<ArcNo>,
) -> Option<Refusal> {
    graph_of_parts(alloc, Some(ArcNo(first)), second, next).err()
}

#[test]
fn parts_of_no_graph(rt: HostRuntime) {
    for (first, second) in [
        (0, Some(ArcNo(0))),
        (0, Some(ArcNo(3))),
        (2, Some(ArcNo(1))),
        (1, Some(ArcNo(2))),
        (0, None),
    ] {
        let refused = why_refused(rt.alloc(), first, second, None);
        assert!(rt; refused == Some(Refusal::BadOperand));
    }
}

// Each arc is followed by the first.
#[test]
fn a_chain_that_returns(rt: HostRuntime) {
    let refused = why_refused(rt.alloc(), 0, Some(ArcNo(1)), Some(ArcNo(0)));
    assert!(rt; refused == Some(Refusal::BadOperand));
}

// How many items there are before and after one is added, and whether the list then is the one of these numbers.
fn pushed(alloc: Global, number: u32, numbers: &[u32]) -> Result<(usize, usize, bool), Refusal> {
    let mut items = Items::from_vec(vec![in alloc; 7u32]?);
    let before = items.len();
    items.push(number)?;
    let after = items.len();
    let is_same = items.as_slice() == numbers && !items.is_empty();
    let len = items.into_vec().len();
    Ok((before, after, is_same && len == after))
}

#[test]
fn items_are_added_last(rt: HostRuntime) -> Result<(), Fail> {
    assert!(rt; pushed(rt.alloc(), 9, &[7, 9])? == (1, 2, true));
    assert!(rt; Items::from_vec(vec![in rt.alloc(); 7u32]?) != Items::new(rt.alloc()));
    Ok(())
}
