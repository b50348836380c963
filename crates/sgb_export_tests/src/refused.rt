//! Graphs that have no text of a format.

use crate::graphs::{
    Made, leading_to, loops, named_place, one_arc, one_edge, text_of, triangle, two_edges, uneven,
};
use sgb_export::{ExportFault, Format, check_export, export};
use sgb_graph::{Graph, Refusal, Tip, VertexField};
use sgb_print::MeteredWriter;
use std::alloc::Global;

const BAD: Option<ExportFault> = Some(ExportFault::Refused(Refusal::BadOperand));

fn fault_of(alloc: Global, made: Made, format: Format) -> Option<ExportFault> {
    text_of(alloc, &made, format).err()
}

// What is told of an arc with this tip.
fn fault_of_tip(alloc: Global, tip: Tip, format: Format) -> Option<ExportFault> {
    fault_of(alloc, leading_to(alloc, tip), format)
}

#[test]
fn arcs_to_no_vertex(rt: HostRuntime) {
    assert!(rt; fault_of_tip(rt.alloc(), Tip::Zero, Format::Dimacs) == BAD);
    assert!(rt; fault_of_tip(rt.alloc(), Tip::One, Format::Edges) == BAD);
    assert!(rt; fault_of_tip(rt.alloc(), Tip::One, Format::Dot) == BAD);
}

// What is told where these names stand for the vertices.
fn fault_of_names(alloc: Global, second: &[u8], third: &[u8]) -> Option<ExportFault> {
    let named = triangle(alloc, b"a", second, third);
    fault_of(alloc, named, Format::NamedEdges)
}

#[test]
fn names_that_do_not_stand_for_vertices(rt: HostRuntime) {
    assert!(rt; fault_of_names(rt.alloc(), b"b", b"c").is_none());
    assert!(rt; fault_of_names(rt.alloc(), b"b", b"") == BAD);
    assert!(rt; fault_of_names(rt.alloc(), b"b", b"a") == BAD);
}

#[test]
fn names_that_a_line_cannot_hold(rt: HostRuntime) {
    assert!(rt; fault_of_names(rt.alloc(), b"b ", b"c") == BAD);
    assert!(rt; fault_of_names(rt.alloc(), b"#b", b"c") == BAD);
}

// Whether an edge is accepted, and an arc, halves of two lengths, a loop and a repeated edge are refused.
fn are_bad(alloc: Global, format: Format) -> bool {
    fault_of(alloc, one_edge(alloc), format).is_none()
        && fault_of(alloc, one_arc(alloc), format) == BAD
        && fault_of(alloc, uneven(alloc), format) == BAD
        && fault_of(alloc, loops(alloc, false), format) == BAD
        && fault_of(alloc, two_edges(alloc), format) == BAD
}

#[test]
fn arcs_loops_and_repeated_edges(rt: HostRuntime) {
    assert!(rt; are_bad(rt.alloc(), Format::Col));
    assert!(rt; are_bad(rt.alloc(), Format::Graph6));
}

// What is told where a vertex has a text in this field.
fn fault_of_place(alloc: Global, field: VertexField) -> Option<ExportFault> {
    fault_of(alloc, named_place(alloc, field), Format::PlacedDot)
}

#[test]
fn texts_as_positions(rt: HostRuntime) {
    assert!(rt; fault_of_place(rt.alloc(), VertexField::W).is_none());
    assert!(rt; fault_of_place(rt.alloc(), VertexField::X) == BAD);
    assert!(rt; fault_of_place(rt.alloc(), VertexField::Y) == BAD);
    assert!(rt; fault_of_place(rt.alloc(), VertexField::Z).is_none());
}

// What is told of a graph before it is written.
fn told(alloc: Global, made: &Made, format: Format) -> Result<(), Refusal> {
    match made {
        Ok(graph) => check_export(alloc, graph, format),
        Err(_) => Err(Refusal::NoRoom),
    }
}

#[test]
fn checked(rt: HostRuntime) {
    let same = triangle(rt.alloc(), b"a", b"b", b"a");
    assert!(rt; told(rt.alloc(), &same, Format::NamedEdges) == Err(Refusal::BadOperand));
    assert!(rt; told(rt.alloc(), &same, Format::Edges) == Ok(()));
}

// How many bytes a writer gets of a graph that is refused.
fn written(alloc: Global, graph: &Graph) -> Option<usize> {
    let mut writer = MeteredWriter::new(Vec::new(alloc));
    match export(alloc, graph, Format::NamedEdges, &mut writer) {
        Err(ExportFault::Refused(Refusal::BadOperand)) => Some(writer.into_inner().len()),
        _ => None,
    }
}

fn written_of(alloc: Global, made: &Made) -> Option<usize> {
    match made {
        Ok(graph) => written(alloc, graph),
        Err(_) => None,
    }
}

#[test]
fn nothing_is_written(rt: HostRuntime) {
    let same = triangle(rt.alloc(), b"a", b"b", b"a");
    assert!(rt; written_of(rt.alloc(), &same) == Some(0));
}
