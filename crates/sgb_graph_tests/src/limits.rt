//! The largest graphs.

use crate::edits::{arc, arc_and_back, cut, cut_and_back, edge, new_graph};
use crate::looks::{has_counts, holds, shows};
use sgb_graph::{Graph, MOST_ARCS, MOST_VERTICES, Refusal, VertexNo};
use std::test::Fail;

#[test]
fn no_more_vertices_than_65535(rt: HostRuntime) -> Result<(), Fail> {
    assert!(rt; shows(new_graph(rt.alloc(), 65_536), is_largest) == Err(Refusal::TooLarge));
    assert!(rt; shows(new_graph(rt.alloc(), 65_535), is_largest)?);
    Ok(())
}

fn is_largest(graph: &Graph) -> bool {
    graph.n() == 65_535
}

// Makes so many arcs in a graph of 65,535 vertices.
fn add_arcs(graph: &mut Graph, count: u32) -> Result<(), Refusal> {
    for number in 0..count {
        arc(graph, number % MOST_VERTICES, 7, 1)?;
    }
    Ok(())
}

// Cuts the first arcs.
fn cut_all(graph: &mut Graph, count: u32) -> Result<(), Refusal> {
    for number in 0..count {
        cut(graph, number)?;
    }
    Ok(())
}

#[test]
fn no_more_numbers_than_a_million(rt: HostRuntime) -> Result<(), Fail> {
    assert!(rt; holds(new_graph(rt.alloc(), MOST_VERTICES), is_filled_up)?);
    Ok(())
}

fn is_filled_up(graph: &mut Graph) -> Result<bool, Refusal> {
    add_arcs(graph, 999_999)?;
    Ok(
        edge(graph, 0, 1, 1) == Err(Refusal::TooLarge)
            && arc_and_back(graph, 0, 1)? == 999_999
            && arc(graph, 0, 1, 1)? == 999_999
            && arc(graph, 0, 1, 1) == Err(Refusal::TooLarge)
            && stays_full(graph)?,
    )
}

// Whether there are no numbers left where all arcs are cut.
fn stays_full(graph: &mut Graph) -> Result<bool, Refusal> {
    cut_all(graph, 1_000_000)?;
    Ok(has_counts(graph, 1_000_000, 0) && arc(graph, 0, 1, 1) == Err(Refusal::TooLarge))
}

// How many arcs all lists have.
fn listed(graph: &Graph) -> u32 {
    let mut walked = 0u32;
    for vertex in 0..graph.n() {
        for _number in graph.arcs(VertexNo(vertex)) {
            walked = walked.wrapping_add(1);
        }
    }
    walked
}

#[test]
fn the_largest_graph(rt: HostRuntime) -> Result<(), Fail> {
    assert!(rt; holds(new_graph(rt.alloc(), MOST_VERTICES), is_walked_and_cut)?);
    Ok(())
}

fn is_walked_and_cut(graph: &mut Graph) -> Result<bool, Refusal> {
    add_arcs(graph, MOST_ARCS)?;
    if listed(graph) != MOST_ARCS {
        return Ok(false);
    }
    for number in 0..1000u32 {
        if cut_and_back(graph, number * 999)? != Some(999_999) {
            return Ok(false);
        }
    }
    Ok(has_counts(graph, MOST_ARCS, MOST_ARCS))
}
