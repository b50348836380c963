//! Arcs and edges: their numbers, their order, and cuts.

use crate::edits::{
    add_star, arc, arc_and_back, cut, cut_and_back, edge, edge_and_back, new_graph,
};
use crate::looks::{has_counts, has_id, holds, is_arc, is_followed_by, is_hole, lists, shows};
use sgb_graph::{ArcNo, Graph, Refusal};
use std::test::Fail;

#[test]
fn a_new_graph_is_bare(rt: HostRuntime) -> Result<(), Fail> {
    assert!(rt; shows(new_graph(rt.alloc(), 4), is_bare)?);
    Ok(())
}

fn is_bare(graph: &Graph) -> bool {
    graph.n() == 4
        && has_counts(graph, 0, 0)
        && has_id(graph, b"gb_new_graph(4)")
        && graph.types().letters().as_slice() == b"ZZZZZZZZZZZZZZ".as_slice()
}

#[test]
fn arcs_stand_newest_first(rt: HostRuntime) -> Result<(), Fail> {
    assert!(rt; holds(new_graph(rt.alloc(), 4), are_newest_first)?);
    Ok(())
}

fn are_newest_first(graph: &mut Graph) -> Result<bool, Refusal> {
    Ok(
        arc(graph, 0, 1, 1)? == 0
            && arc(graph, 0, 2, 2)? == 1
            && arc(graph, 0, 3, 3)? == 2
            && lists(graph, 0, &[2, 1, 0])
            && is_arc(graph, 1, 0, 2, 2)
            && is_followed_by(graph, 2, Some(ArcNo(1)))
            && is_followed_by(graph, 0, None)
            && arc(graph, 0, 4, 1) == Err(Refusal::BadOperand),
    )
}

#[test]
fn an_edge_has_two_halves(rt: HostRuntime) -> Result<(), Fail> {
    assert!(rt; holds(new_graph(rt.alloc(), 2), have_two_halves)?);
    Ok(())
}

fn have_two_halves(graph: &mut Graph) -> Result<bool, Refusal> {
    Ok(
        edge(graph, 1, 0, 5)? == 0
            && lists(graph, 0, &[0])
            && lists(graph, 1, &[1])
            && is_arc(graph, 0, 0, 1, 5)
            && is_arc(graph, 1, 1, 0, 5)
            && edge(graph, 0, 0, 3)? == 2
            && lists(graph, 0, &[2, 3, 0]),
    )
}

#[test]
fn a_cut_arc_comes_back(rt: HostRuntime) -> Result<(), Fail> {
    assert!(rt; holds(new_graph(rt.alloc(), 4), come_back)?);
    Ok(())
}

fn come_back(graph: &mut Graph) -> Result<bool, Refusal> {
    add_star(graph)?;
    Ok(comes_back(graph, 0)? && comes_back(graph, 1)? && comes_back(graph, 2)?)
}

// Whether the star is as it was behind a cut of this arc that is taken back.
fn comes_back(graph: &mut Graph, number: u32) -> Result<bool, Refusal> {
    Ok(
        cut_and_back(graph, number)? == Some(2)
            && has_counts(graph, 3, 3)
            && lists(graph, 0, &[2, 1, 0])
            && is_arc(
                graph,
                number,
                0,
                number.wrapping_add(1),
                i64::from(number) + 1,
            ),
    )
}

#[test]
fn a_cut_arc_leaves_a_hole(rt: HostRuntime) -> Result<(), Fail> {
    assert!(rt; holds(new_graph(rt.alloc(), 4), leaves_a_hole)?);
    Ok(())
}

fn leaves_a_hole(graph: &mut Graph) -> Result<bool, Refusal> {
    add_star(graph)?;
    cut(graph, 1)?;
    Ok(is_hole(graph, 1) && lists(graph, 0, &[2, 0]) && cut(graph, 1) == Err(Refusal::BadOperand))
}

#[test]
fn an_undone_edge_gives_its_numbers_back(rt: HostRuntime) -> Result<(), Fail> {
    assert!(rt; holds(new_graph(rt.alloc(), 2), give_numbers_back)?);
    Ok(())
}

fn give_numbers_back(graph: &mut Graph) -> Result<bool, Refusal> {
    Ok(
        edge_and_back(graph, 0, 1, &[0])?
            && has_counts(graph, 0, 0)
            && arc(graph, 0, 1, 1)? == 0
            && edge_and_back(graph, 0, 0, &[1, 2, 0])?
            && lists(graph, 0, &[0])
            && arc_and_back(graph, 1, 1)? == 1
            && has_counts(graph, 1, 1),
    )
}
