//! What refused growths lead to: who asks again has what is asked for. Expected values come from another implementation.

use crate::combine::graphs::{
    complement_of, first, intersection_of_both, is_as, one_edge, product_of_edges, union_of_both,
};
use crate::looks::Made;
use sgb_graph::Refusal;
use std::alloc::Global;

// The calls and their operands. Where a growth is refused, each is asked for once more.
fn complement_again(alloc: Global, graph: &Made, copy: bool) -> Made {
    match complement_of(alloc, graph, copy, true, true) {
        Err(Refusal::NoRoom) => complement_of(alloc, graph, copy, true, true),
        made => made,
    }
}

fn first_again(alloc: Global) -> Made {
    match first(alloc) {
        Err(Refusal::NoRoom) => first(alloc),
        made => made,
    }
}

fn edge_again(alloc: Global) -> Made {
    match one_edge(alloc, 5) {
        Err(Refusal::NoRoom) => one_edge(alloc, 5),
        made => made,
    }
}

// All that the first graph's complement has, and what one edge leaves out.
fn complement_of_first(alloc: Global) -> Made {
    complement_again(alloc, &first_again(alloc), true)
}

fn absences_of_edge(alloc: Global) -> Made {
    complement_again(alloc, &edge_again(alloc), false)
}

fn union_again(alloc: Global) -> Made {
    match union_of_both(alloc, false, false) {
        Err(Refusal::NoRoom) => union_of_both(alloc, false, false),
        made => made,
    }
}

fn intersection_again(alloc: Global) -> Made {
    match intersection_of_both(alloc, false) {
        Err(Refusal::NoRoom) => intersection_of_both(alloc, false),
        made => made,
    }
}

fn product_again(alloc: Global) -> Made {
    match product_of_edges(alloc, 0, false) {
        Err(Refusal::NoRoom) => product_of_edges(alloc, 0, false),
        made => made,
    }
}

#[test]
fn of_complements_are_granted_when_asked_again(rt: HostRuntime) {
    assert!(rt;
        is_as(
            complement_of_first(rt.alloc()),
            b"complement(gb_new_graph(4),1,1,1)",
            &[(0, 1, 1), (1, 0, 1), (1, 1, 1), (2, 0, 1), (3, 3, 1)]
        )
    );
}

#[test]
fn of_absences_are_granted_when_asked_again(rt: HostRuntime) {
    assert!(rt;
        is_as(
            absences_of_edge(rt.alloc()),
            b"complement(gb_new_graph(2),0,1,1)",
            &[(0, 0, 1), (1, 1, 1)]
        )
    );
}

#[test]
fn of_unions_are_granted_when_asked_again(rt: HostRuntime) {
    assert!(rt;
        is_as(
            union_again(rt.alloc()),
            b"gunion(gb_new_graph(4),gb_new_graph(3),0,0)",
            &[
                (0, 1, 5),
                (1, 0, 5),
                (1, 1, 3),
                (1, 1, 3),
                (3, 3, 4),
                (3, 3, 4)
            ]
        )
    );
}

#[test]
fn of_intersections_are_granted_when_asked_again(rt: HostRuntime) {
    assert!(rt;
        is_as(
            intersection_again(rt.alloc()),
            b"intersection(gb_new_graph(4),gb_new_graph(3),0,0)",
            &[(0, 1, 6), (1, 0, 6), (1, 1, 8), (1, 1, 8)]
        )
    );
}

#[test]
fn of_products_are_granted_when_asked_again(rt: HostRuntime) {
    assert!(rt;
        is_as(
            product_again(rt.alloc()),
            b"product(gb_new_graph(2),gb_new_graph(2),0,0)",
            &[
                (0, 2, 5),
                (2, 0, 5),
                (0, 1, 3),
                (1, 0, 3),
                (1, 3, 5),
                (3, 1, 5),
                (2, 3, 3),
                (3, 2, 3)
            ]
        )
    );
}
