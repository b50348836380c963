//! What a refused growth leads to: no room, and the same call makes the graph when it is asked again.

use crate::looks::{Counts, Made, counts, has_label, lists};
use sgb_graph::Refusal;
use sgb_make::{
    BinarySpec, BoardSpec, PermsSpec, SimplexSpec, SubsetsSpec, binary, board, perms, simplex,
    subsets,
};
use std::alloc::Global;

// A board of these sizes.
fn board_of(alloc: Global, n1: i64, n2: i64, piece: i64, wrap: i64, directed: bool) -> Made {
    let spec = BoardSpec {
        n1,
        n2,
        n3: 0,
        n4: 0,
        piece,
        wrap,
        directed,
    };
    match board(alloc, &spec) {
        Err(Refusal::NoRoom) => board(alloc, &spec),
        made => made,
    }
}

fn counts_of_board(alloc: Global, n1: i64, n2: i64, piece: i64) -> Counts {
    counts(&board_of(alloc, n1, n2, piece, 0, false))
}

fn counts_of_rides(alloc: Global) -> Counts {
    counts(&board_of(alloc, 2, 2, -5, 1, true))
}

// Whether a rook's board of 3 by 4 is as it should be.
fn is_rook(alloc: Global) -> bool {
    let rook = board_of(alloc, 3, 4, -1, 0, false);
    counts(&rook) == Ok((12, 60, 60)) && lists(&rook, 6, &[(10, 1), (2, 1), (7, 1), (5, 1), (4, 2)])
}

#[test]
fn of_rides(rt: HostRuntime) {
    assert!(rt; counts_of_rides(rt.alloc()) == Ok((4, 4, 4)));
    assert!(rt; is_rook(rt.alloc()));
}

#[test]
fn of_moves(rt: HostRuntime) {
    assert!(rt; counts_of_board(rt.alloc(), 3, 3, 5) == Ok((9, 16, 16)));
    assert!(rt; counts_of_board(rt.alloc(), 2, -3, 1) == Ok((8, 24, 24)));
    assert!(rt; counts_of_board(rt.alloc(), 3, 3, 3) == Ok((9, 0, 0)));
}

// A simplex of these bounds.
fn counts_of_simplex(alloc: Global, n: i64, n0: i64, n1: i64) -> Counts {
    let spec = SimplexSpec {
        n,
        n0,
        n1,
        n2: 0,
        n3: 0,
        n4: 0,
        directed: false,
    };
    match simplex(alloc, &spec) {
        Err(Refusal::NoRoom) => counts(&simplex(alloc, &spec)),
        made => counts(&made),
    }
}

#[test]
fn of_simplices(rt: HostRuntime) {
    assert!(rt; counts_of_simplex(rt.alloc(), 2, 0, 0) == Ok((6, 18, 18)));
    assert!(rt; counts_of_simplex(rt.alloc(), 2, 1, -3) == Ok((6, 24, 24)));
    assert!(rt; counts_of_simplex(rt.alloc(), 3, 1, 1) == Ok((0, 0, 0)));
}

// The subsets of these bounds that have nothing in common.
fn counts_of_subsets(alloc: Global, n: i64, n0: i64, n1: i64, directed: bool) -> Counts {
    let spec = SubsetsSpec {
        n,
        n0,
        n1,
        n2: 0,
        n3: 0,
        n4: 0,
        size_bits: 1,
        directed,
    };
    match subsets(alloc, &spec) {
        Err(Refusal::NoRoom) => counts(&subsets(alloc, &spec)),
        made => counts(&made),
    }
}

#[test]
fn of_subsets(rt: HostRuntime) {
    assert!(rt; counts_of_subsets(rt.alloc(), 2, 1, -4, true) == Ok((10, 15, 15)));
    assert!(rt; counts_of_subsets(rt.alloc(), 2, 1, -4, false) == Ok((10, 30, 30)));
    assert!(rt; counts_of_subsets(rt.alloc(), 40, 40, 40, true) == Ok((41, 1, 1)));
}

// The permutations of three.
fn hexagon(alloc: Global) -> Made {
    let spec = PermsSpec {
        n0: 1,
        n1: -2,
        n2: 0,
        n3: 0,
        n4: 0,
        max_inv: 0,
        directed: false,
    };
    match perms(alloc, &spec) {
        Err(Refusal::NoRoom) => perms(alloc, &spec),
        made => made,
    }
}

fn is_hexagon(made: &Made) -> bool {
    counts(made) == Ok((6, 12, 12)) && has_label(made, 5, b"210")
}

#[test]
fn of_permutations(rt: HostRuntime) {
    assert!(rt; is_hexagon(&hexagon(rt.alloc())));
}

// The trees with so many dots and at most this height.
fn trees(alloc: Global, n: i64, max_height: i64, directed: bool) -> Made {
    let spec = BinarySpec {
        n,
        max_height,
        directed,
    };
    match binary(alloc, &spec) {
        Err(Refusal::NoRoom) => binary(alloc, &spec),
        made => made,
    }
}

fn counts_of_trees(alloc: Global, n: i64, max_height: i64) -> Counts {
    counts(&trees(alloc, n, max_height, false))
}

fn are_low_trees(made: &Made) -> bool {
    counts(made) == Ok((6, 5, 5)) && has_label(made, 0, b"...xx.xxx")
}

#[test]
fn of_trees(rt: HostRuntime) {
    assert!(rt; are_low_trees(&trees(rt.alloc(), 4, 3, true)));
    assert!(rt; counts_of_trees(rt.alloc(), 8, 3) == Ok((0, 0, 0)));
    assert!(rt; counts_of_trees(rt.alloc(), 3, 0) == Ok((5, 10, 10)));
}
