//! The lengths that seeds 0 and 5 give, and the order of the refusals.

use crate::combine::graphs::{has_id, one_edge};
use crate::combine::lengths::graphs::{
    Kept, has_lengths, keeps_id, keeps_lengths, kept, lengthen, lengthen_and_back, mixed, paired,
    without,
};
use crate::looks::Made;
use sgb_combine::LengthsSpec;
use sgb_flip::Flip;
use sgb_graph::Refusal;
use sgb_plan::Seed;
use std::alloc::Global;

fn spec(directed: bool, min: i64, max: i64) -> LengthsSpec {
    LengthsSpec { directed, min, max }
}

// The number of draws where the graph has lengths of one die, of seed 0.
fn draws_of_a_die(alloc: Global, made: &mut Made) -> Option<u64> {
    let mut flip = Flip::new(0);
    lengthen(alloc, made, &mut flip, &spec(false, 1, 6), Seed::Current).ok()
}

#[test]
fn an_edge_has_one_length(rt: HostRuntime) {
    assert!(rt; lengthens_edge(rt.alloc(), one_edge(rt.alloc(), 9)));
}

fn lengthens_edge(alloc: Global, mut made: Made) -> bool {
    draws_of_a_die(alloc, &mut made) == Some(1)
        && has_lengths(&made, &[5, 5])
        && has_id(&made, b"random_lengths(gb_new_graph(2),0,1,6,0,-)")
}

// The number that a generator of seed 0 gives once lengths and their draws were taken back.
fn next_after_both(alloc: Global, made: &mut Made) -> Option<u32> {
    let mut flip = Flip::new(0);
    let draws = lengthen_and_back(alloc, made, &mut flip, &spec(false, 1, 6)).ok()?;
    flip.back_by(draws);
    Some(flip.next())
}

#[test]
fn lengths_are_taken_back(rt: HostRuntime) {
    assert!(rt; takes_back(rt.alloc(), one_edge(rt.alloc(), 9)));
}

fn takes_back(alloc: Global, mut made: Made) -> bool {
    next_after_both(alloc, &mut made) == Some(2029883356)
        && has_lengths(&made, &[9, 9])
        && has_id(&made, b"gb_new_graph(2)")
}

// The number of draws where the graph has lengths up to 1,000, of seed 5.
fn draws(alloc: Global, made: &mut Made, directed: bool) -> Option<u64> {
    let mut flip = Flip::new(5);
    let spec = spec(directed, 1, 1000);
    lengthen(alloc, made, &mut flip, &spec, Seed::Number(5)).ok()
}

#[test]
fn every_arc_draws_where_arcs_are_meant(rt: HostRuntime) {
    assert!(rt; lengthens_mixed(rt.alloc(), mixed(rt.alloc())));
}

fn lengthens_mixed(alloc: Global, mut made: Made) -> bool {
    draws(alloc, &mut made, true) == Some(6)
        && has_lengths(&made, &[978, 122, 709, 205, 776, 467])
        && has_id(&made, b"random_lengths(gb_new_graph(4),1,1,1000,0,5)")
}

#[test]
fn other_halves_do_not_draw(rt: HostRuntime) {
    assert!(rt; lengthens_paired(rt.alloc(), paired(rt.alloc())));
}

fn lengthens_paired(alloc: Global, mut made: Made) -> bool {
    draws(alloc, &mut made, false) == Some(4)
        && has_lengths(&made, &[467, 467, 978, 978, 709, 709, 122, 122])
}

#[test]
fn the_delta_keeps_lengths_and_id(rt: HostRuntime) {
    assert!(rt; is_kept(kept_of_mixed(rt.alloc())));
}

fn kept_of_mixed(alloc: Global) -> Kept {
    let mut made = without(mixed(alloc), 0);
    kept(alloc, &mut made, &spec(true, 0, 9))
}

fn is_kept(kept: Kept) -> bool {
    keeps_lengths(&kept, &[0, 8, 8, 2, 2, 9]) && keeps_id(&kept, b"gb_new_graph(4)")
}

// The refusal of lengths for this graph, and what a generator of seed 0 gives then.
fn refusal(alloc: Global, made: &mut Made, min: i64, max: i64) -> (Option<Refusal>, u32) {
    let mut flip = Flip::new(0);
    let spec = spec(false, min, max);
    let refusal = lengthen(alloc, made, &mut flip, &spec, Seed::Current).err();
    (refusal, flip.next())
}

// Whether lengths are refused so, and the generator still gives its first number.
fn refuses(alloc: Global, made: &mut Made, min: i64, max: i64, wanted: Refusal) -> bool {
    refusal(alloc, made, min, max) == (Some(wanted), 2029883356u32)
}

#[test]
fn refusals_have_their_order(rt: HostRuntime) {
    assert!(rt; refuses_lengths(rt.alloc(), without(one_edge(rt.alloc(), 9), 1)));
}

fn refuses_lengths(alloc: Global, mut made: Made) -> bool {
    refuses(alloc, &mut made, 5, 4, Refusal::TooLarge)
        && refuses(alloc, &mut made, 0, 2147483648, Refusal::LengthRange)
        && refuses(alloc, &mut made, 1, 6, Refusal::BadOperand)
        && has_lengths(&made, &[9, -1])
}
