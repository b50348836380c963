// Lists that stand for longer ones. The small functions promise nothing, so that the proof of a test stays short.
use sgb_graph::Refusal;
use sgb_plan::{list_of, shown_at};
use std::alloc::Global;
use std::test::Fail;

// Whether the list is this one.
fn is_listed(alloc: Global, numbers: &[i64], more: u32, wanted: &[u64]) -> bool {
    match list_of(alloc, numbers, more, 16) {
        Ok(list) => list.as_slice() == wanted,
        Err(_) => false,
    }
}

#[test]
fn lists(rt: HostRuntime) -> Result<(), Fail> {
    let alloc = rt.alloc();
    assert!(rt; is_listed(alloc, &[3, 4, 0, 9], 0, &[3, 4]));
    assert!(rt; is_listed(alloc, &[3, 4, 5, 6], 0, &[3, 4, 5, 6]));
    assert!(rt; is_listed(alloc, &[3, 4, -5, 9], 0, &[3, 4, 3, 4, 3]));
    assert!(rt; is_listed(alloc, &[3, 4, 5, -2], 0, &[3, 4]));
    assert!(rt; is_listed(alloc, &[3, 4, -2, 9, 9], 1, &[3, 4, 3]));
    Ok(())
}

// How long the list is, or why there is none.
fn length(alloc: Global, numbers: &[i64], more: u32) -> Result<usize, Refusal> {
    Ok(list_of(alloc, numbers, more, 16)?.len())
}

#[test]
fn longest(rt: HostRuntime) -> Result<(), Fail> {
    let alloc = rt.alloc();
    assert!(rt; length(alloc, &[1, -16], 0) == Ok(16));
    assert!(rt; length(alloc, &[1, -16], 1) == Err(Refusal::BadSpecs));
    assert!(rt; length(alloc, &[1, i64::MIN], 1) == Err(Refusal::BadSpecs));
    Ok(())
}

#[test]
fn shown(rt: HostRuntime) -> Result<(), Fail> {
    let numbers = [3, 4, -5, 9];
    assert!(rt; shown_at(&numbers, 1) == 4);
    assert!(rt; shown_at(&numbers, 2) == -5);
    assert!(rt; shown_at(&numbers, 3) == 0);
    Ok(())
}
