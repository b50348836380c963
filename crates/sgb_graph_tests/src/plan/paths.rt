// The example of a generator.
use crate::plan::path;
use sgb_graph::{Graph, Refusal};
use std::process::Abort;
use std::test::Fail;

#[test]
fn three_in_a_row(rt: HostRuntime) -> Result<(), Fail> {
    let graph = path(rt.alloc(), 3, true)?;
    look_at_three(&rt, &graph);
    Ok(())
}

fn look_at_three(rt: &impl Abort, graph: &Graph) {
    assert!(rt; graph.id() == b"path(3)".as_slice());
    assert!(rt; graph.n() == 3);
    assert!(rt; graph.m() == 2);
}

#[test]
fn refused(rt: HostRuntime) -> Result<(), Fail> {
    assert!(rt; path(rt.alloc(), 0, false).err() == Some(Refusal::BadSpecs));
    assert!(rt; path(rt.alloc(), 65_536, true).err() == Some(Refusal::TooLarge));
    let longest = path(rt.alloc(), 65_535, false)?;
    assert!(rt; longest.made() == 131_068);
    Ok(())
}
