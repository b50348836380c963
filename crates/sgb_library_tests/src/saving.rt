use crate::standard::petersen;
use sgb_graph::{Graph, Refusal};
use sgb_text::{CheckRule, restore, save};
use std::alloc::Global;
use std::test::Fail;

/// Whether a graph is saved as it is, and comes back from its text.
fn comes_back(alloc: Global, graph: &Graph) -> Result<bool, Refusal> {
    let saved = save(alloc, graph)?;
    let restored = restore(alloc, saved.text.as_slice(), CheckRule::Match)?;
    Ok(saved.cleaned == 0 && restored == *graph)
}

#[test]
fn a_saved_graph_comes_back(rt: HostRuntime) -> Result<(), Fail> {
    let graph = petersen(rt.alloc())?;
    assert!(rt; comes_back(rt.alloc(), &graph)?);
    let refused = restore(rt.alloc(), b"no graph", CheckRule::Any).err();
    assert!(rt; refused == Some(Refusal::Syntax));
    Ok(())
}
