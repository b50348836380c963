use crate::standard::petersen;
use sgb_combine::{LengthsSpec, random_lengths, revert_lengths};
use sgb_flip::Flip;
use sgb_graph::{Graph, Refusal};
use sgb_make::Seed;
use std::alloc::Global;
use std::test::Fail;

/// Draws new lengths, and takes them and their draws back.
fn draw_and_back(alloc: Global, graph: &mut Graph, flip: &mut Flip) -> Result<(), Refusal> {
    let spec = LengthsSpec {
        directed: false,
        min: 1,
        max: 1000,
    };
    let (delta, draws) = random_lengths(alloc, graph, flip, &spec, Seed::Number(5))?;
    flip.back_by(draws);
    revert_lengths(graph, delta);
    Ok(())
}

/// Whether a graph is the Petersen graph, with its lengths and its id.
fn is_petersen(alloc: Global, graph: &Graph) -> Result<bool, Refusal> {
    Ok(petersen(alloc)? == *graph)
}

#[test]
fn lengths_are_drawn_and_taken_back(rt: HostRuntime) -> Result<(), Fail> {
    let mut graph = petersen(rt.alloc())?;
    let mut flip = Flip::new(5);
    draw_and_back(rt.alloc(), &mut graph, &mut flip)?;
    assert!(rt; flip == Flip::new(5));
    assert!(rt; is_petersen(rt.alloc(), &graph)?);
    Ok(())
}
