// Random graphs of a generator of their own. The numbers of seed 0 are 2029883356, 2073281797, 759676350, 50666240 and more.
use crate::looks::Made;
use sgb_flip::Flip;
use sgb_graph::Refusal;
use sgb_make::{RandomSpec, Seed, random, random_graph};
use std::alloc::Global;

// How many vertices, arcs and draws there are, and the number that follows them. Where a growth is refused, the graph
// is asked for once more.
fn drawn(alloc: Global, spec: &RandomSpec) -> Result<(u32, u32, u64, u32), Refusal> {
    let (graph, mut flip, draws) = match random_graph(alloc, spec, 0) {
        Err(Refusal::NoRoom) => random_graph(alloc, spec, 0)?,
        made => made?,
    };
    Ok((graph.n(), graph.m(), draws, flip.next()))
}

// Arcs among ten vertices.
fn arcs(m: i64, loops: bool, min: i64, max: i64) -> RandomSpec {
    RandomSpec {
        n: 10,
        m,
        multi: 0,
        loops,
        directed: true,
        min,
        max,
    }
}

#[test]
fn arcs_of_seed_0(rt: HostRuntime) {
    assert!(rt; drawn(rt.alloc(), &arcs(1, false, 1, 6)) == Ok((10, 1, 3, 50666240)));
    assert!(rt; drawn(rt.alloc(), &arcs(2, true, 5, 5)) == Ok((10, 2, 4, 1904092501)));
}

fn seeded(alloc: Global, spec: &RandomSpec) -> Made {
    let (graph, _flip, _draws) = random_graph(alloc, spec, 0)?;
    Ok(graph)
}

// The graph of a generator of its own, of seed 0. Where a growth is refused, it is asked for once more.
fn own(alloc: Global, spec: &RandomSpec) -> Made {
    match seeded(alloc, spec) {
        Err(Refusal::NoRoom) => seeded(alloc, spec),
        made => made,
    }
}

fn drawn_from_0(alloc: Global, spec: &RandomSpec, seed: Seed) -> Made {
    let mut flip = Flip::new(0);
    let (graph, _draws) = random(alloc, &mut flip, spec, seed)?;
    Ok(graph)
}

// The graph of a generator of seed 0 that is lent, with this seed in its id. It is asked for once more too.
fn lent(alloc: Global, spec: &RandomSpec, seed: Seed) -> Made {
    match drawn_from_0(alloc, spec, seed) {
        Err(Refusal::NoRoom) => drawn_from_0(alloc, spec, seed),
        made => made,
    }
}

// Whether a lent generator makes this graph.
fn is_lent(alloc: Global, spec: &RandomSpec, seed: Seed, made: &Made) -> bool {
    match (made, &lent(alloc, spec, seed)) {
        (Ok(own), Ok(lent)) => own == lent,
        _ => false,
    }
}

// Whether the id of the graph ends so.
fn has_id_ending(made: &Made, end: &[u8]) -> bool {
    match made {
        Ok(graph) => graph.id().ends_with(end),
        Err(_) => false,
    }
}

#[test]
fn a_generator_of_its_own_makes_the_graph_of_its_seed(rt: HostRuntime) {
    let spec = arcs(9, true, 1, 6);
    let made = own(rt.alloc(), &spec);
    assert!(rt; is_lent(rt.alloc(), &spec, Seed::Number(0), &made));
    assert!(rt; !is_lent(rt.alloc(), &spec, Seed::Current, &made));
    assert!(rt; has_id_ending(&made, b",0)"));
}
