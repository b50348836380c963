//! Graphs to give lengths, and questions that promise nothing, so that the proof of a test stays short. For the same
//! reason graphs are handed about with their refusals.

use crate::combine::graphs::{graph_of, insert_arcs, insert_edges};
use crate::looks::Made;
use sgb_combine::{LengthsDelta, LengthsSpec, random_lengths, revert_lengths};
use sgb_flip::Flip;
use sgb_graph::{ArcNo, Graph, Refusal};
use sgb_plan::Seed;
use std::alloc::Global;

/// Four vertices with two edges, an arc on either side of them, and a loop.
pub fn mixed(alloc: Global) -> Made {
    let mut graph = Graph::new(alloc, 4)?;
    mix(&mut graph)?;
    Ok(graph)
}

fn mix(graph: &mut Graph) -> Result<(), Refusal> {
    insert_arcs(graph, &[(0, 1, 7)])?;
    insert_edges(graph, &[(1, 2, 8), (3, 3, 2)])?;
    insert_arcs(graph, &[(0, 3, 9)])
}

/// Two edges and two loops.
pub fn paired(alloc: Global) -> Made {
    graph_of(alloc, 4, &[(0, 1, 7), (2, 1, 8), (3, 3, 2), (3, 3, 4)], &[])
}

/// The graph without an arc.
pub fn without(made: Made, number: u32) -> Made {
    let mut graph = made?;
    cut(&mut graph, number)?;
    Ok(graph)
}

fn cut(graph: &mut Graph, number: u32) -> Result<(), Refusal> {
    let _delta = graph.cut(ArcNo(number))?;
    Ok(())
}

/// Whether these are the lengths by number, of which -1 stands for a hole.
pub fn has_lengths(made: &Made, wanted: &[i64]) -> bool {
    match made {
        Ok(graph) => are_lengths(graph, wanted),
        Err(_) => false,
    }
}

fn are_lengths(graph: &Graph, wanted: &[i64]) -> bool {
    let mut lengths = wanted.iter();
    for number in 0..graph.made() {
        if lengths.next() != Some(&length(graph, number)) {
            return false;
        }
    }
    lengths.next().is_none()
}

fn length(graph: &Graph, number: u32) -> i64 {
    if number >= graph.made() {
        return -1;
    }
    match graph.arc(ArcNo(number)) {
        Some(arc) => arc.len,
        None => -1,
    }
}

// The graph. Where it is wanting there is no room, which no test of refusals asks for.
fn operand(made: &mut Made) -> Result<&mut Graph, Refusal> {
    match made {
        Ok(graph) => Ok(graph),
        Err(_) => Err(Refusal::NoRoom),
    }
}

/// Gives the graph lengths from the generator, and answers the number of draws.
pub fn lengthen(
    alloc: Global,
    made: &mut Made,
    flip: &mut Flip,
    spec: &LengthsSpec,
    seed: Seed,
) -> Result<u64, Refusal> {
    let (_delta, draws) = random_lengths(alloc, operand(made)?, flip, spec, seed)?;
    Ok(draws)
}

/// Gives the graph lengths and takes them back at once.
pub fn lengthen_and_back(
    alloc: Global,
    made: &mut Made,
    flip: &mut Flip,
    spec: &LengthsSpec,
) -> Result<u64, Refusal> {
    let graph = operand(made)?;
    let (delta, draws) = random_lengths(alloc, graph, flip, spec, Seed::Current)?;
    revert_lengths(graph, delta);
    Ok(draws)
}

/// What is kept of the graph, or the refusal.
pub type Kept = Result<LengthsDelta, Refusal>;

/// What the delta keeps, where the lengths are those of seed 5.
pub fn kept(alloc: Global, made: &mut Made, spec: &LengthsSpec) -> Kept {
    let mut flip = Flip::new(5);
    let (delta, _draws) = random_lengths(alloc, operand(made)?, &mut flip, spec, Seed::Number(5))?;
    Ok(delta)
}

/// Whether these lengths are kept.
pub fn keeps_lengths(kept: &Kept, lengths: &[i64]) -> bool {
    match kept {
        Ok(delta) => delta.lengths.as_slice() == lengths,
        Err(_) => false,
    }
}

/// Whether this id is kept.
pub fn keeps_id(kept: &Kept, id: &[u8]) -> bool {
    match kept {
        Ok(delta) => delta.id.bytes() == id,
        Err(_) => false,
    }
}
