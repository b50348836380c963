//! Edges or arcs: how many there are, how many are loops, and how many are repeated.
ghost use Rattle.std.specs.Prelude.{◌≡◌, ◌≤◌, ◌<◌, ◌||◌, nat_le, length, All, OnOk, IfOk, IfErr};
ghost use Rattle.sgb_graph.specs.Graph.{n_of, occurrences};
ghost use Rattle.sgb_export.specs.Links.{links};
ghost use Rattle.sgb_info.specs.Repeats.{loops, repeated, repeats, tips};

use sgb_graph::{Graph, Refusal, VertexNo, spoke_at};
use std::alloc::{AllocError, Global};

// Edges of an undirected graph, or arcs of a directed one.
#[derive(Clone, Copy)]
pub(crate) struct Edges {
    pub(crate) count: u64,
    pub(crate) loops: u64,
    pub(crate) repeated: u64,
}

// Counts the edges or arcs.
pub(crate) fn count_edges(alloc: Global, graph: &Graph, directed: bool) -> Result<Edges, Refusal>
    ensures count { IfOk result (λ e. e.count ≡ length (links directed graph.now)) }
    ensures loops { IfOk result (λ e. e.loops ≡ loops directed graph.now) }
    ensures repeated { IfOk result (λ e. e.repeated ≡ repeated directed graph.now) }
    ensures err { IfErr result (λ e. e ≡ Refusal.NoRoom) }
{
    let mut count = 0;
    let mut loops = 0;
    let mut repeated = 0;
    let mut tips = Vec::new(alloc);
    let mut last = vec![in alloc; 0u32; graph.n() as usize]?;
    for v in 0..graph.n() {
        read_tips(&mut tips, graph, VertexNo(v), directed)?;
        count += tips.len() as u64;
        loops += count_equal(&tips, v);
        repeated += count_repeats(&tips, v + 1, &mut last);
    }
    Ok(Edges {
        count,
        loops,
        repeated,
    })
}

// Reads where the edges or arcs of a vertex lead; of an undirected graph those that lead up.
fn read_tips(
    into: &mut Vec<u32>,
    graph: &Graph,
    vertex: VertexNo,
    directed: bool,
) -> Result<(), AllocError>
    requires { vertex.0 < n_of graph.now }
    ensures tips { OnOk result (into.new.items ≡ tips directed graph.now vertex.0) }
    ensures few { length (tips directed graph.now vertex.0) ≤ 1000000 }
{
    into.clear();
    for number in graph.walk(vertex, directed) {
        let spoke = spoke_at(graph, number);
        if !is_written(directed, vertex.0, spoke.to) {
            continue;
        }
        into.push(spoke.to)?;
    }
    Ok(())
}

fn is_written(directed: bool, from: u32, to: u32) -> bool
    ensures { result ≡ (directed || nat_le from to) }
{
    directed || from <= to
}

fn count_equal(numbers: &[u32], number: u32) -> u64
    ensures value { result ≡ occurrences number numbers.now }
    ensures few { result ≤ length numbers.now }
{
    numbers.iter().filter(|other| **other == number).count() as u64
}

// Counts the numbers that stand before their place too. Each that is met has this turn in `last`, where all are less.
fn count_repeats(numbers: &[u32], turn: u32, last: &mut [u32]) -> u64
    requires within { All (λ k. k < length last.old) numbers.now }
    requires before { All (λ t. t < turn) last.old }
    ensures value { result ≡ repeats numbers.now }
    ensures few { result ≤ length numbers.now }
    ensures width { length last.new ≡ length last.old }
    ensures behind { All (λ t. t ≤ turn) last.new }
{
    let mut count = 0;
    for number in numbers {
        if last[*number as usize] == turn {
            count += 1;
            continue;
        }
        last[*number as usize] = turn;
    }
    count
}
