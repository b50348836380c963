//! The least and the greatest degree of a graph's vertices.
ghost use Rattle.std.specs.Prelude.{◌≡◌, ◌≤◌, ◌<◌, None, min, max, IfOk, IfErr, if◌then◌else◌};
ghost use Rattle.std.specs.List.{reduce};
ghost use Rattle.sgb_graph.specs.Graph.{n_of, made_of};
ghost use Rattle.sgb_info.specs.Degrees.{out_degree, out_degrees, in_degrees};
ghost use Rattle.sgb_info.specs.Private.Targets.{IsTarget};

use sgb_graph::{ArcNo, Graph, Refusal, Tip, VertexNo};
use std::alloc::Global;

// The least and the greatest of some degrees.
#[derive(Clone, Copy)]
pub(crate) struct Degrees {
    pub(crate) least: Option<u32>,
    pub(crate) greatest: Option<u32>,
}

// Returns the least and the greatest number of arcs that leave a vertex.
pub(crate) fn find_out_degrees(alloc: Global, graph: &Graph) -> Result<Degrees, Refusal>
    ensures least { IfOk result (λ d. d.least ≡ reduce min (out_degrees graph.now)) }
    ensures greatest { IfOk result (λ d. d.greatest ≡ reduce max (out_degrees graph.now)) }
    ensures err { IfErr result (λ e. e ≡ Refusal.NoRoom) }
{
    let degrees = out_degrees(alloc, graph)?;
    Ok(extremes(&degrees))
}

// Returns the least and the greatest number of arcs that lead to a vertex, or none if the graph is paired.
pub(crate) fn find_in_degrees(
    alloc: Global,
    graph: &Graph,
    paired: bool,
) -> Result<Degrees, Refusal>
    ensures least { IfOk result (λ d. d.least ≡ (if paired then None else reduce min (in_degrees graph.now))) }
    ensures greatest { IfOk result (λ d. d.greatest ≡ (if paired then None else reduce max (in_degrees graph.now))) }
    ensures err { IfErr result (λ e. e ≡ Refusal.NoRoom) }
{
    if paired {
        return Ok(Degrees {
            least: None,
            greatest: None,
        });
    }
    let degrees = in_degrees(alloc, graph)?;
    Ok(extremes(&degrees))
}

fn extremes(degrees: &[u32]) -> Degrees
    ensures least { result.least ≡ reduce min degrees.now }
    ensures greatest { result.greatest ≡ reduce max degrees.now }
{
    Degrees {
        least: degrees.iter().copied().min(),
        greatest: degrees.iter().copied().max(),
    }
}

// Returns how many arcs leave each vertex.
fn out_degrees(alloc: Global, graph: &Graph) -> Result<Vec<u32>, Refusal>
    ensures ok { IfOk result (λ d. d.items ≡ out_degrees graph.now) }
    ensures err { IfErr result (λ e. e ≡ Refusal.NoRoom) }
{
    let mut degrees = Vec::with_capacity(alloc, graph.n() as usize)?;
    for v in 0..graph.n() {
        degrees.push(out_degree(graph, VertexNo(v)))?;
    }
    Ok(degrees)
}

// Returns how many arcs lead to each vertex.
fn in_degrees(alloc: Global, graph: &Graph) -> Result<Vec<u32>, Refusal>
    ensures ok { IfOk result (λ d. d.items ≡ in_degrees graph.now) }
    ensures err { IfErr result (λ e. e ≡ Refusal.NoRoom) }
{
    let mut degrees = vec![in alloc; 0u32; graph.n() as usize]?;
    for number in 0..graph.made() {
        let Some(to) = target(graph, ArcNo(number)) else {
            continue;
        };
        degrees[to.0 as usize] += 1;
    }
    Ok(degrees)
}

fn out_degree(graph: &Graph, vertex: VertexNo) -> u32
    requires { vertex.0 < n_of graph.now }
    ensures { result ≡ out_degree graph.now vertex.0 }
{
    graph.arcs(vertex).count() as u32
}

// Returns the vertex to which an arc leads; none for a hole.
fn target(graph: &Graph, number: ArcNo) -> Option<VertexNo>
    requires { number.0 < made_of graph.now }
    ensures { IsTarget graph.now number.0 result }
{
    match graph.arc(number)?.tip {
        Tip::To(vertex) => Some(vertex),
        _ => None,
    }
}
