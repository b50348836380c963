//! What becomes of each vertex of a graph.
ghost use Rattle.std.specs.Prelude.{◌≡◌, ◌<◌, IfOk};
ghost use Rattle.sgb_graph.specs.Graph.{n_of};
ghost use Rattle.sgb_induced.specs.Fate.{fate_of, fate_of_number, fates_of, z_of};

use sgb_graph::{Graph, Util, VertexField, VertexNo};
use std::alloc::{AllocError, Global};

// What becomes of a vertex: so many copies of it, none where it is dropped, or a place in a class.
#[derive(Clone, Copy, Debug, PartialEq, Eq)]
pub(crate) enum Fate {
    Copies(u64),
    Class(u64),
}

// What becomes of each vertex, by its number; it is dropped where its field z does not say it.
pub(crate) fn read_fates(alloc: Global, graph: &Graph) -> Result<Vec<Fate>, AllocError>
    ensures { IfOk result (λ fs. fs.items ≡ fates_of graph.now) }
{
    let mut fates = Vec::with_capacity(alloc, graph.n() as usize)?;
    for v in 0..graph.n() {
        let fate = fate_at(graph, VertexNo(v)).unwrap_or(Fate::Copies(0));
        fates.push(fate)?;
    }
    Ok(fates)
}

// What becomes of a vertex, where its field z says it.
pub(crate) fn fate_at(graph: &Graph, vertex: VertexNo) -> Option<Fate>
    requires { vertex.0 < n_of graph.now }
    ensures { result ≡ fate_of (z_of graph.now vertex.0) }
{
    fate_of(&graph.vertex_fields(vertex)[VertexField::Z.place()])
}

// What the value of a field z says.
fn fate_of(value: &Util) -> Option<Fate>
    ensures { result ≡ fate_of value.now }
{
    match value {
        Util::Zero => Some(Fate::Copies(0)),
        Util::Int(number) => Some(fate_of_number(*number)),
        _ => None,
    }
}

fn fate_of_number(number: i64) -> Fate
    ensures { result ≡ fate_of_number number }
{
    if number < 0 {
        Fate::Class(number.unsigned_abs())
    } else {
        Fate::Copies(number.unsigned_abs())
    }
}
