//! What a refused growth of an induced graph leads to.

use crate::combine::graphs::{counts, graph_of, view_of};
use crate::looks::Made;
use sgb_graph::{ArcNo, Graph, Place, Refusal, Text, Util, VertexField, VertexNo};
use sgb_induced::{InducedSpec, induced};
use std::alloc::Global;

// Gives the field z of a vertex a number.
fn set_number(graph: &mut Graph, vertex: u32, number: i64) -> Result<(), Refusal> {
    let place = Place::Vertex(VertexNo(vertex), VertexField::Z);
    let _delta = graph.set_util(place, Util::Int(number))?;
    Ok(())
}

fn set_name(alloc: Global, graph: &mut Graph, vertex: u32, bytes: &[u8]) -> Result<(), Refusal> {
    let name = Text::new(alloc, bytes)?;
    let _delta = graph.set_label(VertexNo(vertex), name)?;
    Ok(())
}

// Five vertices: one is kept, two are a class, one has three images, and one is dropped.
fn mixed(alloc: Global) -> Made {
    let mut graph = joined(alloc)?;
    fill_mixed(alloc, &mut graph)?;
    Ok(graph)
}

fn joined(alloc: Global) -> Made {
    let edges = [(0, 1, 4), (2, 3, 2), (0, 2, 1), (3, 3, 6), (3, 4, 1)];
    graph_of(alloc, 5, &edges, &[])
}

fn fill_mixed(alloc: Global, graph: &mut Graph) -> Result<(), Refusal> {
    set_number(graph, 0, 1)?;
    set_number(graph, 1, -2)?;
    set_number(graph, 2, -2)?;
    set_number(graph, 3, 3)?;
    set_name(alloc, graph, 0, b"a")?;
    set_name(alloc, graph, 1, b"b")?;
    set_name(alloc, graph, 3, b"c")
}

// Where a growth is refused, the graph is asked for once more.
fn mixed_again(alloc: Global) -> Made {
    match mixed(alloc) {
        Err(Refusal::NoRoom) => mixed(alloc),
        made => made,
    }
}

// What is induced by the graph, with loops. Where that is wanting there is no room.
fn induce(alloc: Global, made: &Made) -> Made {
    let Ok(graph) = made else {
        return Err(Refusal::NoRoom);
    };
    let description = Text::new(alloc, b"mix")?;
    let spec = InducedSpec {
        loops: true,
        multi: false,
        directed: false,
    };
    induced(alloc, graph, &description, &spec)
}

fn induced_again(alloc: Global, graph: &Made) -> Made {
    match induce(alloc, graph) {
        Err(Refusal::NoRoom) => induce(alloc, graph),
        made => made,
    }
}

fn has_label(made: &Made, vertex: u32, label: &[u8]) -> bool {
    match made {
        Ok(graph) => vertex < graph.n() && graph.label(VertexNo(vertex)) == label,
        Err(_) => false,
    }
}

// Whether the arc of this number lives and is this one.
fn is_arc(made: &Made, number: u32, owner: u32, tip: u32, len: i64) -> bool {
    match made {
        Ok(graph) => {
            number < graph.made() && graph.arc(ArcNo(number)) == Some(view_of(&(owner, tip, len)))
        }
        Err(_) => false,
    }
}

// Whether it has the labels and arcs that it should have.
fn is_mixed(made: &Made) -> bool {
    counts(made) == Some((5, 20))
        && has_label(made, 0, b"a")
        && has_label(made, 1, b"b")
        && has_label(made, 2, b"c")
        && has_label(made, 4, b"c:3")
        && is_arc(made, 0, 0, 1, 1)
        && is_arc(made, 19, 4, 4, 6)
}

fn grants_mixed(alloc: Global) -> bool {
    is_mixed(&induced_again(alloc, &mixed_again(alloc)))
}

#[test]
fn growths_are_granted_when_asked_again(rt: HostRuntime) {
    assert!(rt; grants_mixed(rt.alloc()));
}
