//! How a graph looks: questions that promise nothing, so that the proof of a test stays short. For the same reason
//! graphs are handed about with their refusals.
use sgb_graph::{Graph, Refusal, Tip, VertexNo};

/// A graph, or its refusal.
pub type Made = Result<Graph, Refusal>;

/// How many vertices, arcs and numbers there are, or why there is no graph.
pub type Counts = Result<(u32, u32, u32), Refusal>;

/// The counts of a graph.
pub fn counts(made: &Made) -> Counts {
    match made {
        Ok(graph) => Ok((graph.n(), graph.m(), graph.made())),
        Err(refusal) => Err(*refusal),
    }
}

/// Whether a vertex has this label.
pub fn has_label(made: &Made, vertex: u32, label: &[u8]) -> bool {
    match made {
        Ok(graph) => vertex < graph.n() && graph.label(VertexNo(vertex)) == label,
        Err(_) => false,
    }
}

/// Whether the list of a vertex has these tips and lengths, newest first.
pub fn lists(made: &Made, vertex: u32, wanted: &[(u32, i64)]) -> bool {
    match made {
        Ok(graph) => has_list(graph, vertex, wanted),
        Err(_) => false,
    }
}

fn has_list(graph: &Graph, vertex: u32, wanted: &[(u32, i64)]) -> bool {
    if vertex >= graph.n() {
        return false;
    }
    let mut wanted = wanted.iter();
    for number in graph.arcs(VertexNo(vertex)) {
        let Some((tip, len)) = wanted.next() else {
            return false;
        };
        match graph.arc(number) {
            Some(arc) if arc.tip == Tip::To(VertexNo(*tip)) && arc.len == *len => {}
            _ => return false,
        }
    }
    wanted.next().is_none()
}
