//! How a graph looks: questions that promise nothing, so that the proof of a test stays short.

use sgb_graph::{ArcNo, ArcView, Graph, Refusal, Tip, VertexNo};

/// Whether this is so of a graph once it is made. A proof has to follow the graph to each way out of its owner, so tests
/// own none: they hand it on to this, which does.
pub fn holds<F: FnOnce(&mut Graph) -> Result<bool, Refusal>>(
    made: Result<Graph, Refusal>,
    is_so: F,
) -> Result<bool, Refusal>
    requires { F.IsAlwaysCallable is_so }
{
    is_so(&mut made?)
}

/// Whether a graph looks so once it is made.
pub fn shows<F: FnOnce(&Graph) -> bool>(
    made: Result<Graph, Refusal>,
    is_so: F,
) -> Result<bool, Refusal>
    requires { F.IsAlwaysCallable is_so }
{
    Ok(is_so(&made?))
}

/// Whether a vertex lists these numbers.
pub fn lists(graph: &Graph, vertex: u32, numbers: &[u32]) -> bool {
    if vertex >= graph.n() {
        return false;
    }
    let mut wanted = numbers.iter();
    for number in graph.arcs(VertexNo(vertex)) {
        match wanted.next() {
            Some(want) if *want == number.0 => {}
            _ => return false,
        }
    }
    wanted.next().is_none()
}

/// Whether the arc of this number lives and is this one.
pub fn is_arc(graph: &Graph, number: u32, owner: u32, tip: u32, len: i64) -> bool {
    if number >= graph.made() {
        return false;
    }
    let want = ArcView {
        owner: VertexNo(owner),
        tip: Tip::To(VertexNo(tip)),
        len,
    };
    graph.arc(ArcNo(number)).is_some()
        && graph.arc(ArcNo(number)) == Some(want)
        && graph.arc_tip(ArcNo(number)) == want.tip
        && graph.arc_len(ArcNo(number)) == len
}

/// Whether the number was given out, and its arc was cut.
pub fn is_hole(graph: &Graph, number: u32) -> bool {
    number < graph.made() && graph.arc(ArcNo(number)).is_none()
}

/// Whether so many numbers were given out, and so many arcs live.
pub fn has_counts(graph: &Graph, made: u32, live: u32) -> bool {
    graph.made() == made && graph.m() == live
}

/// Whether the id has these bytes.
pub fn has_id(graph: &Graph, id: &[u8]) -> bool {
    graph.id() == id
}

/// Whether a vertex has this label.
pub fn has_label(graph: &Graph, vertex: u32, label: &[u8]) -> bool {
    vertex < graph.n() && graph.label(VertexNo(vertex)) == label
}

/// Whether an arc lives and is followed by this one in its list.
pub fn is_followed_by(graph: &Graph, number: u32, next: Option<ArcNo>) -> bool {
    number < graph.made()
        && graph.arc(ArcNo(number)).is_some()
        && graph.next_of(ArcNo(number)) == next
}

/// Whether each arc has its other half.
pub fn is_paired(graph: &Graph) -> bool {
    graph.is_paired()
}
