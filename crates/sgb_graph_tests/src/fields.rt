//! Utility fields, labels, ids and letters.

use crate::edits::{arc, cut, letters, new_graph, text};
use crate::looks::{has_counts, has_id, has_label, holds, is_arc};
use sgb_graph::{
    ArcField, ArcNo, Graph, GraphDelta, Place, Refusal, Text, Types, Util, VertexField, VertexNo,
};
use std::alloc::Global;
use std::test::Fail;

const FIELD: Place = Place::Vertex(VertexNo(0), VertexField::U);

// The first vertex has a loop.
fn one_loop(alloc: Global) -> Result<Graph, Refusal> {
    let mut graph = new_graph(alloc, 1)?;
    arc(&mut graph, 0, 0, 1)?;
    Ok(graph)
}

// The value of this number that a letter allows. No function holds it beside a graph: both would be dropped at each way out.
fn value(alloc: Global, letter: u8, number: u32) -> Result<Util, Refusal> {
    Ok(match letter {
        b'I' => Util::Int(i64::from(number)),
        b'V' => Util::Vertex(VertexNo(number)),
        b'A' => Util::Arc(ArcNo(number)),
        b'S' if number == 0 => Util::Text(text(alloc, b"")?),
        b'S' => Util::Text(text(alloc, b"y")?),
        _ => Util::Zero,
    })
}

// Gives the field this value.
fn set(graph: &mut Graph, value: Util) -> Result<(), Refusal> {
    let _delta = graph.set_util(FIELD, value)?;
    Ok(())
}

#[test]
fn a_field_names_what_is_there(rt: HostRuntime) -> Result<(), Fail> {
    assert!(rt; holds(new_graph(rt.alloc(), 1), names_what_is_there)?);
    Ok(())
}

fn names_what_is_there(graph: &mut Graph) -> Result<bool, Refusal> {
    let without = set(graph, Util::Arc(ArcNo(0)));
    arc(graph, 0, 0, 1)?;
    set(graph, Util::Arc(ArcNo(0)))?;
    Ok(
        without == Err(Refusal::BadOperand)
            && set(graph, Util::Vertex(VertexNo(1))) == Err(Refusal::BadOperand),
    )
}

// Whether the arc 0 is refused a cut while a field of its own names it, which is then taken back.
fn is_kept_by_its_own_field(graph: &mut Graph) -> Result<bool, Refusal> {
    let place = Place::Arc(ArcNo(0), ArcField::A);
    let own = graph.set_util(place, Util::Arc(ArcNo(0)))?;
    let refused = graph.cut(ArcNo(0)).is_err();
    if refused {
        graph.revert(own);
    }
    Ok(refused)
}

#[test]
fn a_named_arc_is_not_cut(rt: HostRuntime) -> Result<(), Fail> {
    assert!(rt; holds(one_loop(rt.alloc()), is_kept_while_named)?);
    Ok(())
}

fn is_kept_while_named(graph: &mut Graph) -> Result<bool, Refusal> {
    let is_kept = is_kept_by_its_own_field(graph)?;
    cut(graph, 0)?;
    Ok(is_kept && has_counts(graph, 1, 0))
}

// What the field held before it got the value: nothing, a text, or another value.
fn before(graph: &mut Graph, value: Util) -> Result<u8, Refusal> {
    let old = graph.set_util(FIELD, value)?;
    Ok(match old {
        GraphDelta::SetUtil(_, Util::Zero) => b'Z',
        GraphDelta::SetUtil(_, Util::Text(_)) => b'S',
        _ => b'I',
    })
}

#[test]
fn values_are_kept(rt: HostRuntime) -> Result<(), Fail> {
    let alloc = rt.alloc();
    assert!(rt; holds(one_loop(alloc), |graph| keeps_values(alloc, graph))?);
    Ok(())
}

// Gives the field these values, behind each of which stands what the field held before.
fn keeps_values(alloc: Global, graph: &mut Graph) -> Result<bool, Refusal> {
    for (letter, number, held) in [
        (b'I', 0, b'Z'),
        (b'S', 0, b'Z'),
        (b'S', 1, b'Z'),
        (b'Z', 0, b'S'),
        (b'I', 7, b'Z'),
    ] {
        if before(graph, value(alloc, letter, number)?)? != held {
            return Ok(false);
        }
    }
    Ok(is_seven(graph) && are_others_zero(graph))
}

// Whether the field is 7, as each reader of fields gives it.
fn is_seven(graph: &Graph) -> bool {
    if graph.n() == 0 {
        return false;
    }
    let seven = Util::Int(7);
    *graph.util(FIELD) == seven && graph.vertex_fields(VertexNo(0))[0] == seven
}

// Whether the fields of the graph and of its arc 0 are zero.
fn are_others_zero(graph: &Graph) -> bool {
    if graph.made() == 0 || graph.arc(ArcNo(0)).is_none() {
        return false;
    }
    let zero = Util::Zero;
    graph.graph_fields()[5] == zero && graph.arc_fields(ArcNo(0))[1] == zero
}

// Gives the graph an id, and takes it back; answers how long the id was between.
fn id_and_back(graph: &mut Graph, id: Text) -> Result<usize, Refusal> {
    let delta = graph.set_id(id)?;
    let len = graph.id().len();
    graph.revert(delta);
    Ok(len)
}

#[test]
fn ids_have_a_limit(rt: HostRuntime) -> Result<(), Fail> {
    let alloc = rt.alloc();
    assert!(rt; holds(new_graph(alloc, 1), |graph| limits_ids(alloc, graph))?);
    Ok(())
}

fn limits_ids(alloc: Global, graph: &mut Graph) -> Result<bool, Refusal> {
    Ok(
        id_and_back(graph, letters(alloc, 161)?) == Err(Refusal::BadOperand)
            && id_and_back(graph, letters(alloc, 160)?)? == 160
            && has_id(graph, b"gb_new_graph(1)"),
    )
}

fn set_label(graph: &mut Graph, vertex: u32, label: Text) -> Result<(), Refusal> {
    let _delta = graph.set_label(VertexNo(vertex), label)?;
    Ok(())
}

#[test]
fn labels_are_set(rt: HostRuntime) -> Result<(), Fail> {
    let alloc = rt.alloc();
    assert!(rt; holds(new_graph(alloc, 1), |graph| sets_labels(alloc, graph))?);
    Ok(())
}

fn sets_labels(alloc: Global, graph: &mut Graph) -> Result<bool, Refusal> {
    set_label(graph, 0, text(alloc, b"a name")?)?;
    Ok(
        has_label(graph, 0, b"a name")
            && set_label(graph, 1, text(alloc, b"x")?) == Err(Refusal::BadOperand),
    )
}

fn set_len(graph: &mut Graph, number: u32, len: i64) -> Result<(), Refusal> {
    let _delta = graph.set_len(ArcNo(number), len)?;
    Ok(())
}

// Gives a live arc another length, and answers the one that it had.
fn swap_len(graph: &mut Graph, number: u32, len: i64) -> Option<i64> {
    if number >= graph.made() || graph.arc(ArcNo(number)).is_none() {
        return None;
    }
    Some(graph.swap_len(ArcNo(number), len))
}

// Gives the graph a short id, and answers how long the one was that it had.
fn swap_id(graph: &mut Graph, id: Text) -> Option<usize> {
    if id.bytes().len() > 160 {
        return None;
    }
    Some(graph.swap_id(id).bytes().len())
}

#[test]
fn lengths_and_ids_are_swapped(rt: HostRuntime) -> Result<(), Fail> {
    let alloc = rt.alloc();
    assert!(rt; holds(one_loop(alloc), |graph| swaps_both(alloc, graph))?);
    Ok(())
}

fn swaps_both(alloc: Global, graph: &mut Graph) -> Result<bool, Refusal> {
    Ok(
        swap_len(graph, 0, 8) == Some(1)
            && is_arc(graph, 0, 0, 0, 8)
            && swap_id(graph, text(alloc, b"two")?) == Some(15)
            && has_id(graph, b"two"),
    )
}

#[test]
fn lengths_are_set(rt: HostRuntime) -> Result<(), Fail> {
    assert!(rt; holds(one_loop(rt.alloc()), sets_lengths)?);
    Ok(())
}

fn sets_lengths(graph: &mut Graph) -> Result<bool, Refusal> {
    set_len(graph, 0, -9)?;
    Ok(is_arc(graph, 0, 0, 0, -9) && set_len(graph, 1, 1) == Err(Refusal::BadOperand))
}

// Whether the graph is honest where the field has this letter and this value.
fn is_honest_with(graph: &mut Graph, letter: u8, value: Util) -> Result<bool, Refusal> {
    let mut letters = [b'Z'; 14];
    letters[0] = letter;
    if let Some(types) = Types::new(&letters) {
        let _old = graph.set_types(types);
    }
    let delta = graph.set_util(FIELD, value)?;
    let honest = graph.is_honest();
    graph.revert(delta);
    Ok(honest)
}

#[test]
fn letters_allow_values(rt: HostRuntime) -> Result<(), Fail> {
    let alloc = rt.alloc();
    assert!(rt; holds(one_loop(alloc), |graph| allows_by_letters(alloc, graph))?);
    Ok(())
}

// Whether each of these letters allows the value behind it, or does not, as stands behind that.
fn allows_by_letters(alloc: Global, graph: &mut Graph) -> Result<bool, Refusal> {
    for (letter, kind, number, allowed) in [
        (b'Z', b'Z', 0, true),
        (b'Z', b'I', 1, false),
        (b'I', b'I', 2, true),
        (b'I', b'V', 0, false),
        (b'V', b'V', 0, true),
        (b'V', b'I', 1, true),
        (b'V', b'I', 2, false),
        (b'A', b'A', 0, true),
        (b'A', b'V', 0, false),
        (b'S', b'S', 1, true),
        (b'S', b'I', 1, false),
    ] {
        if is_honest_with(graph, letter, value(alloc, kind, number)?)? != allowed {
            return Ok(false);
        }
    }
    Ok(true)
}
