//! Lengths that are drawn one after another.
ghost use Rattle.std.specs.Prelude.{◌≡◌, ◌≤◌, ◌<◌, ◌+◌, ◌*◌, ◌^◌, length, slice_set, IsSome, None};
ghost use Rattle.sgb_flip.specs.Generator.{IsGenerator, after};
ghost use Rattle.sgb_graph.specs.Graph.{n_of, made_of, arc_at};
ghost use Rattle.sgb_combine.specs.Drawing.{drawing, drawing_at, drawn, is_drawing, chosen_lengths};
ghost use Rattle.sgb_combine.specs.Lengths.{refusal_of_arcs, with_lengths};
ghost use Rattle.sgb_combine.specs.Private.Table.{drawn_over, written};

use sgb_flip::Flip;
use sgb_graph::{ArcNo, Graph, VertexNo, spoke_at};
use sgb_plan::LengthRange;

// Draws the lengths of the arcs into a table by number, and answers how many draws they took. What the table holds for
// a hole does not matter.
pub(crate) fn draw_lengths(
    flip: &mut Flip,
    range: &LengthRange,
    graph: &Graph,
    directed: bool,
    lengths: &mut [i64],
) -> u64
    requires whole { refusal_of_arcs directed graph.now ≡ None }
    requires count { length lengths.old ≡ made_of graph.now }
    ensures count { length lengths.new ≡ made_of graph.now }
    ensures lengths { with_lengths graph.now lengths.new ≡ with_lengths graph.now (chosen_lengths directed
        (drawing directed graph.now)
        (drawn range.now.min range.now.max flip.old (length (drawing directed graph.now))).lens
        (made_of graph.now)) }
    ensures draws { result ≡ (drawn range.now.min range.now.max flip.old (length (drawing directed graph.now))).draws }
    ensures rest { flip.new ≡ after flip.old result }
    ensures few { result ≤ 1814000000 }
    ensures generator { IsGenerator flip.new }
{
    // It tells that the generator is one, also where nothing is drawn.
    let _ = flip.unread();
    let mut draws = 0;
    for v in 0..graph.n() {
        draws = draw_walk(flip, range, graph, VertexNo(v), directed, lengths, draws);
    }
    draws
}

// Draws the lengths of the arcs of one vertex, and answers how many draws there are then.
fn draw_walk(
    flip: &mut Flip,
    range: &LengthRange,
    graph: &Graph,
    vertex: VertexNo,
    directed: bool,
    lengths: &mut [i64],
    before: u64,
) -> u64
    requires vertex { vertex.0 < n_of graph.now }
    requires few { before + 1814 * length (drawing_at directed graph.now vertex.0) < 2 ^ 64 }
    ensures table { record { lens = lengths.new; draws = result; rest = flip.new } ≡ drawn_over directed range.now.min
        range.now.max (record { lens = lengths.old; draws = before; rest = flip.old })
        (drawing_at directed graph.now vertex.0) }
    ensures few { result ≤ before + 1814 * length (drawing_at directed graph.now vertex.0) }
    ensures generator { IsGenerator flip.new }
{
    // It tells that the generator is one, also where nothing is drawn.
    let _ = flip.unread();
    let mut draws = before;
    for number in graph.walk(vertex, directed) {
        if !is_drawing(graph, vertex, number, directed) {
            continue;
        }
        let drawn = range.draw(flip);
        write_length(lengths, number, drawn.len, directed);
        draws += drawn.draws;
    }
    draws
}

// The arc of this vertex draws a length.
#[inline]
fn is_drawing(graph: &Graph, vertex: VertexNo, number: ArcNo, directed: bool) -> bool
    requires { IsSome (arc_at graph.now number.0) }
    ensures { result ≡ is_drawing directed graph.now vertex.0 number.0 }
{
    directed || vertex.0 <= spoke_at(graph, number).to
}

// Writes the length of an arc, and where edges are meant that of the other half of its edge too.
#[inline]
fn write_length(lengths: &mut [i64], number: ArcNo, len: i64, directed: bool)
    ensures { lengths.new ≡ written directed lengths.old number.0 len }
{
    put_length(lengths, number.0 as usize, len);
    if !directed {
        put_length(lengths, number.0 as usize + 1, len);
    }
}

// Writes the length of this number, if the table has it.
#[inline]
fn put_length(lengths: &mut [i64], number: usize, len: i64)
    ensures { lengths.new ≡ slice_set lengths.old number len }
{
    if number < lengths.len() {
        lengths[number] = len;
    }
}
