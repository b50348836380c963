//! The lengths of a graph, exchanged for those of a list or replaced by them.
ghost use Rattle.std.specs.Prelude.{◌≡◌, ◌<◌, length};
ghost use Rattle.sgb_graph.specs.Edit.{with_entry};
ghost use Rattle.sgb_graph.specs.Graph.{IsGraph, made_of, arc_at};
ghost use Rattle.sgb_combine.specs.Lengths.{with_length, length_of, with_lengths, lengths_of};

use sgb_graph::{ArcNo, Graph};

// Gives each arc the length at its number's place, and that place the length that the arc had; 0 for a hole.
pub(crate) fn exchange_lengths(graph: &mut Graph, lengths: &mut [i64])
    requires { length lengths.old ≡ made_of graph.old }
    ensures graph { graph.new ≡ with_lengths graph.old lengths.old }
    ensures lengths { lengths.new ≡ lengths_of graph.old }
    ensures sound { IsGraph graph.new }
{
    for k in 0..graph.made() {
        lengths[k as usize] = exchange_length(graph, ArcNo(k), lengths[k as usize]);
    }
}

// Gives each arc the length at its number's place.
pub(crate) fn give_lengths(graph: &mut Graph, lengths: &[i64])
    requires { length lengths.now ≡ made_of graph.old }
    ensures graph { graph.new ≡ with_lengths graph.old lengths.now }
    ensures sound { IsGraph graph.new }
{
    for k in 0..graph.made() {
        let _ = exchange_length(graph, ArcNo(k), lengths[k as usize]);
    }
}

// Gives an arc another length, and answers the one that it had; 0 for a hole.
fn exchange_length(graph: &mut Graph, number: ArcNo, len: i64) -> i64
    requires { number.0 < made_of graph.old }
    ensures length { result ≡ length_of (arc_at graph.old number.0) }
    ensures graph { graph.new ≡ with_entry graph.old number.0 (with_length (arc_at graph.old number.0) len) }
    ensures sound { IsGraph graph.new }
{
    if graph.arc(number).is_none() {
        return 0;
    }
    graph.swap_len(number, len)
}
