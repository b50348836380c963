//! The least and the greatest length of a graph's arcs.
ghost use Rattle.std.specs.Prelude.{◌≡◌};
ghost use Rattle.std.specs.Int.{int_min, int_max};
ghost use Rattle.std.specs.List.{reduce};
ghost use Rattle.sgb_info.specs.Degrees.{lengths};
ghost use Rattle.sgb_info.specs.Private.Extremes.{extended};

use sgb_graph::{ArcNo, Graph};

// The least and the greatest of some lengths.
#[derive(Clone, Copy)]
pub(crate) struct Lengths {
    pub(crate) least: Option<i64>,
    pub(crate) greatest: Option<i64>,
}

// Returns the least and the greatest length of an arc.
pub(crate) fn find_lengths(graph: &Graph) -> Lengths
    ensures least { result.least ≡ reduce int_min (lengths graph.now) }
    ensures greatest { result.greatest ≡ reduce int_max (lengths graph.now) }
{
    let mut least = None;
    let mut greatest = None;
    for number in 0..graph.made() {
        let Some(arc) = graph.arc(ArcNo(number)) else {
            continue;
        };
        least = Some(lower(least, arc.len));
        greatest = Some(higher(greatest, arc.len));
    }
    Lengths { least, greatest }
}

fn lower(least: Option<i64>, len: i64) -> i64
    ensures { result ≡ extended int_min least len }
{
    match least {
        Some(least) => least.min(len),
        None => len,
    }
}

fn higher(greatest: Option<i64>, len: i64) -> i64
    ensures { result ≡ extended int_max greatest len }
{
    match greatest {
        Some(greatest) => greatest.max(len),
        None => len,
    }
}
