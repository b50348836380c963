//! Graphs without arcs.
ghost use Rattle.std.specs.Prelude.{◌≡◌, ◌≤◌, ◌⊎◌, [], ◌∷◌, map, length, All, IfOk, IfErr, None, Some};
ghost use Rattle.std.specs.Result.{IsErrOf};
ghost use Rattle.sgb_graph.specs.declared.field.Util.TheVariants.{Zero};
ghost use Rattle.sgb_graph.specs.Graph.{IsGraph, IsId};
ghost use Rattle.sgb_graph.specs.Types.{IsTypes};
ghost use Rattle.sgb_graph.specs.Edit.{refusal_of_new};
ghost use Rattle.sgb_graph.specs.New.{new_graph, new_id, bare_graph, six_zeros};
ghost use Rattle.sgb_graph.specs.Private.Arena.{IsBare, bare_vertex};

use super::arena::Arena;
use super::{Graph, MOST_VERTICES, Vertices};
use crate::{Refusal, Text, Types, Util};
use std::alloc::{AllocError, Global};

impl Graph {
    /// A graph of `n` vertices with empty labels, without arcs, with the id `gb_new_graph(n)` and all letters `Z`.
    /// (Knuth's `gb_new_graph`.) Refused `TooLarge` above 65,535 vertices.
    pub fn new(alloc: Global, n: u32) -> Result<Graph, Refusal>
        ensures ok { IfOk result (λ g. (refusal_of_new n ≡ None) × (g ≡ new_graph n) × IsGraph g) }
        ensures err { IfErr result (λ e. (e ≡ Refusal.NoRoom) ⊎ (refusal_of_new n ≡ Some e)) }
        ensures room { IsErrOf result Refusal.NoRoom → refusal_of_new n ≡ None }
    {
        if n > MOST_VERTICES {
            return Err(Refusal::TooLarge);
        }
        let id = new_id(alloc, n)?;
        let vertices = Vertices::blank(alloc, n)?;
        Ok(bare_graph(alloc, id, Types::none(), vertices))
    }

    // A graph without vertices.
    pub(crate) fn empty(alloc: Global, id: Text, types: Types) -> Graph
        requires { length id ≤ 160 }
        ensures value { result ≡ bare_graph id types [] }
        ensures graph { IsGraph result }
    {
        let _ = id.bytes();
        let _ = types.letters();
        bare_graph(alloc, id, types, Vertices::new(alloc))
    }
}

// The graph of these vertices, without arcs.
fn bare_graph(alloc: Global, id: Text, types: Types, vertices: Vertices) -> Graph
    requires few { length vertices ≤ 65535 }
    requires id { IsId id }
    requires types { IsTypes types }
    requires bare { All (IsBare (length vertices)) vertices }
    ensures value { result ≡ bare_graph id types (map bare_vertex vertices) }
    ensures graph { IsGraph result }
{
    Graph {
        id,
        types,
        fields: six_zeros(),
        vertices,
        slots: Arena::new(alloc),
        holes: 0,
    }
}

pub(crate) fn six_zeros() -> [Util; 6]
    ensures { result ≡ six_zeros }
{
    [
        Util::Zero,
        Util::Zero,
        Util::Zero,
        Util::Zero,
        Util::Zero,
        Util::Zero,
    ]
}

fn new_id(alloc: Global, n: u32) -> Result<Text, AllocError>
    requires { n ≤ 65535 }
    ensures { IfOk result (λ t. (t ≡ new_id n) × IsId t) }
{
    let id = format!(in alloc; "gb_new_graph({n})")?;
    Text::from_bytes(alloc, id.into_bytes())
}
