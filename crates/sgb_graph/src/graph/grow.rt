//! New vertices, and room for vertices and arcs.
ghost use Rattle.std.specs.Prelude.{◌≡◌, ◌≤◌, ◌<◌, ◌⊎◌, length, map, All, IfErr, OnOk, OnErr};
ghost use Rattle.std.specs.Result.{IsErrOf};
ghost use Rattle.sgb_graph.specs.Graph.{IsGraph, n_of};
ghost use Rattle.sgb_graph.specs.Edit.{stored};
ghost use Rattle.sgb_graph.specs.Set.{IsStorable};
ghost use Rattle.sgb_graph.specs.Vertex.{NamesNothing, new_vertex, with_vertex_last};

use super::set::stored;
use super::{Graph, MOST_ARCS, MOST_VERTICES};
use crate::{Label, Refusal, Util};

impl Graph {
    // Adds a vertex, last. Its fields name nothing.
    #[inline(always)]
    pub(crate) fn push_vertex(&mut self, label: Label, fields: [Util; 6]) -> Result<(), Refusal>
        requires { All NamesNothing fields }
        ensures ok { OnOk result (self.new ≡ with_vertex_last self.old (new_vertex label fields)) }
        ensures err { IfErr result (λ e. (e ≡ Refusal.NoRoom) ⊎ ((e ≡ Refusal.TooLarge) × (65535 ≤ n_of self.old))) }
        ensures room { IsErrOf result Refusal.NoRoom → n_of self.old < 65535 }
        ensures unchanged { OnErr result (self.new ≡ self.old) }
    {
        if self.n() >= MOST_VERTICES {
            return Err(Refusal::TooLarge);
        }
        let _ = label.bytes();
        self.vertices.push(label, stored_six(fields))?;
        Ok(())
    }

    // Takes room for so many vertices more, or for as many as a graph may still have.
    pub(crate) fn reserve_vertices(&mut self, count: usize) -> Result<(), Refusal>
        ensures same { self.new ≡ self.old }
        ensures err { IfErr result (λ e. e ≡ Refusal.NoRoom) }
    {
        let left = (MOST_VERTICES - self.n()) as usize;
        self.vertices.reserve(count.min(left))?;
        Ok(())
    }

    // Takes room for so many numbers more, or for as many as a graph may still give out.
    pub(crate) fn reserve_arcs(&mut self, count: usize) -> Result<(), Refusal>
        ensures same { self.new ≡ self.old }
        ensures err { IfErr result (λ e. e ≡ Refusal.NoRoom) }
    {
        let left = (MOST_ARCS - self.made()) as usize;
        self.slots.reserve(count.min(left))?;
        Ok(())
    }
}

// The values as they are stored.
fn stored_six(fields: [Util; 6]) -> [Util; 6]
    ensures value { result ≡ map stored fields }
    ensures storable { All IsStorable result }
    ensures six { length result ≡ 6 }
{
    let [u, v, w, x, y, z] = fields;
    [
        stored(u),
        stored(v),
        stored(w),
        stored(x),
        stored(y),
        stored(z),
    ]
}
