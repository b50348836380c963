//! Whether each value is one that its letter allows.
ghost use Rattle.std.specs.Prelude.{◌≡◌};
ghost use Rattle.sgb_graph.specs.Honest.{are_allowed, is_honest};

use super::Graph;
use crate::Util;

impl Graph {
    /// Each utility field holds a value that its letter allows.
    pub fn is_honest(&self) -> bool
        ensures { result ≡ is_honest self.now }
    {
        let letters = self.types.letters();
        let (vertex_letters, rest) = letters.split_at(6);
        let (arc_letters, graph_letters) = rest.split_at(2);
        if !are_allowed(graph_letters, &self.fields) {
            return false;
        }
        if !self.vertices.is_honest(vertex_letters) {
            return false;
        }
        self.slots.is_honest(arc_letters)
    }
}

// Each value is allowed by the letter at its place.
pub(super) fn are_allowed(letters: &[u8], values: &[Util]) -> bool
    ensures { result ≡ are_allowed letters.now values.now }
{
    values
        .iter()
        .zip(letters)
        .all(|(value, letter)| value.is_allowed(*letter))
}
