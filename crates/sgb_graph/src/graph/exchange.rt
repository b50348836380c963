//! Putting a value into a utility field.
ghost use Rattle.std.specs.Prelude.{◌≡◌};
ghost use Rattle.sgb_graph.specs.Graph.{IsGraph};
ghost use Rattle.sgb_graph.specs.Edit.{with_util, util_at};
ghost use Rattle.sgb_graph.specs.Private.Exchange.{IsPlaceIn, value_in, fields_with, vertices_with, slots_with, CanExchange};

use super::arena::Arena;
use super::{Graph, Vertices};
use crate::{Place, Util};
use std::mem;

impl Graph {
    // Gives a field another value, as it is stored, and answers the one that it had.
    pub(super) fn swap_util(&mut self, place: Place, value: Util) -> Util
        requires { CanExchange self.old place value }
        ensures value { result ≡ util_at self.old place }
        ensures graph { self.new ≡ with_util self.old place value }
        ensures sound { IsGraph self.new }
    {
        self.slots.gain_name(&value);
        let old = replace_value(
            &mut self.fields,
            &mut self.vertices,
            &mut self.slots,
            place,
            value,
        );
        self.slots.lose_name(&old);
        old
    }
}

// Puts the value into the field, and gives the one that was there. No count of names is touched.
fn replace_value(
    fields: &mut [Util; 6],
    vertices: &mut Vertices,
    slots: &mut Arena,
    place: Place,
    value: Util,
) -> Util
    requires { IsPlaceIn fields.old vertices.old slots.old place }
    ensures old { result ≡ value_in fields.old vertices.old slots.old place }
    ensures fields { fields.new ≡ fields_with fields.old place value }
    ensures vertices { vertices.new ≡ vertices_with vertices.old place value }
    ensures slots { slots.new ≡ slots_with slots.old place value }
{
    match place {
        Place::Vertex(vertex, field) => vertices.replace_field(vertex, field.place(), value),
        Place::Arc(number, field) => slots.replace_field(number, field.place(), value),
        Place::Graph(field) => mem::replace(&mut fields[field.place()], value),
    }
}
