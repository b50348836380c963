//! Setting lengths, fields, labels, the id and the letters.
ghost use Rattle.std.specs.Prelude.{◌≡◌, ◌<◌, ◌≤◌, length, IsTrue, IsSome, IfOk, IfErr, OnOk, OnErr, None, Some, slice_set, slice_index_or};
ghost use Rattle.sgb_graph.specs.declared.field.Util.TheVariants as utils;
ghost use Rattle.sgb_graph.specs.Private.Exchange.{fields_in};
ghost use Rattle.sgb_graph.specs.Graph.{IsGraph, n_of, arc_at, has_arc, label_of};
ghost use Rattle.sgb_graph.specs.Edit.{with_len, with_util, with_label, util_at, entry_at, stored, can_name, has_place, refusal_of_len, refusal_of_util, refusal_of_label, refusal_of_id};
ghost use Rattle.sgb_graph.specs.Delta.{LeftBy, LeftByLen, LeftByLabel, LeftById};
ghost use Rattle.sgb_graph.specs.Private.Arena.{slot_at};
ghost use Rattle.sgb_graph.specs.Set.{IsStorable};
ghost use Rattle.sgb_graph.specs.Private.Arena.{len_in, with_len_in};

use super::Graph;
use crate::{ArcNo, GraphDelta, Label, Place, Refusal, Text, Types, Util, VertexNo};
use std::mem;

impl Graph {
    /// Gives an arc another length. Answers what `revert` needs, and takes no memory. Refused `BadOperand` where no
    /// arc has this number.
    pub fn set_len(&mut self, number: ArcNo, len: i64) -> Result<GraphDelta, Refusal>
        ensures accepted { OnOk result (refusal_of_len self.old number.0 ≡ None) }
        ensures delta { IfOk result (λ d. d ≡ GraphDelta.SetLen number (entry_at self.old number.0).len) }
        ensures graph { OnOk result (self.new ≡ with_len self.old number.0 len) }
        ensures left { IfOk result (λ d. LeftBy self.old d self.new) }
        ensures err { IfErr result (λ e. refusal_of_len self.old number.0 ≡ Some e) }
        ensures unchanged { OnErr result (self.new ≡ self.old) }
        ensures sound { IsGraph self.new }
    {
        if !self.has_arc(number) {
            return Err(Refusal::BadOperand);
        }
        let old = self.swap_len(number, len);
        Ok(GraphDelta::SetLen(number, old))
    }

    /// Gives an arc of the graph another length, and answers the one that it had. Takes no memory.
    pub fn swap_len(&mut self, number: ArcNo, len: i64) -> i64
        requires { IsSome (arc_at self.old number.0) }
        ensures value { result ≡ (entry_at self.old number.0).len }
        ensures graph { self.new ≡ with_len self.old number.0 len }
        ensures left { LeftByLen self.old number result self.new }
        ensures sound { IsGraph self.new }
    {
        self.slots.replace_len(number, len)
    }

    /// Gives a utility field another value, where the number 0 and the empty text are stored as `Zero`. Answers what
    /// `revert` needs, and takes no memory. Refused `BadOperand` where there is no such field, or where the value
    /// names no vertex or no arc of the graph.
    pub fn set_util(&mut self, place: Place, value: Util) -> Result<GraphDelta, Refusal>
        ensures accepted { OnOk result (refusal_of_util self.old place value ≡ None) }
        ensures delta { IfOk result (λ d. d ≡ GraphDelta.SetUtil place (util_at self.old place)) }
        ensures graph { OnOk result (self.new ≡ with_util self.old place (stored value)) }
        ensures left { IfOk result (λ d. LeftBy self.old d self.new) }
        ensures err { IfErr result (λ e. refusal_of_util self.old place value ≡ Some e) }
        ensures unchanged { OnErr result (self.new ≡ self.old) }
        ensures sound { IsGraph self.new }
    {
        if !self.has_place(place) || !self.can_name(&value) {
            return Err(Refusal::BadOperand);
        }
        let old = self.swap_util(place, stored(value));
        Ok(GraphDelta::SetUtil(place, old))
    }

    /// Gives a vertex another label. Answers what `revert` needs, and takes no memory. Refused `BadOperand` where
    /// there is no such vertex.
    pub fn set_label(&mut self, vertex: VertexNo, text: Text) -> Result<GraphDelta, Refusal>
        ensures accepted { OnOk result (refusal_of_label self.old vertex.0 ≡ None) }
        ensures delta { IfOk result (λ d. d ≡ GraphDelta.SetLabel vertex (label_of self.old vertex.0)) }
        ensures graph { OnOk result (self.new ≡ with_label self.old vertex.0 text) }
        ensures left { IfOk result (λ d. LeftBy self.old d self.new) }
        ensures err { IfErr result (λ e. refusal_of_label self.old vertex.0 ≡ Some e) }
        ensures unchanged { OnErr result (self.new ≡ self.old) }
        ensures sound { IsGraph self.new }
    {
        if vertex.0 >= self.n() {
            return Err(Refusal::BadOperand);
        }
        let old = self.swap_label(vertex, Label::new(text));
        Ok(GraphDelta::SetLabel(vertex, old))
    }

    // Gives a vertex another label, and answers the one that it had.
    pub(super) fn swap_label(&mut self, vertex: VertexNo, label: Label) -> Label
        requires { vertex.0 < n_of self.old }
        ensures value { result ≡ label_of self.old vertex.0 }
        ensures graph { self.new ≡ with_label self.old vertex.0 label }
        ensures left { LeftByLabel self.old vertex result self.new }
        ensures sound { IsGraph self.new }
    {
        let _ = label.bytes();
        self.vertices.replace_label(vertex, label)
    }

    /// Gives the graph another id. Answers what `revert` needs, and takes no memory. Refused `BadOperand` above 160
    /// bytes.
    pub fn set_id(&mut self, id: Text) -> Result<GraphDelta, Refusal>
        ensures accepted { OnOk result (refusal_of_id id ≡ None) }
        ensures delta { IfOk result (λ d. d ≡ GraphDelta.SetId self.old.id) }
        ensures graph { OnOk result (self.new ≡ record self.old { id = id }) }
        ensures left { IfOk result (λ d. LeftBy self.old d self.new) }
        ensures err { IfErr result (λ e. refusal_of_id id ≡ Some e) }
        ensures unchanged { OnErr result (self.new ≡ self.old) }
        ensures sound { IsGraph self.new }
    {
        let _ = &self.id;
        if id.bytes().len() > 160 {
            return Err(Refusal::BadOperand);
        }
        Ok(GraphDelta::SetId(self.swap_id(id)))
    }

    /// Gives the graph another id, and answers the one that it had. Takes no memory.
    pub fn swap_id(&mut self, id: Text) -> Text
        requires { length id ≤ 160 }
        ensures value { result ≡ self.old.id }
        ensures graph { self.new ≡ record self.old { id = id } }
        ensures left { LeftById self.old result self.new }
        ensures sound { IsGraph self.new }
    {
        let _ = id.bytes();
        mem::replace(&mut self.id, id)
    }

    /// Gives the graph other letters. Answers what `revert` needs, takes no memory and is never refused.
    pub fn set_types(&mut self, types: Types) -> GraphDelta
        ensures delta { result ≡ GraphDelta.SetTypes self.old.types }
        ensures graph { self.new ≡ record self.old { types = types } }
        ensures left { LeftBy self.old result self.new }
        ensures sound { IsGraph self.new }
    {
        let _ = types.letters();
        let old = mem::replace(&mut self.types, types);
        GraphDelta::SetTypes(old)
    }

    /// The value of a utility field.
    pub fn util(&self, place: Place) -> &Util
        requires { IsTrue (has_place self.now place) }
        ensures { result.now ≡ util_at self.now place }
    {
        match place {
            Place::Vertex(vertex, field) => self.vertices.field(vertex, field.place()),
            Place::Arc(number, field) => self.slots.field(number, field.place()),
            Place::Graph(field) => &self.fields[field.place()],
        }
    }

    pub(super) fn has_arc(&self, number: ArcNo) -> bool
        ensures value { result ≡ has_arc self.now number.0 }
        ensures sound { IsGraph self.now }
    {
        self.slots.has(number)
    }

    fn has_place(&self, place: Place) -> bool
        ensures value { result ≡ has_place self.now place }
        ensures sound { IsGraph self.now }
    {
        let n = self.n();
        match place {
            Place::Vertex(vertex, _) => vertex.0 < n,
            Place::Arc(number, _) => self.has_arc(number),
            Place::Graph(_) => true,
        }
    }

    pub(super) fn can_name(&self, value: &Util) -> bool
        ensures value { result ≡ can_name self.now value.now }
        ensures sound { IsGraph self.now }
    {
        let n = self.n();
        match value {
            Util::Vertex(vertex) => vertex.0 < n,
            Util::Arc(number) => self.has_arc(*number),
            Util::Zero | Util::Int(_) | Util::Text(_) => true,
        }
    }
}

// The value as it is stored.
pub(super) fn stored(value: Util) -> Util
    ensures value { result ≡ stored value }
    ensures storable { IsStorable result }
{
    match value {
        Util::Int(0) => Util::Zero,
        Util::Text(text) => {
            if text.bytes().is_empty() {
                Util::Zero
            } else {
                Util::Text(text)
            }
        }
        value => value,
    }
}
