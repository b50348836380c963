//! The vertices of a graph by number.
ghost use Rattle.std.specs.Prelude.{◌≡◌, ◌<◌, ◌≤◌, ◌+◌, ◌∷◌, ◌++◌, [], true, max, length, replicate, vec_len, vec_capacity, OnOk, OnErr, IfOk, IsErr, slice_index_or, slice_set};
ghost use Rattle.std.specs.List.{list_all};
ghost use Rattle.sgb_graph.specs.declared.field.Util.TheVariants as utils;
ghost use Rattle.sgb_graph.specs.Honest.{are_allowed};
ghost use Rattle.sgb_graph.specs.New.{six_zeros};
ghost use Rattle.sgb_graph.specs.Private.Vertices.{blank, values_at, SameValues, PutsValues, row, unlinked, with_first, with_name, with_value};
ghost use Rattle.sgb_graph.specs.Private.Link.{vertex_in};
ghost use Rattle.sgb_graph.specs.Private.SameRows.{each_eq, row_eq};

use super::codes::Link;
use super::fields::is_zero;
use super::honest::are_allowed;
use super::new::six_zeros;
use super::room::reserve;
use super::same::is_link_same;
use crate::{Label, Util, VertexNo};
use std::alloc::{AllocError, Global};
use std::marker::Model;
use std::mem;

/// The vertices by number.
#[derive(Drop)]
pub(crate) struct Vertices {
    labels: Vec<Label>,
    // The link to the first arc of each.
    firsts: Vec<Link>,
    // The fields of the first vertices: those of all others are Zero. There is room for those of all vertices, so
    // that a field can be set without memory.
    fields: Vec<[Util; 6]>,
    // What all others have.
    zeros: [Util; 6],
}

impl Model for Vertices {
    ghost use Rattle.std.specs.Prelude.{◌≡◌, ◌≤◌, List, vec_len, vec_capacity};
    ghost use Rattle.sgb_graph.specs.declared.graph.Vertex.{Vertex};

    ghost Value = { List Vertex };

    ghost use Rattle.sgb_graph.specs.New.{six_zeros};
    ghost use Rattle.sgb_graph.specs.Private.Vertices.{rows, first_at, values_at};

    ghost view = { λ a. rows a.labels.items (first_at a.firsts.items) (values_at a.fields.items) };

    ghost invariant = { λ a. (vec_len a.firsts ≡ vec_len a.labels) × (vec_len a.fields ≤ vec_len a.labels) × (vec_len a.labels ≤ vec_capacity a.fields) × (a.zeros ≡ six_zeros) };
}

impl Vertices {
    /// No vertices. Takes no memory.
    pub fn new(alloc: Global) -> Vertices
        ensures { result ≡ [] }
    {
        Vertices {
            labels: Vec::new(alloc),
            firsts: Vec::new(alloc),
            fields: Vec::new(alloc),
            zeros: six_zeros(),
        }
    }

    /// So many blank vertices.
    pub fn blank(alloc: Global, n: u32) -> Result<Vertices, AllocError>
        ensures ok { IfOk result (λ v. v ≡ replicate n blank) }
        ensures room { IsErr result → 0 < n }
    {
        let mut labels = Vec::with_capacity(alloc, n as usize)?;
        let mut firsts = Vec::with_capacity(alloc, n as usize)?;
        let fields = Vec::with_capacity(alloc, n as usize)?;
        for _i in 0..n {
            labels.push_reserved(Label::empty());
            firsts.push_reserved(Link::none());
        }
        Ok(Vertices {
            labels,
            firsts,
            fields,
            zeros: six_zeros(),
        })
    }

    pub fn len(&self) -> usize
        ensures { result ≡ length self.now }
    {
        self.labels.len()
    }

    /// Takes room for so many vertices more.
    pub fn reserve(&mut self, count: usize) -> Result<(), AllocError>
        ensures { self.new ≡ self.old }
    {
        make_room(&mut self.labels, &mut self.firsts, &mut self.fields, count)
    }

    /// Adds a vertex without arcs, last.
    pub fn push(&mut self, label: Label, fields: [Util; 6]) -> Result<(), AllocError>
        ensures ok { OnOk result (self.new ≡ self.old ++ unlinked label fields ∷ []) }
        ensures unchanged { OnErr result (self.new ≡ self.old) }
    {
        make_room(&mut self.labels, &mut self.firsts, &mut self.fields, 1)?;
        put_last(&mut self.fields, self.labels.len(), fields);
        self.labels.push_reserved(label);
        self.firsts.push_reserved(Link::none());
        Ok(())
    }

    pub fn label(&self, vertex: VertexNo) -> &Label
        requires { vertex.0 < length self.now }
        ensures { result.now ≡ (vertex_in self.now vertex.0).label }
    {
        &self.labels[vertex.0 as usize]
    }

    /// Gives a vertex another label, and answers the one that it had.
    pub fn replace_label(&mut self, vertex: VertexNo, label: Label) -> Label
        requires { vertex.0 < length self.old }
        ensures old { result ≡ (vertex_in self.old vertex.0).label }
        ensures vertices { self.new ≡ slice_set self.old vertex.0 (with_name label (vertex_in self.old vertex.0)) }
    {
        mem::replace(&mut self.labels[vertex.0 as usize], label)
    }

    /// The link that leads to the first arc of a vertex.
    pub fn first(&self, vertex: VertexNo) -> Link
        requires { vertex.0 < length self.now }
        ensures { result ≡ (vertex_in self.now vertex.0).first }
    {
        self.firsts[vertex.0 as usize]
    }

    /// Replaces the first link of a vertex, and gives the one that was there.
    pub fn replace_first(&mut self, vertex: VertexNo, link: Link) -> Link
        requires { vertex.0 < length self.old }
        ensures old { result ≡ (vertex_in self.old vertex.0).first }
        ensures vertices { self.new ≡ slice_set self.old vertex.0 (with_first link (vertex_in self.old vertex.0)) }
    {
        mem::replace(&mut self.firsts[vertex.0 as usize], link)
    }

    /// The fields of a vertex.
    pub fn fields(&self, index: usize) -> &[Util; 6]
        requires { index < length self.now }
        ensures { result.now ≡ (vertex_in self.now index).fields }
    {
        values_at(&self.fields, &self.zeros, index)
    }

    /// A field of a vertex.
    pub fn field(&self, vertex: VertexNo, place: usize) -> &Util
        requires vertex { vertex.0 < length self.now }
        requires fields { length (vertex_in self.now vertex.0).fields ≡ 6 }
        requires place { place < 6 }
        ensures { result.now ≡ slice_index_or (vertex_in self.now vertex.0).fields place utils.Zero }
    {
        &self.fields(vertex.0 as usize)[place]
    }

    /// Puts a value into a field of a vertex, and gives the one that was there. Takes no memory, but the first value
    /// that is put beyond all vertices that ever had one costs time of the vertices between.
    pub fn replace_field(&mut self, vertex: VertexNo, place: usize, value: Util) -> Util
        requires vertex { vertex.0 < length self.old }
        requires fields { length (vertex_in self.old vertex.0).fields ≡ 6 }
        requires place { place < 6 }
        ensures old { result ≡ slice_index_or (vertex_in self.old vertex.0).fields place utils.Zero }
        ensures vertices { self.new ≡ slice_set self.old vertex.0 (with_value place value (vertex_in self.old vertex.0)) }
    {
        replace_value(&mut self.fields, vertex.0 as usize, place, value)
    }

    /// Each value of a vertex is one that its letter allows.
    pub fn is_honest(&self, letters: &[u8]) -> bool
        ensures { result ≡ list_all (λ v. are_allowed letters.now v.fields) self.now }
    {
        are_all_allowed(letters, &self.fields)
    }

    /// The vertices are alike.
    pub fn is_same(&self, other: &Vertices) -> bool
        ensures { result ≡ each_eq row_eq self.now other.now }
    {
        if self.len() != other.len() {
            return false;
        }
        for index in 0..self.len() {
            if !self.is_vertex_same(other, index) {
                return false;
            }
        }
        true
    }

    fn is_vertex_same(&self, other: &Vertices, index: usize) -> bool
        requires here { index < length self.now }
        requires there { index < length other.now }
        ensures { result ≡ row_eq (vertex_in self.now index) (vertex_in other.now index) }
    {
        is_row_same(
            &self.labels[index],
            &other.labels[index],
            self.fields(index),
            other.fields(index),
            self.firsts[index],
            other.firsts[index],
        )
    }
}

// Takes room for so many vertices more, for the first link of each, and for the fields of all.
fn make_room(
    labels: &mut Vec<Label>,
    firsts: &mut Vec<Link>,
    fields: &mut Vec<[Util; 6]>,
    count: usize,
) -> Result<(), AllocError>
    requires { vec_len fields.old ≤ vec_len labels.old }
    ensures labels { labels.new.items ≡ labels.old.items }
    ensures labels_len { vec_len labels.new ≡ vec_len labels.old }
    ensures firsts { firsts.new.items ≡ firsts.old.items }
    ensures firsts_len { vec_len firsts.new ≡ vec_len firsts.old }
    ensures fields { fields.new.items ≡ fields.old.items }
    ensures fields_len { vec_len fields.new ≡ vec_len fields.old }
    ensures room { OnOk result (vec_len labels.old + count ≤ vec_capacity labels.new) }
    ensures firsts_room { OnOk result (vec_len firsts.old + count ≤ vec_capacity firsts.new) }
    ensures fields_room { OnOk result (vec_len labels.old + count ≤ vec_capacity fields.new) }
    ensures capacity { vec_capacity fields.old ≤ vec_capacity fields.new }
{
    reserve(labels, fields, count)?;
    firsts.reserve(count)
}

fn is_row_same(
    label: &Label,
    other_label: &Label,
    fields: &[Util; 6],
    other_fields: &[Util; 6],
    first: Link,
    other_first: Link,
) -> bool
    ensures { result ≡ row_eq (row label.now first fields.now) (row other_label.now other_first other_fields.now) }
{
    label == other_label && fields == other_fields && is_link_same(first, other_first)
}

// The fields of the vertex of this number, where those beyond the end are the zeros.
fn values_at<'a>(fields: &'a [[Util; 6]], zeros: &'a [Util; 6], index: usize) -> &'a [Util; 6]
    requires { zeros.now ≡ six_zeros }
    ensures { result.now ≡ values_at fields.now index }
{
    match fields.get(index) {
        Some(fields) => fields,
        None => zeros,
    }
}

// Fills up with Zeros to so many.
fn fill_to(fields: &mut Vec<[Util; 6]>, count: usize)
    requires fewer { vec_len fields.old ≤ count }
    requires room { count ≤ vec_capacity fields.old }
    ensures same { SameValues fields.old.items fields.new.items }
    ensures len { vec_len fields.new ≡ count }
    ensures capacity { vec_capacity fields.new ≡ vec_capacity fields.old }
{
    for _number in fields.len()..count {
        fields.push_reserved(six_zeros());
    }
}

// Gives the vertex of this number, which is the last, these fields. Most are Zero, and then nothing is touched.
fn put_last(fields: &mut Vec<[Util; 6]>, index: usize, values: [Util; 6])
    requires last { vec_len fields.old ≤ index }
    requires room { index < vec_capacity fields.old }
    ensures puts { PutsValues fields.old.items index values fields.new.items }
    ensures len { vec_len fields.new ≤ index + 1 }
    ensures capacity { vec_capacity fields.new ≡ vec_capacity fields.old }
{
    if !are_zero(&values) {
        fill_to(fields, index);
        fields.push_reserved(values);
    }
}

fn are_zero(values: &[Util; 6]) -> bool
    ensures { result ≡ true → values.now ≡ six_zeros }
{
    let [u, v, w, x, y, z] = values;
    is_zero(u) && is_zero(v) && is_zero(w) && is_zero(x) && is_zero(y) && is_zero(z)
}

// Puts a value into a field of the vertex of this number, and gives the one that was there.
fn replace_value(fields: &mut Vec<[Util; 6]>, index: usize, place: usize, value: Util) -> Util
    requires room { index < vec_capacity fields.old }
    requires fields { length (values_at fields.old.items index) ≡ 6 }
    requires place { place < 6 }
    ensures old { result ≡ slice_index_or (values_at fields.old.items index) place utils.Zero }
    ensures puts { PutsValues fields.old.items index (slice_set (values_at fields.old.items index) place value) fields.new.items }
    ensures len { vec_len fields.new ≤ max (vec_len fields.old) (index + 1) }
    ensures capacity { vec_capacity fields.new ≡ vec_capacity fields.old }
{
    if index >= fields.len() {
        if is_zero(&value) {
            return value;
        }
        fill_to(fields, index + 1);
    }
    mem::replace(&mut fields[index][place], value)
}

// Each vertex's values, as far as there are fields.
fn are_all_allowed(letters: &[u8], fields: &[[Util; 6]]) -> bool
    ensures { result ≡ list_all (are_allowed letters.now) fields.now }
{
    fields.iter().all(|fields| are_allowed(letters, fields))
}
