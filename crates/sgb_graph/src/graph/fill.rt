//! Putting the names, tips, lengths and values of saved parts into a graph.
ghost use Rattle.std.specs.Prelude.{◌≡◌, ◌<◌, ◌∷◌, ◌&&◌, [], length, slice_index_or, map, true, false, IsTrue, None, IfErr, OnOk};
ghost use Rattle.sgb_graph.specs.Graph.{IsGraph, n_of, made_of, has_arc};
ghost use Rattle.sgb_graph.specs.Edit.{with_util, with_label, util_at, has_place, can_name, stored, refusal_of_util};
ghost use Rattle.sgb_graph.specs.Private.Fill.{can_lead, with_aim, SameNames, can_name_each, can_name_part, can_name_vertices, can_name_arcs, can_name_all, with_filled_vertex, with_filled_arc, FillsVertices, FillsArcs};
ghost use Rattle.sgb_graph.specs.Private.Cells.{is_zero};

use super::Graph;
use super::codes::TipCode;
use super::fields::is_zero;
use crate::{
    ArcField, ArcNo, ArcPart, GraphField, Label, Place, Refusal, Tip, Util, VertexField, VertexNo,
    VertexPart,
};

impl Graph {
    // Each value of the graph and of the vertices names what is there, if anything.
    pub(super) fn can_name_all(&self, fields: &[Util], vertices: &[VertexPart]) -> bool
        ensures { result ≡ can_name_all self.now fields.now vertices.now }
    {
        self.can_name_each(fields) && self.can_name_vertices(vertices)
    }

    fn can_name_each(&self, values: &[Util]) -> bool
        ensures { result ≡ can_name_each self.now values.now }
    {
        values.iter().all(|value| self.can_name(value))
    }

    fn can_name_vertices(&self, vertices: &[VertexPart]) -> bool
        ensures { result ≡ can_name_vertices self.now vertices.now }
    {
        vertices.iter().all(|part| self.can_name_each(&part.fields))
    }

    // The tip and the values of the record.
    fn can_name_part(&self, part: &ArcPart) -> bool
        ensures { result ≡ can_name_part self.now part.now }
    {
        can_lead(self.n(), part.tip) && self.can_name_each(&part.fields)
    }

    // Gives each vertex the name and the values of its part.
    pub(super) fn fill_vertices(&mut self, mut vertices: Vec<VertexPart>)
        requires n { n_of self.old ≡ length vertices.items }
        requires names { can_name_vertices self.old vertices.items ≡ true }
        ensures { FillsVertices vertices.items self.old self.new }
    {
        let _ = self.n();
        while let Some(part) = vertices.pop() {
            let vertex = VertexNo(vertices.len() as u32);
            self.swap_label(vertex, part.label);
            self.fill_vertex(vertex, part.fields);
        }
    }

    // Gives each live arc the tip, the length and the values of its record. Refused where one of them names what is not
    // there; the arcs behind that one are filled then.
    pub(super) fn fill_arcs(&mut self, mut arcs: Vec<ArcPart>) -> Result<(), Refusal>
        requires { made_of self.old ≡ length arcs.items }
        ensures ok { OnOk result (FillsArcs arcs.items self.old self.new) }
        ensures err { IfErr result (λ e. (e ≡ Refusal.BadOperand) × (can_name_arcs self.old arcs.items ≡ false)) }
    {
        let _ = self.n();
        while let Some(part) = arcs.pop() {
            let number = ArcNo(arcs.len() as u32);
            if self.has_arc(number) {
                if !self.can_name_part(&part) {
                    return Err(Refusal::BadOperand);
                }
                self.fill_arc(number, part);
            }
        }
        Ok(())
    }

    // Gives the graph's own fields these values.
    pub(super) fn fill_own(&mut self, fields: [Util; 6])
        requires { can_name_each self.old fields ≡ true }
        ensures value { self.new ≡ record self.old { fields = map stored fields } }
        ensures sound { IsGraph self.new }
    {
        let (uu, vv, ww, xx, yy, zz) = six(fields);
        self.fill(Place::Graph(GraphField::Uu), uu);
        self.fill(Place::Graph(GraphField::Vv), vv);
        self.fill(Place::Graph(GraphField::Ww), ww);
        self.fill(Place::Graph(GraphField::Xx), xx);
        self.fill(Place::Graph(GraphField::Yy), yy);
        self.fill(Place::Graph(GraphField::Zz), zz);
    }

    fn fill_vertex(&mut self, vertex: VertexNo, fields: [Util; 6])
        requires vertex { vertex.0 < n_of self.old }
        requires names { can_name_each self.old fields ≡ true }
        ensures filled { self.new ≡ with_filled_vertex self.old vertex.0 fields }
        ensures sound { IsGraph self.new }
    {
        let (u, v, w, x, y, z) = six(fields);
        self.fill(Place::Vertex(vertex, VertexField::U), u);
        self.fill(Place::Vertex(vertex, VertexField::V), v);
        self.fill(Place::Vertex(vertex, VertexField::W), w);
        self.fill(Place::Vertex(vertex, VertexField::X), x);
        self.fill(Place::Vertex(vertex, VertexField::Y), y);
        self.fill(Place::Vertex(vertex, VertexField::Z), z);
    }

    fn fill_arc(&mut self, number: ArcNo, part: ArcPart)
        requires live { has_arc self.old number.0 ≡ true }
        requires names { can_name_part self.old part ≡ true }
        ensures filled { self.new ≡ with_filled_arc self.old number.0 part }
        ensures sound { IsGraph self.new }
    {
        self.aim(number, part.tip, part.len);
        let (a, b) = two(part.fields);
        self.fill(Place::Arc(number, ArcField::A), a);
        self.fill(Place::Arc(number, ArcField::B), b);
    }

    // Gives a live arc this tip and this length.
    fn aim(&mut self, number: ArcNo, tip: Tip, len: i64)
        requires live { has_arc self.old number.0 ≡ true }
        requires tip { can_lead (n_of self.old) tip ≡ true }
        ensures value { self.new ≡ with_aim self.old number.0 tip len }
        ensures names { SameNames self.old self.new }
        ensures sound { IsGraph self.new }
    {
        self.slots.aim(number, TipCode::new(tip), len);
    }

    // Gives one field a value that it may hold. Most fields are Zero and stay so.
    #[inline(always)]
    fn fill(&mut self, place: Place, value: Util)
        requires { refusal_of_util self.old place value ≡ None }
        ensures value { self.new ≡ with_util self.old place (stored value) }
        ensures names { SameNames self.old self.new }
        ensures before { IsGraph self.old }
        ensures sound { IsGraph self.new }
    {
        let _ = self.n();
        if !self.stays_zero(place, &value) {
            let done = self.set_util(place, value);
            prove!(done.is_ok());
        }
    }

    // The field and the value that it is given are Zero.
    fn stays_zero(&self, place: Place, value: &Util) -> bool
        requires { IsTrue (has_place self.now place) }
        ensures { result ≡ (is_zero value.now && is_zero (util_at self.now place)) }
    {
        is_zero(value) && is_zero(self.util(place))
    }
}

// A tip that names a vertex names one of so many.
fn can_lead(n: u32, tip: Tip) -> bool
    ensures { result ≡ can_lead n tip }
{
    match tip {
        Tip::Zero | Tip::One => true,
        Tip::To(vertex) => vertex.0 < n,
    }
}

fn six(fields: [Util; 6]) -> (Util, Util, Util, Util, Util, Util)
    ensures len { length fields ≡ 6 }
    ensures first { slice_index_or fields 0 result.0 ≡ result.0 }
    ensures second { slice_index_or fields 1 result.1 ≡ result.1 }
    ensures third { slice_index_or fields 2 result.2 ≡ result.2 }
    ensures fourth { slice_index_or fields 3 result.3 ≡ result.3 }
    ensures fifth { slice_index_or fields 4 result.4 ≡ result.4 }
    ensures sixth { slice_index_or fields 5 result.5 ≡ result.5 }
{
    let [u, v, w, x, y, z] = fields;
    (u, v, w, x, y, z)
}

fn two(fields: [Util; 2]) -> (Util, Util)
    ensures { fields ≡ result.0 ∷ result.1 ∷ [] }
{
    let [a, b] = fields;
    (a, b)
}
