//! The numbers of vertices and arcs, tips, and the utility fields with their values.
ghost use Rattle.std.specs.Prelude.{◌≡◌};
ghost use Rattle.sgb_graph.specs.Field.{vertex_place, arc_place, graph_place};

use crate::Text;

/// The number of a vertex.
#[derive(Clone, Copy, Debug, PartialEq, Eq)]
pub struct VertexNo(pub u32);

/// The number of an arc.
#[derive(Clone, Copy, Debug, PartialEq, Eq)]
pub struct ArcNo(pub u32);

/// Where an arc leads: to nothing, to the constant 1, or to a vertex.
#[derive(Clone, Copy, Debug, PartialEq, Eq)]
pub enum Tip {
    Zero,
    One,
    To(VertexNo),
}

/// The value of a utility field.
///
/// A graph holds neither `Int(0)` nor an empty text: both are stored as `Zero`.
#[derive(Debug, Drop)]
pub enum Util {
    Zero,
    Int(i64),
    Vertex(VertexNo),
    Arc(ArcNo),
    Text(Text),
}

/// A utility field of a vertex.
#[derive(Clone, Copy, Debug, PartialEq, Eq)]
pub enum VertexField {
    U,
    V,
    W,
    X,
    Y,
    Z,
}

/// A utility field of an arc.
#[derive(Clone, Copy, Debug, PartialEq, Eq)]
pub enum ArcField {
    A,
    B,
}

/// A utility field of the graph.
#[derive(Clone, Copy, Debug, PartialEq, Eq)]
pub enum GraphField {
    Uu,
    Vv,
    Ww,
    Xx,
    Yy,
    Zz,
}

/// A utility field of one vertex, of one arc or of the graph.
#[derive(Clone, Copy, Debug, PartialEq, Eq)]
pub enum Place {
    Vertex(VertexNo, VertexField),
    Arc(ArcNo, ArcField),
    Graph(GraphField),
}

impl PartialEq for Util {
    ghost use Rattle.sgb_graph.specs.Same.{util_eq};
    ghost use Rattle.sgb_graph.specs.Private.SameLaws.{util_eq_laws};

    ghost eq = { util_eq };

    ghost laws = { util_eq_laws };

    fn eq(&self, other: &Util) -> bool {
        match (self, other) {
            (Util::Zero, Util::Zero) => true,
            (Util::Int(number), Util::Int(other)) => number == other,
            (Util::Vertex(vertex), Util::Vertex(other)) => vertex.0 == other.0,
            (Util::Arc(number), Util::Arc(other)) => number.0 == other.0,
            (Util::Text(text), Util::Text(other)) => text == other,
            _ => false,
        }
    }
}

impl Eq for Util {
    ghost use Rattle.sgb_graph.specs.Private.SameLaws.{util_eq_equiv};

    ghost laws = { util_eq_equiv };
}

impl Util {
    ghost use Rattle.sgb_graph.specs.Honest.{is_allowed};

    /// The letter allows the value: `Z` allows `Zero` alone, `I` a number, `V` a vertex or the number 1, `A` an arc or
    /// the number 1, `S` a text, and each of them `Zero`.
    pub fn is_allowed(&self, letter: u8) -> bool
        ensures { result ≡ is_allowed letter self.now }
    {
        match self {
            Util::Zero => true,
            Util::Int(number) => {
                letter == b'I' || ((letter == b'V' || letter == b'A') && *number == 1)
            }
            Util::Vertex(_) => letter == b'V',
            Util::Arc(_) => letter == b'A',
            Util::Text(_) => letter == b'S',
        }
    }
}

impl VertexField {
    /// The place among a vertex's fields, from 0 for `u`.
    pub fn place(self) -> usize
        ensures { result ≡ vertex_place self }
    {
        self as usize
    }
}

impl ArcField {
    /// The place among an arc's fields, from 0 for `a`.
    pub fn place(self) -> usize
        ensures { result ≡ arc_place self }
    {
        self as usize
    }
}

impl GraphField {
    /// The place among the graph's fields, from 0 for `uu`.
    pub fn place(self) -> usize
        ensures { result ≡ graph_place self }
    {
        self as usize
    }
}
