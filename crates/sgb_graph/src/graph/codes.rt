//! Links, owners and tips in four bytes each.
ghost use Rattle.std.specs.Prelude.{◌≡◌, ◌<◌, ◌≤◌, None, Some};
ghost use Rattle.sgb_graph.specs.declared.field.Tip.TheVariants.{To};
ghost use Rattle.sgb_graph.specs.Graph.{IsTip};

use crate::{ArcNo, Tip, VertexNo};
use std::marker::Model;

/// The code of no arc, and of no owner. What is no number has a code behind all numbers, which are so kept as they are:
/// an arc is made, and a walk follows a list, without a sum for each.
const NONE: u32 = u32::MAX;

/// The code of the tip `Zero`.
const ZERO: u32 = u32::MAX;

/// The code of the tip `One`.
const ONE: u32 = u32::MAX - 1;

/// A link to an arc, or to none.
#[derive(Clone, Copy)]
pub(crate) struct Link {
    // The arc's number, or what is none's.
    code: u32,
}

impl Model for Link {
    ghost use Rattle.std.specs.Prelude.{Option};
    ghost use Rattle.sgb_graph.specs.declared.field.ArcNo.{ArcNo};

    ghost Value = { Option ArcNo };

    ghost use Rattle.sgb_graph.specs.Private.Codes.{link_of, code_of_link};

    ghost view = { λ a. link_of a.code };

    ghost inverse = { λ link. record { code = code_of_link link } };

    ghost use Rattle.sgb_graph.specs.Private.Codes.{link_back};

    ghost inverse_ok = { λ a _. link_back a };
}

impl Link {
    pub fn none() -> Link
        ensures { result ≡ None }
    {
        Link { code: NONE }
    }

    pub fn to(number: ArcNo) -> Link
        requires { number.0 ≤ 1000000 }
        ensures { result ≡ Some number }
    {
        Link { code: number.0 }
    }

    pub fn get(self) -> Option<ArcNo>
        ensures { result ≡ self }
    {
        if self.code == NONE {
            None
        } else {
            Some(ArcNo(self.code))
        }
    }
}

/// The owner of an arc, or none.
#[derive(Clone, Copy)]
pub(crate) struct OwnerCode {
    // The vertex's number, or what is none's.
    code: u32,
}

impl Model for OwnerCode {
    ghost use Rattle.std.specs.Prelude.{Option};
    ghost use Rattle.sgb_graph.specs.declared.field.VertexNo.{VertexNo};

    ghost Value = { Option VertexNo };

    ghost use Rattle.sgb_graph.specs.Private.Codes.{owner_of_code, code_of_owner};

    ghost view = { λ a. owner_of_code a.code };

    ghost inverse = { λ owner. record { code = code_of_owner owner } };

    ghost use Rattle.sgb_graph.specs.Private.Codes.{owner_back};

    ghost inverse_ok = { λ a _. owner_back a };
}

impl OwnerCode {
    pub fn none() -> OwnerCode
        ensures { result ≡ None }
    {
        OwnerCode { code: NONE }
    }

    pub fn new(vertex: VertexNo) -> OwnerCode
        requires { vertex.0 < 65535 }
        ensures { result ≡ Some vertex }
    {
        OwnerCode { code: vertex.0 }
    }

    pub fn get(self) -> Option<VertexNo>
        ensures { result ≡ self }
    {
        if self.code == NONE {
            None
        } else {
            Some(VertexNo(self.code))
        }
    }
}

/// A tip.
#[derive(Clone, Copy)]
pub(crate) struct TipCode {
    // The vertex's number, or what is zero's or one's.
    code: u32,
}

impl Model for TipCode {
    ghost use Rattle.sgb_graph.specs.declared.field.Tip.{Tip};

    ghost Value = { Tip };

    ghost use Rattle.sgb_graph.specs.Private.Codes.{tip_of, code_of_tip};

    ghost view = { λ a. tip_of a.code };

    ghost inverse = { λ tip. record { code = code_of_tip tip } };

    ghost use Rattle.sgb_graph.specs.Private.Codes.{tip_back};

    ghost inverse_ok = { λ a _. tip_back a };
}

impl TipCode {
    pub fn new(tip: Tip) -> TipCode
        requires { IsTip 65535 tip }
        ensures { result ≡ tip }
    {
        match tip {
            Tip::Zero => TipCode { code: ZERO },
            Tip::One => TipCode { code: ONE },
            Tip::To(vertex) => TipCode { code: vertex.0 },
        }
    }

    pub fn get(self) -> Tip
        ensures { result ≡ self }
    {
        if self.code == ZERO {
            Tip::Zero
        } else if self.code == ONE {
            Tip::One
        } else {
            Tip::To(VertexNo(self.code))
        }
    }
}
