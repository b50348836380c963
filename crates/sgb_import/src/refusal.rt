//! Why a text is refused.
ghost use Rattle.std.specs.Prelude.{◌≡◌};
ghost use Rattle.sgb_import.specs.Refusal.{number_of, number_of_fault};

use std::alloc::{AllocError, AllocFailed};
use thiserror::Error;

/// Why a text spells no graph.
#[derive(Clone, Copy, Debug, PartialEq, Eq, Error)]
pub enum ImportRefusal {
    /// An allocation failed.
    #[error("no room")]
    NoRoom,
    /// A line is not as it should be.
    #[error("(line {line}: {fault})")]
    At {
        /// The number of the line, from 1.
        line: usize,
        /// What is wrong with it.
        fault: TextFault,
    },
}

/// What is wrong with a line.
#[derive(Clone, Copy, Debug, PartialEq, Eq, Error)]
pub enum TextFault {
    /// No line of the format.
    #[error("not a line of this format")]
    NotALine,
    /// Not two endpoints, with a length or without.
    #[error("not an edge")]
    NotAnEdge,
    /// Not two endpoints and a length.
    #[error("not an arc")]
    NotAnArc,
    /// Not a graph in graph6.
    #[error("not a graph")]
    NotAGraph,
    /// A second graph.
    #[error("more than one graph")]
    SecondGraph,
    /// Not a problem with a number of vertices and one of edges or arcs.
    #[error("not a problem")]
    NotAProblem,
    /// A second problem.
    #[error("more than one problem")]
    SecondProblem,
    /// There is no problem, or an edge or arc stands before it.
    #[error("no problem before it")]
    NoProblem,
    /// An endpoint that the number of vertices excludes.
    #[error("no such vertex")]
    NoSuchVertex,
    /// The line announces edges where arcs are asked for.
    #[error("not directed")]
    NotDirected,
    /// The line announces another number of edges or arcs than there are.
    #[error("wrong number of edges")]
    WrongEdges,
    /// The line announces another number of vertices than have names.
    #[error("wrong number of vertices")]
    WrongVertices,
    /// More vertices than a graph may have.
    #[error("too many vertices")]
    TooManyVertices,
    /// More arcs than a graph may have.
    #[error("too many arcs")]
    TooManyArcs,
    /// An id that no graph may have.
    #[error("bad id")]
    BadId,
    /// A name that no vertex may have.
    #[error("bad name")]
    BadName,
}

impl ImportRefusal {
    /// The number of the refusal.
    pub fn number(self) -> u8
        ensures { result ≡ number_of self }
    {
        match self {
            ImportRefusal::NoRoom => 1,
            ImportRefusal::At { fault, .. } => fault.number(),
        }
    }
}

impl TextFault {
    /// The number of the refusal: 20 if the text is at fault, 40 above a limit, 60 for an id or a name.
    pub fn number(self) -> u8
        ensures { result ≡ number_of_fault self }
    {
        match self {
            TextFault::TooManyVertices | TextFault::TooManyArcs => 40,
            TextFault::BadId | TextFault::BadName => 60,
            _ => 20,
        }
    }
}
