//! What a command leaves for its undoing, and what it replies.

use crate::boxed::Boxed;
use crate::mark::Mark;
use sgb_combine::LengthsDelta;
use sgb_graph::{ArcNo, Graph, GraphDelta};
use sgb_script::Name;
use sgb_undo::Members;

/// What undoing a command needs beside the command. It holds no copy of a graph or of the table.
#[derive(Drop, PartialEq, Eq)]
pub enum Delta {
    /// What undoing a single command needs.
    One(SingleDelta),
    /// What undoing each member of a group needs, in order.
    Group(Members<SingleDelta>),
}

/// What an accepted command replies.
#[derive(Debug, Drop, PartialEq, Eq)]
pub enum Reply {
    /// The reply to a single command.
    One(SingleReply),
    /// The replies to the members of a group, in order.
    Group(Members<SingleReply>),
}

/// What undoing a single command needs beside the command.
#[derive(Drop, PartialEq, Eq)]
pub enum SingleDelta {
    /// The generator before a seeding.
    Seed(Mark),
    /// How many numbers were drawn.
    Draws(u64),
    /// A graph was made; it stands last in the table.
    Made,
    /// A random graph was made; it stands last in the table.
    MadeBy(Source),
    /// The graph at this place of the table was edited.
    Edit(usize, GraphDelta),
    /// The graph at this place got new lengths.
    Lengths(usize, LengthsDelta, Source),
    /// The graph that left the table, with its place and its name.
    Dropped(usize, Name, Boxed<Graph>),
}

/// What turns the generator back after random work.
#[derive(Drop, PartialEq, Eq)]
pub enum Source {
    /// How many numbers were drawn from the generator, which went on.
    Draws(u64),
    /// The generator before it was seeded anew.
    Seeded(Mark),
}

/// What an accepted single command replies.
#[derive(Clone, Copy, Debug, PartialEq, Eq)]
pub enum SingleReply {
    /// It is done.
    Done,
    /// The number that was drawn.
    Number(u32),
    /// The name of the graph that was made, and how many vertices and arcs it has.
    Made(Name, u32, u32),
    /// The number of a new arc.
    Arc(ArcNo),
    /// The numbers of a new edge's two arcs.
    Edge(ArcNo, ArcNo),
}
