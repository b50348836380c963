//! The commands, the questions and the lines of a script.

use crate::Name;
use sgb_combine::{ComplementSpec, GunionSpec, InducedSpec, LengthsSpec, ProductSpec};
use sgb_graph::{ArcNo, Items, Place, Text, Types, Util, VertexNo};
use sgb_make::{BinarySpec, BoardSpec, PermsSpec, RandomSpec, Seed, SimplexSpec, SubsetsSpec};
use sgb_text::CheckRule;

/// The most commands in a group.
pub const MOST_MEMBERS: usize = 1024;

/// A command that changes the session. A journal keeps it, and one undo reverts it.
#[derive(Debug, Drop, PartialEq, Eq)]
pub enum Command {
    /// A single command.
    One(Single),
    /// `group`, the members, `end`: several commands, accepted whole or not at all.
    Group(Items<Single>),
}

/// A single command that changes the session.
#[derive(Debug, Drop, PartialEq, Eq)]
pub enum Single {
    /// `seed S`: starts the generator from a seed (`gb_init_rand`).
    Seed(i64),
    /// `next`: draws a number (`gb_next_rand`).
    Next,
    /// `unif M`: draws a uniform number below M (`gb_unif_rand`).
    Unif(i64),
    /// Makes a graph, which is added to the end of the table under a new name.
    Make(Name, Maker),
    /// Edits a graph of the table.
    Edit(Name, Edit),
    /// `lengths G directed min max SEED`: gives the arcs of a graph random lengths (`random_lengths`).
    Lengths(Name, LengthsSpec, Seed),
    /// `drop G`: removes a graph from the table.
    Drop(Name),
}

/// How a new graph is made. Names refer to graphs of the table, in the order of the line.
#[derive(Debug, Drop, PartialEq, Eq)]
pub enum Maker {
    /// `graph NAME N`: N vertices and no arcs (`gb_new_graph`).
    Empty(i64),
    /// `board NAME n1 n2 n3 n4 piece wrap directed`: the moves of a piece on a board.
    Board(BoardSpec),
    /// `simplex NAME n n0 n1 n2 n3 n4 directed`: the points of a simplex.
    Simplex(SimplexSpec),
    /// `subsets NAME n n0 n1 n2 n3 n4 size_bits directed`: subsets, joined by the sizes of their overlaps.
    Subsets(SubsetsSpec),
    /// `perms NAME n0 n1 n2 n3 n4 max_inv directed`: permutations of a multiset.
    Perms(PermsSpec),
    /// `binary NAME n max_height directed`: binary trees and their rotations.
    Binary(BinarySpec),
    /// `random NAME n m multi self directed min max SEED`: a random graph (`random_graph`).
    Random(RandomSpec, Seed),
    /// `complement NAME G copy self directed`: joins what G does not join.
    Complement(Name, ComplementSpec),
    /// `gunion NAME G H multi directed`: joins what G or H joins.
    Gunion(Name, Name, GunionSpec),
    /// `intersection NAME G H directed`: joins what both G and H join.
    Intersection(Name, Name, bool),
    /// `product NAME G H type directed`: the pairs of a vertex of G and one of H.
    Product(Name, Name, ProductSpec),
    /// `induced NAME G "D" self multi directed`: drops, copies and merges vertices of G, as their fields z say.
    Induced(Name, Text, InducedSpec),
    /// `load NAME check` or `load NAME any`, with the lines of a saved text (`restore_graph`).
    Load(Items<u8>, CheckRule),
}

/// An edit of a graph.
///
/// Numbers of vertices and arcs beyond `u32` saturate to `u32::MAX`, which is never a valid number.
#[derive(Debug, Drop, PartialEq, Eq)]
pub enum Edit {
    /// `arc G u v len`: adds an arc (`gb_new_arc`).
    Arc(VertexNo, VertexNo, i64),
    /// `edge G u v len`: adds an edge (`gb_new_edge`).
    Edge(VertexNo, VertexNo, i64),
    /// `cut G k`: removes an arc.
    Cut(ArcNo),
    /// `len G k L`: sets the length of an arc.
    Len(ArcNo, i64),
    /// `set G PLACE FIELD VALUE`: sets a utility field.
    Set(Place, Util),
    /// `types G LETTERS`: sets the types of the utility fields.
    Types(Types),
    /// `label G v "T"`: sets the name of a vertex.
    Label(VertexNo, Text),
    /// `id G "T"`: sets the id of the graph.
    Id(Text),
}

/// A question about the session. It changes nothing.
#[derive(Clone, Copy, Debug, PartialEq, Eq)]
pub enum Query {
    /// `gen`: the seed, how many numbers were drawn, and how many words are unread.
    Gen,
    /// `list`: the graphs of the table.
    List,
    /// `show G`: a graph, with its vertices, arcs and fields.
    Show(Name),
    /// `save G`: a graph as a saved text (`save_graph`).
    Save(Name),
}

/// One line of a script.
#[derive(Debug, Drop, PartialEq, Eq)]
pub enum Line {
    /// An empty line, a line of spaces or a comment.
    Nothing,
    /// A command that changes the session.
    Change(Single),
    /// `undo`: reverts the last standing command.
    Undo,
    /// `redo`: performs the command again that was undone last.
    Redo,
    /// A question.
    Query(Query),
    /// `load NAME check` or `load NAME any`: makes a graph from the text in the lines that follow, up to a line `.`.
    Load {
        /// The name of the new graph.
        name: Name,
        /// Whether the check number of the text is compared.
        rule: CheckRule,
    },
    /// `group`: begins a group. The lines up to `end` are its members.
    Group,
    /// `end`: ends a group.
    End,
}
