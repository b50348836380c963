//! The formats of an export.

/// A text format of another tool.
#[derive(Clone, Copy, Debug, PartialEq, Eq)]
pub enum Format {
    /// The language of Graphviz.
    Dot,
    /// The language of Graphviz, with the position of each vertex in points: 72 times its fields `x` and `y`.
    PlacedDot,
    /// The shortest-path format of DIMACS. Vertices are numbered from 1, and every arc is written.
    Dimacs,
    /// The edge format of DIMACS, which has no lengths. Vertices are numbered from 1.
    Col,
    /// A line for each edge or arc: the numbers of its endpoints, from 0, and its length.
    Edges,
    /// A line for each edge or arc: the labels of its endpoints, and its length.
    NamedEdges,
    /// graph6: one line with a bit for each two vertices, which has no lengths.
    Graph6,
    /// GraphML.
    Graphml,
}
