//! The formats of an import.

/// A text format of another tool.
#[derive(Clone, Copy, Debug, PartialEq, Eq)]
pub enum Source {
    /// A line for each edge or arc: its endpoints, and its length if that is not 1.
    Edges(EdgeList),
    /// The formats of DIMACS: shortest paths (`p sp`), and edges (`p edge` or `p col`).
    Dimacs,
    /// One graph in graph6.
    Graph6,
}

/// How a list of edges is read.
#[derive(Clone, Copy, Debug, PartialEq, Eq)]
pub struct EdgeList {
    /// The lines are arcs. A first comment `# digraph N M` says so too.
    pub directed: bool,
    /// Endpoints are words, and vertices are numbered as their words first appear. Otherwise endpoints are numbers from 0.
    pub names: bool,
}
