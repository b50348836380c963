//! The course of the attempts, as far as it has come.
use crate::pairs::Pairs;
use sgb_graph::Builder;

// An arc or an edge that is to be inserted.
#[derive(Clone, Copy, Debug, Drop)]
pub(crate) struct Edge {
    pub(crate) from: u32,
    pub(crate) to: u32,
    pub(crate) len: i64,
}

// What the attempts have come to. Each arc or edge is inserted as it is drawn, unless its length may yet be shortened:
// then it is listed, and inserted at the end. Where a pair may be joined once only, a table tells whether it is joined; and
// where there is the list, what stands beside it at the same place tells where its arc or edge is listed.
#[derive(Drop)]
pub(crate) struct Progress {
    pub(crate) builder: Builder,
    pub(crate) edges: Vec<Edge>,
    pub(crate) pairs: Pairs,
    pub(crate) numbers: Vec<u32>,
    pub(crate) made: u32,
    pub(crate) draws: u64,
}
