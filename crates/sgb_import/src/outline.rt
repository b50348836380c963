//! What a text says of a graph, and the graph that it spells.
ghost use Rattle.std.specs.Prelude.{◌≡◌, ◌<◌, ◌≤◌, ◌+◌, ◌^◌, ◌∷◌, [], All, map, reverse, length, IfOk, IfErr};
ghost use Rattle.std.specs.List.{range_with_len};
ghost use Rattle.sgb_graph.specs.Builder.{Inserts};
ghost use Rattle.sgb_graph.specs.Graph.{n_of};
ghost use Rattle.sgb_graph.specs.Text.{IsText};
ghost use Rattle.sgb_plan.specs.Plan.{Names as MakesVertices};
ghost use Rattle.sgb_import.specs.Outline.{IsLink, IsOutline, graph_of_outline, named, numbered};
ghost use Rattle.sgb_import.specs.Private.Outlined.{bytes_of, insertion_of, names_in, outline_of};

use indexmap::IndexSet;
use sgb_graph::{Builder, Graph, Refusal, Types, VertexNo};
use sgb_plan::{append_dotted, label_of, text_of};
use std::alloc::Global;

// An arc from one vertex to another, or an edge between them.
#[derive(Clone, Copy, Debug, Drop)]
pub(crate) struct Link {
    pub(crate) from: u32,
    pub(crate) to: u32,
    pub(crate) len: i64,
}

// The names of the vertices: from a first number on so many, or words.
#[derive(Drop)]
pub(crate) enum Names<'a> {
    Numbers(u8, u32),
    Words(IndexSet<&'a [u8]>),
}

impl Names<'_> {
    // How many vertices there are.
    pub(crate) fn len(&self) -> usize
        ensures { result ≡ length (names_in self.now) }
    {
        match self {
            Names::Numbers(_, count) => *count as usize,
            Names::Words(words) => words.len(),
        }
    }
}

// What a text says of a graph: its id, the names of its vertices, whether the links are arcs, and the links in the
// order of the text.
#[derive(Drop)]
pub(crate) struct Outline<'a> {
    pub(crate) id: &'a [u8],
    pub(crate) names: Names<'a>,
    pub(crate) directed: bool,
    pub(crate) links: Vec<Link>,
}

// The graph that is spelt. Only an allocation can fail.
pub(crate) fn build(alloc: Global, outline: &Outline<'_>) -> Result<Graph, Refusal>
    requires { IsOutline (outline_of outline.now) }
    ensures graph { IfOk result (λ graph. graph ≡ graph_of_outline (outline_of outline.now)) }
    ensures err { IfErr result (λ e. e ≡ Refusal.NoRoom) }
{
    let id = text_of(alloc, outline.id)?;
    let mut builder = Builder::new(alloc, id, Types::none(), outline.directed);
    name_vertices(&mut builder, alloc, &outline.names)?;
    builder.reserve(outline.links.len())?;
    insert_links(&mut builder, &outline.links)?;
    Ok(builder.finish())
}

fn name_vertices(builder: &mut Builder, alloc: Global, names: &Names<'_>) -> Result<(), Refusal>
    requires text { All IsText (names_in names.now) }
    requires few { length (names_in names.now) ≤ 65535 }
    ensures { MakesVertices builder.old builder.new (map named (names_in names.now)) result }
{
    match names {
        Names::Numbers(first, count) => name_by_numbers(builder, alloc, u32::from(*first), *count),
        Names::Words(words) => name_by_words(builder, alloc, words.as_slice()),
    }
}

fn name_by_numbers(
    builder: &mut Builder,
    alloc: Global,
    first: u32,
    count: u32,
) -> Result<(), Refusal>
    requires { first + count < 2 ^ 32 }
    ensures { MakesVertices builder.old builder.new (map named (numbered first count)) result }
{
    builder.reserve_vertices(count as usize)?;
    let mut name = Vec::new(alloc);
    for v in first..first + count {
        name.clear();
        append_dotted(&mut name, &[v])?;
        let label = label_of(alloc, &name)?;
        builder.push_named(label)?;
    }
    Ok(())
}

fn name_by_words(builder: &mut Builder, alloc: Global, words: &[&[u8]]) -> Result<(), Refusal>
    requires { All IsText (map bytes_of words.now) }
    ensures { MakesVertices builder.old builder.new (map named (map bytes_of words.now)) result }
{
    builder.reserve_vertices(words.len())?;
    for word in words {
        let label = label_of(alloc, word)?;
        builder.push_named(label)?;
    }
    Ok(())
}

// Inserts the links, the last first.
fn insert_links(builder: &mut Builder, links: &[Link]) -> Result<(), Refusal>
    requires { All (IsLink (n_of builder.old.graph)) (map insertion_of links.now) }
    ensures { Inserts builder.old builder.new (reverse (map insertion_of links.now)) result }
{
    for done in 0..links.len() {
        insert_link(builder, links[links.len() - 1 - done])?;
    }
    Ok(())
}

#[inline]
fn insert_link(builder: &mut Builder, link: Link) -> Result<(), Refusal>
    requires { IsLink (n_of builder.old.graph) (insertion_of link) }
    ensures { Inserts builder.old builder.new (insertion_of link ∷ []) result }
{
    builder.insert(VertexNo(link.from), VertexNo(link.to), link.len)
}
