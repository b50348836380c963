//! Saves a graph as a text.
ghost use Rattle.std.specs.Prelude.{◌≡◌, ◌++◌, ◌∷◌, [], ℕ, true, codes, OnOk, IfOk};
ghost use Rattle.std.specs.Fmt.{decimal};
ghost use Rattle.sgb_graph.specs.Graph.{GraphOf, IsGraph};
ghost use Rattle.sgb_graph.specs.Honest.{is_honest};
ghost use Rattle.sgb_text.specs.declared.restoring.CheckRule.{CheckRule};
ghost use Rattle.sgb_text.specs.Clean.{clean_of, dirt_of};
ghost use Rattle.sgb_text.specs.Save.{header_of, body_of, check_line, text_of, IsReadBack};
ghost use Rattle.sgb_text.specs.Private.Page.{with_line};

use crate::answers_are_exact;
use crate::page::Page;
use crate::records::{put_arcs, put_own, put_vertices};
use itoa::Buffer;
use sgb_grammar::check_number;
use sgb_graph::{Graph, Items};
use std::alloc::{AllocError, Global};

/// A saved graph: its text, and how many values were written as Zero because their letters do not allow them.
#[derive(Debug, Drop, PartialEq, Eq)]
pub struct Saved {
    pub text: Items<u8>,
    pub cleaned: u64,
}

/// Returns the text of a graph, in which values that their letters do not allow are written as Zero, and their count.
/// Fails only if the text cannot be allocated.
pub fn save(alloc: Global, graph: &Graph) -> Result<Saved, AllocError>
    ensures text { IfOk result (λ s. s.text ≡ text_of (clean_of graph.now)) }
    ensures cleaned { IfOk result (λ s. s.cleaned ≡ dirt_of graph.now) }
{
    let mut page = Page::new(alloc);
    page.reserve(shortest_text(graph))?;
    put_header(&mut page, graph)?;
    let start = page.text().len();
    let cleaned = put_body(&mut page, graph)?;
    let (_, body) = page.text().split_at(start);
    let number = check_number(body);
    put_check(&mut page, number)?;
    Ok(Saved {
        text: Items::from_vec(page.into_text()),
        cleaned,
    })
}

// Returns a length that no text of the graph falls below.
fn shortest_text(graph: &Graph) -> usize {
    64 + 5 * graph.n() as usize + 6 * graph.made() as usize
}

// Writes the first line.
fn put_header(page: &mut Page, graph: &Graph) -> Result<(), AllocError>
    ensures { OnOk result (page.new ≡ with_line page.old (header_of (clean_of graph.now) ++ 10 ∷ [])) }
{
    let types = graph.types();
    page.line(b"* GraphBase graph (util_types ")?;
    page.line(types.letters())?;
    put_sizes(page, graph.n(), graph.made())
}

fn put_sizes(page: &mut Page, n: u32, made: u32) -> Result<(), AllocError>
    ensures { OnOk result (page.new ≡ with_line page.old (codes "," ++ (decimal n ++ (codes "V," ++ (decimal made ++ (codes "A)" ++ 10 ∷ [])))))) }
{
    let mut digits = Buffer::new();
    page.line(b",")?;
    page.line(digits.format(n).as_bytes())?;
    page.line(b"V,")?;
    page.line(digits.format(made).as_bytes())?;
    page.line(b"A)\n")
}

// Writes all records. Returns how many values are written as Zero.
fn put_body(page: &mut Page, graph: &Graph) -> Result<u64, AllocError>
    requires { page.old.column ≡ 0 }
    ensures records { OnOk result (page.new ≡ with_line page.old (body_of (clean_of graph.now))) }
    ensures cleaned { IfOk result (λ c. c ≡ dirt_of graph.now) }
{
    let own = put_own(page, graph)?;
    page.line(b"* Vertices\n")?;
    let vertices = put_vertices(page, graph)?;
    page.line(b"* Arcs\n")?;
    let arcs = put_arcs(page, graph)?;
    Ok(own + vertices + arcs)
}

// Writes the last line.
fn put_check(page: &mut Page, number: u64) -> Result<(), AllocError>
    ensures { OnOk result (page.new ≡ with_line page.old (check_line number)) }
{
    let mut digits = Buffer::new();
    page.line(b"* Checksum ")?;
    page.line(digits.format(number).as_bytes())?;
    page.line(b"\n")
}

/// The law of cleaning: what a sound graph becomes by it is sound and honest, and an honest graph stays as it is.
pub fn cleaning_law()
    ensures sound { (g : GraphOf) → IsGraph g → IsGraph (clean_of g) }
    ensures honest { (g : GraphOf) → is_honest (clean_of g) ≡ true }
    ensures same { (g : GraphOf) → IsGraph g → is_honest g ≡ true → clean_of g ≡ g }
    ensures none { (g : GraphOf) → is_honest g ≡ true → dirt_of g ≡ 0 }
{}

/// The law of saving: what is saved of a sound graph is read back as the cleaned graph, and as nothing else, under both
/// rules, and only a failed allocation refuses it. The text of an honest graph is read back as that very graph.
pub fn texts_read_back()
    ensures cleaned { (g : GraphOf) (rule : CheckRule) → IsGraph g → IsReadBack rule (clean_of g) }
    ensures honest { (g : GraphOf) (rule : CheckRule) → IsGraph g → is_honest g ≡ true → IsReadBack rule g }
{
    answers_are_exact();
    sgb_grammar::records_law();
    sgb_grammar::spelling_law();
}
