//! The records of a saved text, as they are written.
ghost use Rattle.std.specs.Prelude.{◌≡◌, ◌<◌, ◌≤◌, ◌*◌, ◌++◌, ◌∷◌, [], length, not, ◌==◌, sum_by, OnOk, IfOk, if◌then◌else◌};
ghost use Rattle.std.specs.List.{flat_map, list_any, range_with_len};
ghost use Rattle.sgb_graph.specs.Graph.{n_of, made_of, vertex_at, arc_at};
ghost use Rattle.sgb_graph.specs.Honest.{is_allowed, vertex_letters, arc_letters, graph_letters};
ghost use Rattle.std.specs.Fmt.{signed_decimal};
ghost use Rattle.sgb_text.specs.Clean.{cleaned, clean_fields, clean_vertex, clean_of, dirt_in, dirt_in_entry};
ghost use Rattle.sgb_text.specs.Save.{link_text, tip_text, field_items, own_items, vertex_record, arc_record};
ghost use Rattle.sgb_text.specs.Private.Page.{with_line, with_record, with_field};

use crate::page::Page;
use crate::values::{
    is_any_written, put_count, put_link, put_number, put_text, put_tip, put_value,
};
use sgb_graph::{ArcNo, ArcView, Graph, Tip, Util, VertexNo};
use std::alloc::AllocError;

/// Writes the graph's own record. Returns how many of its values are written as Zero.
pub(crate) fn put_own(page: &mut Page, graph: &Graph) -> Result<u64, AllocError>
    requires { page.old.column ≡ 0 }
    ensures record { OnOk result (page.new ≡ with_record page.old (own_items (clean_of graph.now))) }
    ensures cleaned { IfOk result (λ c. c ≡ dirt_in (graph_letters graph.now.types) graph.now.fields) }
    ensures few { IfOk result (λ c. c ≤ 6) }
{
    let types = graph.types();
    let letters: &[u8] = types.letters();
    let (_, letters) = letters.split_at(8);
    put_text(page, graph.id(), true)?;
    put_count(page, graph.n(), true)?;
    put_count(page, graph.m(), is_any_written(letters))?;
    put_fields(page, letters, graph.graph_fields())
}

/// Writes the records of the vertices. Returns how many of their values are written as Zero.
pub(crate) fn put_vertices(page: &mut Page, graph: &Graph) -> Result<u64, AllocError>
    requires { page.old.column ≡ 0 }
    ensures records { OnOk result (page.new ≡ with_line page.old (flat_map (vertex_record graph.now.types) (clean_of graph.now).vertices)) }
    ensures cleaned { IfOk result (λ c. c ≡ sum_by (λ v. dirt_in (vertex_letters graph.now.types) v.fields) graph.now.vertices) }
    ensures few { IfOk result (λ c. c ≤ 6 * 65535) }
{
    let mut cleaned = 0;
    'vertices: for v in 0..graph.n() {
        cleaned += put_vertex(page, graph, VertexNo(v))?;
    }
    Ok(cleaned)
}

/// Writes the records of the arc numbers. Returns how many of their values are written as Zero.
pub(crate) fn put_arcs(page: &mut Page, graph: &Graph) -> Result<u64, AllocError>
    requires { page.old.column ≡ 0 }
    ensures records { OnOk result (page.new ≡ with_line page.old (flat_map (arc_record (clean_of graph.now)) (range_with_len 0 (made_of graph.now)))) }
    ensures cleaned { IfOk result (λ c. c ≡ sum_by (dirt_in_entry graph.now.types) graph.now.entries) }
    ensures few { IfOk result (λ c. c ≤ 2 * 1000000) }
{
    let mut cleaned = 0;
    'arcs: for k in 0..graph.made() {
        cleaned += put_arc(page, graph, ArcNo(k))?;
    }
    Ok(cleaned)
}

fn put_vertex(page: &mut Page, graph: &Graph, vertex: VertexNo) -> Result<u64, AllocError>
    requires vertex { vertex.0 < n_of graph.now }
    requires column { page.old.column ≡ 0 }
    ensures record { OnOk result (page.new ≡ with_line page.old (vertex_record graph.now.types (clean_vertex graph.now.types (vertex_at graph.now vertex.0)))) }
    ensures cleaned { IfOk result (λ c. c ≡ dirt_in (vertex_letters graph.now.types) (vertex_at graph.now vertex.0).fields) }
    ensures few { IfOk result (λ c. c ≤ 6) }
{
    let types = graph.types();
    let letters: &[u8] = types.letters();
    let (letters, _) = letters.split_at(6);
    put_text(page, graph.label(vertex), true)?;
    let first = graph.arcs(vertex).next();
    put_link(page, first, is_any_written(letters))?;
    put_fields(page, letters, graph.vertex_fields(vertex))
}

fn put_arc(page: &mut Page, graph: &Graph, number: ArcNo) -> Result<u64, AllocError>
    requires number { number.0 < made_of graph.now }
    requires column { page.old.column ≡ 0 }
    ensures record { OnOk result (page.new ≡ with_line page.old (arc_record (clean_of graph.now) number.0)) }
    ensures cleaned { IfOk result (λ c. c ≡ dirt_in_entry graph.now.types (arc_at graph.now number.0)) }
    ensures few { IfOk result (λ c. c ≤ 2) }
{
    let types = graph.types();
    let letters: &[u8] = types.letters();
    let (_, letters) = letters.split_at(6);
    let (letters, _) = letters.split_at(2);
    match graph.arc(number) {
        Some(arc) => {
            let link = graph.next_of(number);
            put_entry(
                page,
                letters,
                arc.tip,
                link,
                arc.len,
                graph.arc_fields(number),
            )
        }
        None => put_entry(page, letters, Tip::Zero, None, 0, &[Util::Zero, Util::Zero]),
    }
}

// Writes an arc's record, or what stands for a hole.
fn put_entry(
    page: &mut Page,
    letters: &[u8],
    tip: Tip,
    link: Option<ArcNo>,
    len: i64,
    values: &[Util],
) -> Result<u64, AllocError>
    requires { length values.now ≡ length letters.now }
    ensures record { OnOk result (page.new ≡ with_record page.old
        (tip_text tip ∷ link_text link ∷ signed_decimal len ∷ field_items letters.now (clean_fields letters.now values.now))) }
    ensures cleaned { IfOk result (λ c. c ≡ dirt_in letters.now values.now) }
    ensures few { IfOk result (λ c. c ≤ length letters.now) }
{
    put_tip(page, tip, true)?;
    put_link(page, link, true)?;
    put_number(page, len, is_any_written(letters))?;
    put_fields(page, letters, values)
}

// Writes the fields of these letters, and the end of the record.
fn put_fields(page: &mut Page, letters: &[u8], values: &[Util]) -> Result<u64, AllocError>
    requires { length values.now ≡ length letters.now }
    ensures record { OnOk result (page.new ≡ with_record page.old (field_items letters.now (clean_fields letters.now values.now))) }
    ensures cleaned { IfOk result (λ c. c ≡ dirt_in letters.now values.now) }
    ensures few { IfOk result (λ c. c ≤ length letters.now) }
{
    let mut cleaned = 0;
    'fields: for (i, letter) in letters.iter().enumerate() {
        let (_, behind) = letters.split_at(i + 1);
        put_field(page, *letter, &values[i], behind)?;
        cleaned += dirt_in(*letter, &values[i]);
    }
    page.line(b"\n")?;
    Ok(cleaned)
}

// Counts the value if it is written as Zero since its letter does not allow it.
fn dirt_in(letter: u8, value: &Util) -> u64
    ensures { result ≡ (if is_allowed letter value.now then 0 else 1) }
{
    if value.is_allowed(letter) { 0 } else { 1 }
}

// Writes the field of this letter; `behind` has the letters after it.
fn put_field(page: &mut Page, letter: u8, value: &Util, behind: &[u8]) -> Result<(), AllocError>
    ensures { OnOk result (page.new ≡ with_field page.old letter (cleaned letter value.now) (list_any (λ l. not (l == 90)) behind.now)) }
{
    if letter == b'Z' {
        return Ok(());
    }
    put_value(page, letter, value, is_any_written(behind))
}
