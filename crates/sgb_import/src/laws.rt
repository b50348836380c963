//! Laws of imports. Each function does nothing: its clauses are the law.
ghost use Rattle.std.specs.Prelude.{◌≡◌, ◌<◌, ℕ, List, [], length, map, slice_index_or, None, true, false};
ghost use Rattle.sgb_export.specs.declared.format.Format.TheVariants.{Edges, NamedEdges};
ghost use Rattle.sgb_export.specs.Export.{refusal_of_export};
ghost use Rattle.sgb_export.specs.Links.{is_directed};
ghost use Rattle.sgb_export.specs.Text.{export_text};
ghost use Rattle.sgb_graph.specs.Graph.{GraphOf, IsGraph, label_of, n_of};
ghost use Rattle.sgb_import.specs.declared.source.EdgeList.{EdgeList};
ghost use Rattle.sgb_import.specs.declared.source.Source.{Source};
ghost use Rattle.sgb_import.specs.declared.source.Source.TheVariants as sources;
ghost use Rattle.sgb_import.specs.Import.{Spells, outline_of, refusal_of_import};
ghost use Rattle.sgb_import.specs.Laws.{AreMetInOrder, AreSame, IsMet, by_names, by_source, named_links, upward, written};
ghost use Rattle.sgb_import.specs.Outline.{IsOutline, Outline, graph_of_outline};

/// A text spells one graph at most.
pub fn spells_law()
    ensures one { (source : Source) (text : List ℕ) (g h : GraphOf) → Spells source text g → Spells source text h → g ≡ h }
{}

/// The graph of an outline is sound, and has its id and its names. Where arcs are meant, its arcs are those of the outline, vertex by vertex
/// in the order of the text; otherwise the graph is undirected, and its edges are those of the outline, each told from its smaller endpoint.
pub fn outline_law()
    ensures sound { (o : Outline) → IsOutline o → IsGraph (graph_of_outline o) }
    ensures id { (o : Outline) → (graph_of_outline o).id ≡ o.id }
    ensures vertices { (o : Outline) → n_of (graph_of_outline o) ≡ length o.names }
    ensures labels { (o : Outline) (v : ℕ) → label_of (graph_of_outline o) v ≡ slice_index_or o.names v [] }
    ensures arcs { (o : Outline) → IsOutline o → o.directed ≡ true →
        written true (graph_of_outline o) ≡ by_source (length o.names) o.links }
    ensures undirected { (o : Outline) → IsOutline o → o.directed ≡ false → is_directed (graph_of_outline o) ≡ false }
    ensures edges { (o : Outline) → IsOutline o → o.directed ≡ false →
        written false (graph_of_outline o) ≡ by_source (length o.names) (map upward o.links) }
{}

/// The exported list of edges of a sound graph is read by numbers, and the graph that it spells is exported as the same list, byte for byte. A
/// reading that asks for arcs takes the lists of directed graphs alone.
pub fn edges_law()
    ensures read { (list : EdgeList) (g : GraphOf) → IsGraph g → list.names ≡ false → (list.directed ≡ true → is_directed g ≡ true) →
        refusal_of_import (sources.Edges list) (export_text Edges g) ≡ None }
    ensures accepted { (list : EdgeList) (g h : GraphOf) → Spells (sources.Edges list) (export_text Edges g) h → refusal_of_export Edges h ≡ None }
    ensures same { (list : EdgeList) (g h : GraphOf) → IsGraph g → list.names ≡ false → (list.directed ≡ true → is_directed g ≡ true) →
        Spells (sources.Edges list) (export_text Edges g) h → export_text Edges h ≡ export_text Edges g }
{}

/// The exported list of edges by names of a sound graph is read by names if each vertex is an endpoint in it. The graph that it spells can be
/// exported by names too, and has the same arcs or edges, told by the names of their endpoints; what is read has them in the same order. Its
/// vertices are numbered as their names first appear: where that is their order in the exported graph, its own list is the same, byte for byte.
pub fn named_edges_law()
    ensures read { (list : EdgeList) (g : GraphOf) → IsGraph g → refusal_of_export NamedEdges g ≡ None → list.names ≡ true →
        (list.directed ≡ true → is_directed g ≡ true) → ((v : ℕ) → v < n_of g → IsMet g v) →
        refusal_of_import (sources.Edges list) (export_text NamedEdges g) ≡ None }
    ensures links { (list : EdgeList) (g h : GraphOf) → IsGraph g → refusal_of_export NamedEdges g ≡ None → list.names ≡ true →
        (list.directed ≡ true → is_directed g ≡ true) → ((v : ℕ) → v < n_of g → IsMet g v) →
        Spells (sources.Edges list) (export_text NamedEdges g) h →
        map (by_names (label_of h)) (outline_of (sources.Edges list) (export_text NamedEdges g)).links ≡ named_links g }
    ensures graph { (list : EdgeList) (g h : GraphOf) → IsGraph g → refusal_of_export NamedEdges g ≡ None → list.names ≡ true →
        (list.directed ≡ true → is_directed g ≡ true) → ((v : ℕ) → v < n_of g → IsMet g v) →
        Spells (sources.Edges list) (export_text NamedEdges g) h →
        (is_directed h ≡ is_directed g) × AreSame (is_directed g) (named_links g) (named_links h) }
    ensures accepted { (list : EdgeList) (g h : GraphOf) → IsGraph g → refusal_of_export NamedEdges g ≡ None → list.names ≡ true →
        (list.directed ≡ true → is_directed g ≡ true) → ((v : ℕ) → v < n_of g → IsMet g v) →
        Spells (sources.Edges list) (export_text NamedEdges g) h → refusal_of_export NamedEdges h ≡ None }
    ensures same { (list : EdgeList) (g h : GraphOf) → IsGraph g → refusal_of_export NamedEdges g ≡ None → list.names ≡ true →
        (list.directed ≡ true → is_directed g ≡ true) → AreMetInOrder g →
        Spells (sources.Edges list) (export_text NamedEdges g) h → export_text NamedEdges h ≡ export_text NamedEdges g }
{}
