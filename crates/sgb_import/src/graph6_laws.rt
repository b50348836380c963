//! The law of graph6. The function does nothing: its clauses are the law.
ghost use Rattle.std.specs.Prelude.{◌≡◌, None};
ghost use Rattle.sgb_export.specs.declared.format.Format.TheVariants.{Graph6};
ghost use Rattle.sgb_export.specs.Export.{refusal_of_export};
ghost use Rattle.sgb_export.specs.Text.{export_text};
ghost use Rattle.sgb_graph.specs.Graph.{GraphOf, IsGraph};
ghost use Rattle.sgb_import.specs.declared.source.Source.TheVariants as sources;
ghost use Rattle.sgb_import.specs.Import.{Spells, refusal_of_import};

/// What is exported in graph6 is read, and the graph that it spells is exported as the same text, byte for byte.
pub fn graph6_law()
    ensures read { (g : GraphOf) → IsGraph g → refusal_of_export Graph6 g ≡ None → refusal_of_import sources.Graph6 (export_text Graph6 g) ≡ None }
    ensures accepted { (g h : GraphOf) → IsGraph g → refusal_of_export Graph6 g ≡ None →
        Spells sources.Graph6 (export_text Graph6 g) h → refusal_of_export Graph6 h ≡ None }
    ensures same { (g h : GraphOf) → IsGraph g → refusal_of_export Graph6 g ≡ None →
        Spells sources.Graph6 (export_text Graph6 g) h → export_text Graph6 h ≡ export_text Graph6 g }
{}
