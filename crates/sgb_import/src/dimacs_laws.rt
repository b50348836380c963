//! Laws of the formats of DIMACS. Each function does nothing: its clauses are the law.
ghost use Rattle.std.specs.Prelude.{◌≡◌, None};
ghost use Rattle.sgb_export.specs.declared.format.Format.TheVariants.{Col, Dimacs};
ghost use Rattle.sgb_export.specs.Export.{refusal_of_export};
ghost use Rattle.sgb_export.specs.Text.{export_text};
ghost use Rattle.sgb_graph.specs.Graph.{GraphOf, IsGraph};
ghost use Rattle.sgb_import.specs.declared.source.Source.TheVariants as sources;
ghost use Rattle.sgb_import.specs.Import.{Spells, refusal_of_import};

/// What is exported in the format of DIMACS for shortest paths is read, and the graph that it spells is exported as the
/// same text, byte for byte.
pub fn dimacs_law()
    ensures read { (g : GraphOf) → IsGraph g → refusal_of_import sources.Dimacs (export_text Dimacs g) ≡ None }
    ensures accepted { (g h : GraphOf) → IsGraph g →
        Spells sources.Dimacs (export_text Dimacs g) h → refusal_of_export Dimacs h ≡ None }
    ensures same { (g h : GraphOf) → IsGraph g →
        Spells sources.Dimacs (export_text Dimacs g) h → export_text Dimacs h ≡ export_text Dimacs g }
{}

/// What is exported in the format of DIMACS for edges is read, and the graph that it spells is exported as the same text,
/// byte for byte. The text has no lengths: those of the graph that it spells are 1.
pub fn col_law()
    ensures read { (g : GraphOf) → IsGraph g → refusal_of_export Col g ≡ None →
        refusal_of_import sources.Dimacs (export_text Col g) ≡ None }
    ensures accepted { (g h : GraphOf) → IsGraph g → refusal_of_export Col g ≡ None →
        Spells sources.Dimacs (export_text Col g) h → refusal_of_export Col h ≡ None }
    ensures same { (g h : GraphOf) → IsGraph g → refusal_of_export Col g ≡ None →
        Spells sources.Dimacs (export_text Col g) h → export_text Col h ≡ export_text Col g }
{}
