//! The law of the grammar. Its functions do nothing: their clauses are the law.
ghost use Rattle.std.specs.Prelude.{◌≡◌, ℕ, ℤ, List, Option, Some};
ghost use Rattle.sgb_graph.specs.declared.field.ArcNo.{ArcNo};
ghost use Rattle.sgb_graph.specs.declared.field.Tip.{Tip};
ghost use Rattle.sgb_graph.specs.declared.field.Util.{Util};
ghost use Rattle.sgb_graph.specs.declared.parts.ArcPart.{ArcPart};
ghost use Rattle.sgb_graph.specs.declared.parts.VertexPart.{VertexPart};
ghost use Rattle.sgb_grammar.specs.Field.{fields_at, link_at, tip_at};
ghost use Rattle.sgb_grammar.specs.Header.{header_at};
ghost use Rattle.sgb_grammar.specs.Number.{count_at, number_at};
ghost use Rattle.sgb_grammar.specs.Record.{arc_at, own_at, vertex_at};
ghost use Rattle.sgb_grammar.specs.Saved.{SavedOf, saved_in};
ghost use Rattle.sgb_grammar.specs.Spelled.{ArcRecord, Count, Each, Field, FirstLine, IsOnlyLine, IsReaderOf, Link, Number, OwnRecord, Quoted, SavedText, TipIs, VertexRecord, WholeText};
ghost use Rattle.sgb_grammar.specs.String.{text_at};
ghost use Rattle.sgb_grammar.specs.declared.header.Header.{Header};
ghost use Rattle.sgb_grammar.specs.declared.records.Own.{Own};

/// The parts of a record are read exactly as they are spelled: texts, numbers, tips, links and fields.
pub fn items_law()
    ensures texts { (limit : ℕ) → IsReaderOf (List ℕ) (text_at limit) (Quoted limit) }
    ensures counts { IsReaderOf ℕ count_at Count }
    ensures numbers { IsReaderOf ℤ number_at Number }
    ensures links { IsReaderOf (Option ArcNo) link_at Link }
    ensures tips { IsReaderOf Tip tip_at TipIs }
    ensures fields { (letters : List ℕ) → IsReaderOf (List Util) (fields_at letters) (Each Field letters) }
{}

/// Records and first lines are read exactly as they are spelled.
pub fn records_law()
    ensures own { (letters : List ℕ) → IsReaderOf Own (own_at letters) (OwnRecord letters) }
    ensures vertices { (letters : List ℕ) → IsReaderOf VertexPart (vertex_at letters) (VertexRecord letters) }
    ensures arcs { (letters : List ℕ) → IsReaderOf ArcPart (arc_at letters) (ArcRecord letters) }
    ensures headers { IsReaderOf Header header_at FirstLine }
{}

/// A whole text is read exactly as it is spelled, and it spells at most one header and one graph.
pub fn spelling_law()
    ensures spelled { (h : Header) (bs : List ℕ) (s : SavedOf) → saved_in h bs ≡ Some s → SavedText h s bs }
    ensures read { (h : Header) (bs : List ℕ) (s : SavedOf) → SavedText h s bs → saved_in h bs ≡ Some s }
    ensures first { (text : List ℕ) (h : Header) (rest : List ℕ) → FirstLine h text rest → IsOnlyLine text h rest }
    ensures once { (text : List ℕ) (h k : Header) (s t : SavedOf) → WholeText h s text → WholeText k t text → (h ≡ k) × (s ≡ t) }
{}
