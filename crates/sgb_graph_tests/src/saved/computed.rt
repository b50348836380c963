//! What is computed of a few small parts. Each function does nothing: its clauses are the examples.
ghost use Rattle.std.specs.Prelude.{◌≡◌, [], ◌∷◌, Some, None};
ghost use Rattle.sgb_graph.specs.declared.field.Util.TheVariants.{Zero};
ghost use Rattle.sgb_graph.specs.Linked.{graph_of_parts};
ghost use Rattle.sgb_graph_tests.specs.Example.{parts, link, to, names, graph, arc};

// A list of two arcs, one of which names the other, and a record that no list reaches, with a bad tip and value.
fn linked()
    ensures { graph_of_parts (parts (link 1 ∷ None ∷ []) (to 1 (names 1) None ∷ to 0 Zero (link 0) ∷ to 9 (names 9) (link 9) ∷ []))
        ≡ Some (graph ((1 ∷ 0 ∷ []) ∷ [] ∷ []) (arc 1 (names 1) ∷ arc 0 Zero ∷ None ∷ [])) }
{}

// Chains that return, leave the records or meet.
fn tangled()
    ensures returns { graph_of_parts (parts (link 0 ∷ []) (to 0 Zero (link 0) ∷ [])) ≡ None }
    ensures leaves { graph_of_parts (parts (link 0 ∷ []) (to 0 Zero (link 1) ∷ [])) ≡ None }
    ensures meets { graph_of_parts (parts (link 0 ∷ link 1 ∷ []) (to 0 Zero (link 1) ∷ to 0 Zero None ∷ [])) ≡ None }
{}

// A tip beyond the vertices, and a value that names a hole.
fn unnamed()
    ensures tip { graph_of_parts (parts (link 0 ∷ []) (to 1 Zero None ∷ [])) ≡ None }
    ensures value { graph_of_parts (parts (link 0 ∷ []) (to 0 (names 1) None ∷ to 0 Zero None ∷ [])) ≡ None }
{}

#[test]
fn parts_are_computed() {
    linked();
    tangled();
    unnamed();
}
