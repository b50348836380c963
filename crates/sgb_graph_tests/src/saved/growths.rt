//! What refused growths lead to: who asks again has the graph, and its text.

use sgb_graph::{Graph, Refusal};
use sgb_text::{CheckRule, Saved, restore, save};
use std::alloc::{AllocError, Global};

// Memory is taken for records, a name that is not short, texts in fields, and a text of several lines.
const TEXT: &[u8] =
    b"* GraphBase graph (util_types IVASZZZAVISAIV,3V,3A)\n\"aaaaaaaaaaaaaaaaaaaaaaaaaaaaaaaaaaaaaaaaaaaaaaaaaaaaaaaaaaaaaaaaaaaaaaaaaaaaa\\\naaaaaaaaaaaaaaaaaaaaaaaaaaaaaaaaaaaaaaaaaaaaaaaaaaaaaaaaaaaaaaaaaaaaaaaaaaaaaa\\\naaaaa\",3,2,V1,77,\"text\",A0,-9223372036854775808,V0\n* Vertices\n\"the first of all names\",A0,-12,V2,A2,\"\"\n\"\",A2,0,1,0,\"a name, with a comma\"\n\"\",0,0,0,0,\"\"\n* Arcs\nV1,0,5,A2\n0,0,0,0\nV1,0,9223372036854775807,0\n* Checksum 10032239\n";

// The graph of the text. Where a growth is refused, it is asked for once more.
fn restored(alloc: Global) -> Result<Graph, Refusal> {
    match restore(alloc, TEXT, CheckRule::Match) {
        Err(Refusal::NoRoom) => restore(alloc, TEXT, CheckRule::Match),
        answer => answer,
    }
}

fn saved(alloc: Global, graph: &Graph) -> Result<Saved, AllocError> {
    match save(alloc, graph) {
        Err(_) => save(alloc, graph),
        answer => answer,
    }
}

// Whether a graph was saved as the text, with nothing cleaned.
fn is_text(answer: &Result<Saved, AllocError>) -> bool {
    match answer {
        Ok(saved) => saved.text.as_slice() == TEXT && saved.cleaned == 0,
        Err(_) => false,
    }
}

fn comes_back(alloc: Global, made: &Result<Graph, Refusal>) -> bool {
    match made {
        Ok(graph) => graph.n() == 3
            && graph.m() == 2
            && graph.made() == 3
            && is_text(&saved(alloc, graph)),
        Err(_) => false,
    }
}

#[test]
fn growths_are_granted_when_asked_again(rt: HostRuntime) {
    assert!(rt; comes_back(rt.alloc(), &restored(rt.alloc())));
}
