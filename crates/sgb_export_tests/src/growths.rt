//! What a refused growth leads to: no room, nothing written, and the text when it is asked for again.

use crate::graphs::{Made, complete};
use sgb_export::{ExportFault, Format, export};
use sgb_graph::{Graph, Refusal};
use sgb_print::MeteredWriter;
use std::alloc::{AllocError, Global};

fn joined(alloc: Global) -> Made {
    match complete(alloc, 4) {
        Err(Refusal::NoRoom) => complete(alloc, 4),
        made => made,
    }
}

fn page(alloc: Global) -> Result<Vec<u8>, AllocError> {
    match Vec::with_capacity(alloc, 100) {
        Err(_) => Vec::with_capacity(alloc, 100),
        page => page,
    }
}

// Exports the graph, once more where there was no room.
fn write(
    alloc: Global,
    graph: &Graph,
    format: Format,
    writer: &mut MeteredWriter<Vec<u8>>,
) -> Result<(), ExportFault> {
    match export(alloc, graph, format, writer) {
        Err(ExportFault::Refused(Refusal::NoRoom)) => export(alloc, graph, format, writer),
        end => end,
    }
}

fn is_written(alloc: Global, made: &Made, format: Format, text: &str) -> bool {
    let (Ok(graph), Ok(page)) = (made, page(alloc)) else {
        return false;
    };
    let mut writer = MeteredWriter::new(page);
    match write(alloc, graph, format, &mut writer) {
        Ok(()) => writer.into_inner().as_slice() == text.as_bytes(),
        Err(_) => false,
    }
}

const COL: &str = "c gb_new_graph(4)\np edge 4 6\ne 1 4\ne 1 3\ne 1 2\ne 2 4\ne 2 3\ne 3 4\n";

#[test]
fn growths_are_granted_when_asked_again(rt: HostRuntime) {
    let graph = joined(rt.alloc());
    assert!(rt; is_written(rt.alloc(), &graph, Format::Graph6, "C~\n"));
    assert!(rt; is_written(rt.alloc(), &graph, Format::Col, COL));
}
