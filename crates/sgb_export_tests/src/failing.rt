//! Writers that fail.

use crate::graphs::{Made, one_edge, placed, single};
use sgb_export::{ExportFault, Format, export};
use sgb_graph::Graph;
use sgb_print::MeteredWriter;
use std::alloc::Global;
use std::io::{Error, ErrorKind, Write};

const EDGE: &str = "c gb_new_graph(2)\np sp 2 2\na 1 2 5\na 2 1 5\n";

const COL: &str = "c gb_new_graph(2)\np edge 2 1\ne 1 2\n";

const PLACED: &str = "graph \"gb_new_graph(1)\" {\n  0 [label=\"\", pos=\"-216,0\"];\n}\n";

// Takes so many bytes, one at a time, and then fails.
#[derive(Drop)]
struct Room {
    kept: Vec<u8>,
    room: usize,
}

impl Write for Room {
    fn write(&mut self, bytes: &[u8]) -> std::io::Result<usize> {
        let count = self.room.min(bytes.len()).min(1);
        if count == 0 && !bytes.is_empty() {
            return Err(Error::from(ErrorKind::Other));
        }
        let (taken, _) = bytes.split_at(count);
        self.kept.extend_from_slice(taken)?;
        self.room -= count;
        Ok(count)
    }

    fn flush(&mut self) -> std::io::Result<()> {
        Ok(())
    }
}

// What a writer with so much room keeps of the graph's text, where it fails.
fn front_of(alloc: Global, graph: &Graph, format: Format, room: usize) -> Option<Vec<u8>> {
    let mut writer = MeteredWriter::new(Room {
        kept: Vec::new(alloc),
        room,
    });
    match export(alloc, graph, format, &mut writer) {
        Err(ExportFault::Write) => Some(writer.into_inner().kept),
        _ => None,
    }
}

// Whether the writer that fails keeps this text.
fn fails_after(alloc: Global, made: &Made, format: Format, text: &[u8]) -> bool {
    let Ok(graph) = made else {
        return false;
    };
    match front_of(alloc, graph, format, text.len()) {
        Some(kept) => kept.as_slice() == text,
        None => false,
    }
}

// Whether a writer fails behind each front of the text, and keeps it.
fn fails_everywhere(alloc: Global, made: &Made, format: Format, text: &str) -> bool {
    for room in 0..text.len() {
        if !fails_after(alloc, made, format, &text.as_bytes()[..room]) {
            return false;
        }
    }
    true
}

#[test]
fn failed_writes_are_told(rt: HostRuntime) {
    let alloc = rt.alloc();
    let edge = one_edge(alloc);
    assert!(rt; fails_everywhere(alloc, &edge, Format::Dimacs, EDGE));
    assert!(rt; fails_everywhere(alloc, &edge, Format::Col, COL));
    assert!(rt; fails_everywhere(alloc, &edge, Format::Graph6, "A_\n"));
    assert!(rt; fails_everywhere(alloc, &placed(alloc, 0, -3, 0), Format::PlacedDot, PLACED));
}

// Whether a writer with so much room fails.
fn fails_with(alloc: Global, made: &Made, format: Format, room: usize) -> bool {
    match made {
        Ok(graph) => front_of(alloc, graph, format, room).is_some(),
        Err(_) => false,
    }
}

#[test]
fn no_failure_is_forgotten(rt: HostRuntime) {
    let graph = single(rt.alloc(), b"<>", b"&");
    for room in 0..440usize {
        assert!(rt;
            fails_with(rt.alloc(), &graph, Format::Graphml, room),
            "room for {room}"
        );
    }
    assert!(rt; !fails_with(rt.alloc(), &graph, Format::Graphml, 440));
}
