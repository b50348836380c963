//! Graphs and counts as they are printed, and writers that fail. The small functions promise nothing, so that the
//! proof of a test stays short.

use sgb_graph::{
    ArcField, ArcNo, Graph, GraphField, Place, Text, Types, Util, VertexField, VertexNo,
};
use sgb_print::{Failed, MeteredReader, MeteredWriter, print_graph, print_made, put, put_all};
use std::alloc::Global;
use std::io::{Error, ErrorKind, Write};
use std::process::Abort;
use std::test::Fail;

// A loop on one vertex, as the board of one square has it.
const BOARD: &str = "\"board(1,0,0,0,1,1,0)\" ZZZIIIZZZZZZZZ
1 vertices, 2 arcs, 2 numbers
V0 \"0\"
  A0 V0 1
  A1 V0 1
";

// Fields of each kind, a negative length and a hole.
const FIELDS: &str = "\"gb_new_graph(2)\" ZZZZZZZZZZZZZZ
2 vertices, 2 arcs, 3 numbers
G zz=V1
V0 \"\" u=\"y\" z=-7
  A1 V0 7 b=A0
  A0 V1 -5
V1 \"w\"
";

// Many arcs in a list, some with fields: the longest numbers, a vertex, an arc and texts.
const LONG: &str = "\"gb_new_graph(2)\" ZZZZZZASZZZZZZ
2 vertices, 18 arcs, 18 numbers
V0 \"\"
  A17 V1 17
  A16 V1 16
  A15 V1 15
  A14 V1 14
  A13 V1 13
  A12 V1 12 b=\"twenty letters here.\"
  A11 V1 11
  A10 V1 10
  A9 V1 9
  A8 V1 8
  A7 V1 7
  A6 V1 6 a=A17 b=\"nineteen letters...\"
  A5 V1 5
  A4 V1 4
  A3 V1 3 a=-9223372036854775808 b=V1
  A2 V1 2
  A1 V1 1
  A0 V1 0
V1 \"\"
";

// The edits, without what undoes them.
fn arc(graph: &mut Graph, from: u32, to: u32, len: i64) -> Result<(), Fail> {
    let _made = graph.new_arc(VertexNo(from), VertexNo(to), len)?;
    Ok(())
}

fn edge(graph: &mut Graph, from: u32, to: u32, len: i64) -> Result<(), Fail> {
    let _made = graph.new_edge(VertexNo(from), VertexNo(to), len)?;
    Ok(())
}

fn cut(graph: &mut Graph, number: u32) -> Result<(), Fail> {
    let _delta = graph.cut(ArcNo(number))?;
    Ok(())
}

fn set(graph: &mut Graph, place: Place, value: Util) -> Result<(), Fail> {
    let _delta = graph.set_util(place, value)?;
    Ok(())
}

fn set_text(alloc: Global, graph: &mut Graph, place: Place, text: &[u8]) -> Result<(), Fail> {
    let text = Text::new(alloc, text)?;
    set(graph, place, Util::Text(text))
}

fn set_label(alloc: Global, graph: &mut Graph, vertex: u32, label: &[u8]) -> Result<(), Fail> {
    let label = Text::new(alloc, label)?;
    let _delta = graph.set_label(VertexNo(vertex), label)?;
    Ok(())
}

fn set_id(alloc: Global, graph: &mut Graph, id: &[u8]) -> Result<(), Fail> {
    let id = Text::new(alloc, id)?;
    let _delta = graph.set_id(id)?;
    Ok(())
}

fn set_types(graph: &mut Graph, letters: &[u8]) {
    if let Some(types) = Types::new(letters) {
        let _delta = graph.set_types(types);
    }
}

// Whoever owns a graph calls little that can fail, since each such call is a way on which the graph is dropped.
fn board(alloc: Global) -> Result<Graph, Fail> {
    let mut graph = Graph::new(alloc, 1)?;
    make_board(alloc, &mut graph)?;
    Ok(graph)
}

fn make_board(alloc: Global, graph: &mut Graph) -> Result<(), Fail> {
    set_types(graph, b"ZZZIIIZZZZZZZZ");
    set_id(alloc, graph, b"board(1,0,0,0,1,1,0)")?;
    set_label(alloc, graph, 0, b"0")?;
    edge(graph, 0, 0, 1)
}

fn with_fields(alloc: Global) -> Result<Graph, Fail> {
    let mut graph = Graph::new(alloc, 2)?;
    set_fields(alloc, &mut graph)?;
    Ok(graph)
}

fn set_fields(alloc: Global, graph: &mut Graph) -> Result<(), Fail> {
    add_arcs_and_hole(graph)?;
    set_label(alloc, graph, 1, b"w")?;
    set_vertex_fields(alloc, graph)?;
    set_other_fields(graph)
}

fn add_arcs_and_hole(graph: &mut Graph) -> Result<(), Fail> {
    arc(graph, 0, 1, -5)?;
    arc(graph, 0, 0, 7)?;
    arc(graph, 1, 0, 3)?;
    cut(graph, 2)
}

fn set_vertex_fields(alloc: Global, graph: &mut Graph) -> Result<(), Fail> {
    let vertex = VertexNo(0);
    set_text(alloc, graph, Place::Vertex(vertex, VertexField::U), b"y")?;
    set(graph, Place::Vertex(vertex, VertexField::Z), Util::Int(-7))
}

fn set_other_fields(graph: &mut Graph) -> Result<(), Fail> {
    set(
        graph,
        Place::Graph(GraphField::Zz),
        Util::Vertex(VertexNo(1)),
    )?;
    set(graph, arc_field(1, ArcField::B), Util::Arc(ArcNo(0)))
}

fn arc_field(number: u32, field: ArcField) -> Place {
    Place::Arc(ArcNo(number), field)
}

fn with_long_list(alloc: Global) -> Result<Graph, Fail> {
    let mut graph = Graph::new(alloc, 2)?;
    make_long_list(alloc, &mut graph)?;
    Ok(graph)
}

fn make_long_list(alloc: Global, graph: &mut Graph) -> Result<(), Fail> {
    add_long_list(graph)?;
    set_numbers(graph)?;
    set_texts(alloc, graph)
}

fn add_long_list(graph: &mut Graph) -> Result<(), Fail> {
    set_types(graph, b"ZZZZZZASZZZZZZ");
    for len in 0..18i64 {
        arc(graph, 0, 1, len)?;
    }
    Ok(())
}

fn set_numbers(graph: &mut Graph) -> Result<(), Fail> {
    set(graph, arc_field(3, ArcField::A), Util::Int(i64::MIN))?;
    set(graph, arc_field(3, ArcField::B), Util::Vertex(VertexNo(1)))?;
    set(graph, arc_field(6, ArcField::A), Util::Arc(ArcNo(17)))
}

fn set_texts(alloc: Global, graph: &mut Graph) -> Result<(), Fail> {
    set_text(
        alloc,
        graph,
        arc_field(6, ArcField::B),
        b"nineteen letters...",
    )?;
    set_text(
        alloc,
        graph,
        arc_field(12, ArcField::B),
        b"twenty letters here.",
    )
}

fn printed(alloc: Global, graph: &Graph) -> Result<Vec<u8>, Fail> {
    let mut writer = MeteredWriter::new(Vec::new(alloc));
    print_graph(&mut writer, graph)?;
    Ok(writer.into_inner())
}

#[test]
fn a_board_is_printed(rt: HostRuntime) -> Result<(), Fail> {
    let text = printed(rt.alloc(), &board(rt.alloc())?)?;
    assert!(rt; text.as_slice() == BOARD.as_bytes());
    Ok(())
}

#[test]
fn fields_and_a_hole_are_printed(rt: HostRuntime) -> Result<(), Fail> {
    let text = printed(rt.alloc(), &with_fields(rt.alloc())?)?;
    assert!(rt; text.as_slice() == FIELDS.as_bytes());
    Ok(())
}

#[test]
fn a_long_list_is_printed(rt: HostRuntime) -> Result<(), Fail> {
    let text = printed(rt.alloc(), &with_long_list(rt.alloc())?)?;
    assert!(rt; text.as_slice() == LONG.as_bytes());
    Ok(())
}

// The line of a graph with these counts.
fn line_of(alloc: Global, name: &[u8], n: u32, m: u32) -> Result<Vec<u8>, Fail> {
    let mut writer = MeteredWriter::new(Vec::new(alloc));
    print_made(&mut writer, name, n, m)?;
    Ok(writer.into_inner())
}

#[test]
fn counts_are_printed(rt: HostRuntime) -> Result<(), Fail> {
    let text = line_of(rt.alloc(), b"roads", 65_535, 0)?;
    assert!(rt; text.as_slice() == b"roads: 65535 vertices, 0 arcs\n".as_slice());
    let text = line_of(rt.alloc(), b"g", 0, 1_000_000)?;
    assert!(rt; text.as_slice() == b"g: 0 vertices, 1000000 arcs\n".as_slice());
    Ok(())
}

// Takes so many bytes, one at a time, and then fails.
#[derive(Drop)]
struct Room {
    kept: Vec<u8>,
    room: usize,
}

impl Write for Room {
    fn write(&mut self, bytes: &[u8]) -> std::io::Result<usize> {
        let count = self.room.min(bytes.len()).min(1);
        if count == 0 && !bytes.is_empty() {
            return Err(Error::from(ErrorKind::Other));
        }
        let (taken, _) = bytes.split_at(count);
        self.kept.extend_from_slice(taken)?;
        self.room -= count;
        Ok(count)
    }

    fn flush(&mut self) -> std::io::Result<()> {
        Ok(())
    }
}

// What a writer with so much room keeps of the graph's text, where it fails.
fn front_of(alloc: Global, graph: &Graph, room: usize) -> Option<Vec<u8>> {
    let mut writer = MeteredWriter::new(Room {
        kept: Vec::new(alloc),
        room,
    });
    match print_graph(&mut writer, graph) {
        Err(Failed) => Some(writer.into_inner().kept),
        Ok(()) => None,
    }
}

// Whether the writer that fails keeps this text.
fn fails_after(alloc: Global, graph: &Graph, text: &[u8]) -> bool {
    match front_of(alloc, graph, text.len()) {
        Some(kept) => kept.as_slice() == text,
        None => false,
    }
}

// Each writer with less room than the text needs keeps what it had room for, and fails.
fn fail_all(rt: &impl Abort, alloc: Global, graph: &Graph, text: &[u8]) {
    for room in 0..text.len() {
        assert!(rt; fails_after(alloc, graph, &text[..room]), "room for {room}");
    }
}

#[test]
fn failed_writes_of_a_board_are_told(rt: HostRuntime) -> Result<(), Fail> {
    let graph = board(rt.alloc())?;
    fail_all(&rt, rt.alloc(), &graph, BOARD.as_bytes());
    Ok(())
}

#[test]
fn failed_writes_of_a_long_list_are_told(rt: HostRuntime) -> Result<(), Fail> {
    let graph = with_long_list(rt.alloc())?;
    fail_all(&rt, rt.alloc(), &graph, LONG.as_bytes());
    Ok(())
}

// What was put, piece by piece, and handed on.
fn pieces(alloc: Global) -> Result<Vec<u8>, Fail> {
    let mut writer = MeteredWriter::new(Vec::new(alloc));
    put(&mut writer, b"one")?;
    put_all(&mut writer, &[b" ".as_slice(), b"two".as_slice()])?;
    writer.flush()?;
    Ok(writer.into_inner())
}

// How many bytes a writer takes of five.
fn taken(alloc: Global) -> Result<usize, Failed> {
    let mut writer = MeteredWriter::new(Vec::new(alloc));
    writer.write(b"three")
}

#[test]
fn pieces_are_put(rt: HostRuntime) -> Result<(), Fail> {
    let text = pieces(rt.alloc())?;
    assert!(rt; text.as_slice() == b"one two".as_slice());
    assert!(rt; taken(rt.alloc()) == Ok(5));
    Ok(())
}

// How many bytes two reads give, of at most four each, how many the last gave, and how many reads are counted.
fn two_reads(bytes: &[u8]) -> Result<(usize, usize, usize, u64), Failed> {
    let mut reader = MeteredReader::new(bytes);
    let mut buffer = [0u8; 4];
    let first = reader.read(&mut buffer)?;
    let second = reader.read(&mut buffer)?;
    Ok((first, second, reader.last(), reader.reads()))
}

#[test]
fn reads_are_counted(rt: HostRuntime) {
    assert!(rt; two_reads(b"seven b") == Ok((4, 3, 3, 2)));
    assert!(rt; two_reads(b"") == Ok((0, 0, 0, 2)));
}
