//! The queen's moves on a board of 3 by 4.
ghost use Rattle.std.specs.Prelude.{◌≡◌, ◌<◌, IfOk, IsSome, Ok};
ghost use Rattle.std.specs.List.{flat_map};
ghost use Rattle.sgb_graph.specs.Graph.{IsTip, n_of, made_of, arc_at, arcs_of};
ghost use Rattle.sgb_print.specs.Meter.{fresh_writer};
ghost use Rattle.sgb_print.specs.Print.{Prints};
ghost use Rattle.sgb_programs.specs.Queen.{squares, queen_graph, heading, target, move_line, moves_text, square_text, squares_text, queen_text, ShowsQueen};

use crate::finished::Finished;
use itoa::Buffer;
use sgb_combine::{GunionSpec, gunion};
use sgb_graph::{ArcNo, Graph, Refusal, Tip, VertexNo};
use sgb_make::{BoardSpec, board};
use sgb_print::{Failed, MeteredWriter, RunFault, put_all};
use std::alloc::Global;
use std::io::Write;

/// Writes the queen's moves on a board of 3 by 4, as [`queen_metered`] does, on a writer that it wraps itself.
pub fn queen<W: Write>(alloc: Global, writer: W) -> Finished<(), W>
    ensures shows { ShowsQueen (fresh_writer W.contents writer) result.writer result.end }
{
    let mut writer = MeteredWriter::new(writer);
    let end = queen_metered(alloc, &mut writer);
    Finished { end, writer }
}

/// Writes the queen's moves on a board of 3 by 4, which are the rook's and the bishop's: the id and the counts of their
/// graph, and each square with its moves, each with its target and length. The program `queen` of the GraphBase.
///
/// Fails with `NoRoom` if the graphs cannot be allocated, and then writes nothing; with `Write` if a write fails. Nothing
/// else refuses the graphs of the definition, which a test shows.
pub fn queen_metered<W: Write>(alloc: Global, writer: &mut MeteredWriter<W>) -> Result<(), RunFault>
    ensures shows { ShowsQueen writer.old writer.new result }
{
    let Ok(graph) = queen_graph(alloc) else {
        return Err(RunFault::NoRoom);
    };
    match print_queen(writer, &graph) {
        Ok(()) => Ok(()),
        Err(_) => Err(RunFault::Write),
    }
}

// Makes the union of the rook's and the bishop's moves.
fn queen_graph(alloc: Global) -> Result<Graph, Refusal>
    ensures { IfOk result (λ g. queen_graph ≡ Ok g) }
{
    let rook = board(alloc, &squares(-1))?;
    let bishop = board(alloc, &squares(-2))?;
    let spec = GunionSpec {
        multi: false,
        directed: false,
    };
    gunion(alloc, &rook, &bishop, &spec)
}

// Returns the specification of a board of 3 by 4 for a piece.
fn squares(piece: i64) -> BoardSpec
    ensures { result ≡ squares piece }
{
    BoardSpec {
        n1: 3,
        n2: 4,
        n3: 0,
        n4: 0,
        piece,
        wrap: 0,
        directed: false,
    }
}

// Prints the graph of the moves.
fn print_queen<W: Write>(writer: &mut MeteredWriter<W>, graph: &Graph) -> Result<(), Failed>
    ensures { Prints writer.old writer.new result (queen_text graph.now) }
{
    print_heading(writer, graph)?;
    print_squares(writer, graph)
}

// Prints the title, the id and the counts.
fn print_heading<W: Write>(writer: &mut MeteredWriter<W>, graph: &Graph) -> Result<(), Failed>
    ensures { Prints writer.old writer.new result (heading graph.now) }
{
    let mut vertex_digits = Buffer::new();
    let mut arc_digits = Buffer::new();
    put_all(
        writer,
        &[
            b"Queen Moves on a 3x4 Board\n\n  The graph whose official name is\n",
            graph.id(),
            b"\n  has ",
            vertex_digits.format(graph.n()).as_bytes(),
            b" vertices and ",
            arc_digits.format(graph.m()).as_bytes(),
            b" arcs:\n\n",
        ],
    )
}

// Prints each square with its moves.
fn print_squares<W: Write>(writer: &mut MeteredWriter<W>, graph: &Graph) -> Result<(), Failed>
    ensures { Prints writer.old writer.new result (squares_text graph.now) }
{
    for v in 0..graph.n() {
        print_square(writer, graph, VertexNo(v))?;
    }
    Ok(())
}

// Prints a square with its moves.
fn print_square<W: Write>(
    writer: &mut MeteredWriter<W>,
    graph: &Graph,
    vertex: VertexNo,
) -> Result<(), Failed>
    requires { vertex.0 < n_of graph.now }
    ensures { Prints writer.old writer.new result (square_text graph.now vertex.0) }
{
    put_all(writer, &[graph.label(vertex), b"\n"])?;
    print_moves(writer, graph, vertex)
}

// Prints the moves from a square, the newest first.
fn print_moves<W: Write>(
    writer: &mut MeteredWriter<W>,
    graph: &Graph,
    vertex: VertexNo,
) -> Result<(), Failed>
    requires { vertex.0 < n_of graph.now }
    ensures { Prints writer.old writer.new result (moves_text graph.now (arcs_of graph.now vertex.0)) }
{
    for number in graph.arcs(vertex) {
        print_move(writer, graph, number)?;
    }
    Ok(())
}

// Prints a move's target and length.
fn print_move<W: Write>(
    writer: &mut MeteredWriter<W>,
    graph: &Graph,
    number: ArcNo,
) -> Result<(), Failed>
    requires live { IsSome (arc_at graph.now number.0) }
    requires within { number.0 < made_of graph.now }
    ensures { Prints writer.old writer.new result (move_line graph.now number.0) }
{
    let Some(arc) = graph.arc(number) else {
        unreachable!()
    };
    let mut digits = Buffer::new();
    let len = digits.format(arc.len).as_bytes();
    put_all(
        writer,
        &[b"  -> ", target(graph, arc.tip), b", length ", len, b"\n"],
    )
}

// Returns the label of the tip's vertex, or the tip's number.
fn target(graph: &Graph, tip: Tip) -> &[u8]
    requires { IsTip (n_of graph.now) tip }
    ensures { result.now ≡ target graph.now tip }
{
    match tip {
        Tip::Zero => b"0",
        Tip::One => b"1",
        Tip::To(vertex) => graph.label(vertex),
    }
}
