//! Boards, and the pieces of chess and others that move on them.
ghost use Rattle.std.specs.Prelude.{◌≡◌, ◌<◌, ◌≤◌, length, map, pos, int_lt, IfOk, IfErr, IsErrOf};
ghost use Rattle.sgb_graph.specs.Builder.{Inserts};
ghost use Rattle.sgb_graph.specs.Graph.{n_of};
ghost use Rattle.sgb_plan.specs.Plan.{IsMade, MayAllocate};
ghost use Rattle.sgb_make.specs.Board.{sizes_asked, piece_of, most_of_piece, is_board, board_id, plan_of_board};
ghost use Rattle.sgb_make.specs.Private.Rank.{IsSmall, cells};
ghost use Rattle.sgb_make.specs.Private.Ridden.{along_all, ridden_plan};

use crate::BoardSpec;
use crate::link::Links;
use crate::position::name_positions;
use crate::side::{Course, Step};
use crate::sizes::{count_of, sides_of};
use crate::vector::{count_insertions, insert_parts};
use sgb_graph::{Builder, Graph, Refusal, Text};
use sgb_plan::{Part, id_of, shown_at};
use sgb_simplex::{list_within, point_types};
use std::alloc::Global;

// The four numbers that stand for the sizes.
fn sizes_asked(spec: &BoardSpec) -> [i64; 4]
    ensures { result ≡ sizes_asked spec.now }
{
    if spec.n1 <= 0 {
        [8, 8, 0, spec.n4]
    } else {
        [spec.n1, spec.n2, spec.n3, spec.n4]
    }
}

// The piece: 0 stands for 1.
fn piece_of(spec: &BoardSpec) -> i64
    ensures { result ≡ piece_of spec.now }
{
    if spec.piece == 0 { 1 } else { spec.piece }
}

// A piece below 0 goes on by steps of the same vector.
fn is_rider(piece: i64) -> bool
    ensures { result ≡ int_lt piece (pos 0) }
{
    piece < 0
}

// The greatest absolute value of a piece on a board of so many coordinates.
fn most_of_piece(coordinates: usize) -> u64
    ensures { result ≡ most_of_piece coordinates }
{
    if coordinates <= 4 {
        128
    } else if coordinates <= 16 {
        16
    } else {
        4
    }
}

// The id, with the numbers as they stand for others.
fn board_id(alloc: Global, spec: &BoardSpec, numbers: &[i64], piece: i64) -> Result<Text, Refusal>
    requires numbers { numbers.now ≡ sizes_asked spec.now }
    requires piece { piece ≡ piece_of spec.now }
    ensures value { IfOk result (λ id. id ≡ board_id spec.now) }
    ensures short { IfOk result (λ id. length id ≤ 160) }
    ensures err { IfErr result (λ e. e ≡ Refusal.NoRoom) }
{
    let parts = [
        Part::Number(shown_at(numbers, 0)),
        Part::Number(shown_at(numbers, 1)),
        Part::Number(shown_at(numbers, 2)),
        Part::Number(shown_at(numbers, 3)),
        Part::Number(piece),
        Part::Number(spec.wrap),
        Part::Flag(spec.directed),
    ];
    id_of(alloc, "board", &parts)
}

// Inserts along all vectors of the piece.
fn insert_vectors(builder: &mut Builder, alloc: Global, course: &Course) -> Result<(), Refusal>
    requires most { course.now.most ≤ 128 }
    requires small { IsSmall course.now.sides.items }
    requires count { n_of builder.old.graph ≡ cells course.now.sides.items }
    ensures { Inserts builder.old builder.new (along_all course.now.sides.items course.now.rides course.now.most) result }
{
    let mut tables = Links {
        table: Vec::new(alloc),
        spare: Vec::new(alloc),
    };
    let still = Step { by: 0, back: false };
    let mut parts = vec![in alloc; 0u32; course.sides.len()]?;
    let mut steps = vec![in alloc; still; course.sides.len()]?;
    builder.reserve(count_insertions(course))?;
    insert_parts(
        builder,
        &mut tables,
        course,
        &mut parts,
        &mut steps,
        0,
        course.most,
    )
}

// The graph of so many positions, and of all rides on them.
fn build(
    alloc: Global,
    id: Text,
    course: &Course,
    count: u32,
    directed: bool,
) -> Result<Graph, Refusal>
    requires id { length id ≤ 160 }
    requires few { length course.now.sides.items ≤ 20 }
    requires small { IsSmall course.now.sides.items }
    requires count { count ≡ cells course.now.sides.items }
    requires most { course.now.most ≤ 128 }
    ensures { IsMade (Ok (ridden_plan id course.now.sides.items course.now.rides course.now.most directed)) result }
{
    let mut builder = Builder::new(alloc, id, point_types(), directed);
    name_positions(&mut builder, alloc, &course.sides, count)?;
    insert_vectors(&mut builder, alloc, course)?;
    Ok(builder.finish())
}

/// A board, whose vertices are its positions in lexicographic order, named by their coordinates joined by dots; the
/// fields `x`, `y` and `z` are the first three. For each vector of the piece, by its absolute values and then by its
/// signs, and each position in order, there is an arc or an edge to where the piece comes to, of the length of its
/// step. Refused `BadSpecs` where there are more than 20 coordinates or the piece is too large, and then `TooLarge`
/// where there are more than 65,535 positions, or more than 1,000,000 numbers of arcs.
///
/// Knuth's `board`.
pub fn board(alloc: Global, spec: &BoardSpec) -> Result<Graph, Refusal>
    ensures made { IsMade (plan_of_board spec.now) result }
    ensures room { IsErrOf result Refusal.NoRoom → MayAllocate (plan_of_board spec.now) }
{
    let numbers = sizes_asked(spec);
    let piece = piece_of(spec);
    let mut places = [0u64; 20];
    let coordinates = list_within(&numbers, 0, &mut places)?;
    if piece.unsigned_abs() > most_of_piece(coordinates) {
        return Err(Refusal::BadSpecs);
    }
    let sizes = &places[..coordinates];
    let count = count_of(sizes)?;
    let course = Course {
        sides: sides_of(alloc, sizes, spec.wrap)?,
        rides: is_rider(piece),
        most: piece.unsigned_abs() as u32,
    };
    let id = board_id(alloc, spec, &numbers, piece)?;
    build(alloc, id, &course, count, spec.directed)
}
