//! Makes graphs of binary trees.
ghost use Rattle.std.specs.Prelude.{◌≡◌, ◌≤◌, ◌≤ℤ◌, ◌<◌, pos, unsigned_abs, length, map, All, Ok, IsErrOf};
ghost use Rattle.sgb_graph.specs.Text.{IsText};
ghost use Rattle.sgb_binary.specs.Private.Names.{bytes_of};
ghost use Rattle.sgb_plan.specs.Plan.{IsMade, Names, MayAllocate};
ghost use Rattle.sgb_binary.specs.Binary.{plan_of_binary, binary_plan, is_binary, height_within, tree_vertex};

use crate::BinarySpec;
use crate::index::split_names;
use crate::judge::count_trees;
use crate::lister::list_trees;
use crate::rotation::insert_rotations;
use sgb_graph::{Builder, Graph, Refusal, Types};
use sgb_plan::{Part, id_of, label_of};
use std::alloc::Global;

/// The graph `binary` of binary trees: a vertex for each tree with `n` dots and at most the height, named by its text,
/// `x`, or `.` followed by two trees, in the order of the bytes; and from each in order, for each place of its name
/// from the left where a subtree `..abc` begins, an arc or an edge of length 1 to the tree with `.a.bc` there, where it
/// is a vertex.
///
/// Refused `BadSpecs` where `n` is not from 0 to 100 or the height is below 0, and then `TooLarge` where there are more
/// than 65,535 trees, which takes no memory to tell, or more than 1,000,000 numbers would be given out.
pub fn binary(alloc: Global, spec: &BinarySpec) -> Result<Graph, Refusal>
    ensures made { IsMade (plan_of_binary spec.now) result }
    ensures room { IsErrOf result Refusal.NoRoom → MayAllocate (plan_of_binary spec.now) }
{
    if !is_binary(spec) {
        return Err(Refusal::BadSpecs);
    }
    let n = spec.n as u32;
    let most = height_within(n, spec.max_height as u64);
    make_graph(alloc, n, most, spec.directed)
}

fn is_binary(spec: &BinarySpec) -> bool
    ensures { result ≡ is_binary spec.now }
{
    spec.n >= 0 && spec.n <= 100 && spec.max_height >= 0
}

// The height, where 0, or more than n, is n.
fn height_within(n: u32, height: u64) -> u32
    ensures { result ≡ height_within n height }
{
    if height == 0 || height > n as u64 {
        n
    } else {
        height as u32
    }
}

fn make_graph(alloc: Global, n: u32, most: u32, directed: bool) -> Result<Graph, Refusal>
    requires { n ≤ 100 }
    ensures made { IsMade (Ok (binary_plan n most directed)) result }
    ensures room { IsErrOf result Refusal.NoRoom → MayAllocate (Ok (binary_plan n most directed)) }
{
    let count = count_trees(n, most)?;
    let id = id_of(
        alloc,
        "binary",
        &[Part::Count(n), Part::Count(most), Part::Flag(directed)],
    )?;
    let names = list_trees(alloc, n, most, count)?;
    let width = 2 * n as usize + 1;
    let keys = split_names(alloc, &names, width)?;
    let trees = keys.as_slice();
    let mut builder = Builder::new(alloc, id, Types::none(), directed);
    name_vertices(&mut builder, alloc, trees)?;
    insert_rotations(&mut builder, alloc, trees, width)?;
    Ok(builder.finish())
}

// A vertex for each tree.
fn name_vertices(builder: &mut Builder, alloc: Global, trees: &[&[u8]]) -> Result<(), Refusal>
    requires { All IsText (map bytes_of trees.now) }
    ensures { Names builder.old builder.new (map tree_vertex (map bytes_of trees.now)) result }
{
    builder.reserve_vertices(trees.len())?;
    for tree in trees {
        let label = label_of(alloc, tree)?;
        builder.push_named(label)?;
    }
    Ok(())
}
