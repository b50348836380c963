//! Points as vertices.
ghost use Rattle.std.specs.Prelude.{◌≡◌, ◌≤◌, ◌∷◌, [], length, map};
ghost use Rattle.sgb_plan.specs.Plan.{Names};
ghost use Rattle.sgb_simplex.specs.Points.{points, point_vertex, coordinate_field, point_types};

use crate::list::PointList;
use sgb_graph::{Builder, Refusal, Types, Util};
use sgb_plan::{append_dotted, label_of};
use std::alloc::Global;

/// The letters of graphs of points: three numbers for each vertex.
pub fn point_types() -> Types
    ensures { result ≡ point_types }
{
    let Some(types) = Types::new(b"ZZZIIIZZZZZZZZ") else {
        unreachable!()
    };
    types
}

/// Makes a vertex of a point: its name is its coordinates, joined by dots, and its fields x, y and z are the first three
/// of them. The name is first written to `name`, whatever stood there, so that many names can use one buffer.
pub fn push_point(
    builder: &mut Builder,
    alloc: Global,
    name: &mut Vec<u8>,
    point: &[u32],
) -> Result<(), Refusal>
    requires { length point.now ≤ 372 }
    ensures { Names builder.old builder.new (point_vertex point.now ∷ []) result }
{
    name.clear();
    append_dotted(name, point)?;
    let fields = [
        Util::Zero,
        Util::Zero,
        Util::Zero,
        coordinate_field(point, 0),
        coordinate_field(point, 1),
        coordinate_field(point, 2),
    ];
    let label = label_of(alloc, name)?;
    builder.push_vertex(label, fields)
}

/// Makes a vertex of each point.
pub(crate) fn name_vertices(
    builder: &mut Builder,
    alloc: Global,
    list: &PointList,
) -> Result<(), Refusal>
    ensures { Names builder.old builder.new (map point_vertex (points list.now.total list.now.bounds.items)) result }
{
    builder.reserve_vertices(list.count as usize)?;
    let mut name = Vec::new(alloc);
    for v in 0..list.count {
        push_point(builder, alloc, &mut name, list.point(v))?;
    }
    Ok(())
}

// The coordinate `k`, where there is one.
fn coordinate_field(point: &[u32], k: usize) -> Util
    ensures { result ≡ coordinate_field point.now k }
{
    if k < point.len() {
        Util::Int(point[k] as i64)
    } else {
        Util::Zero
    }
}
